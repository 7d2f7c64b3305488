// Worked examples: the contract of a function without arguments and with an empty body.

ghost use Rattle.std.specs.Prelude.{◌≡◌, ◌++◌, [], ◌∷◌, Some, slice_get, ℕ};

/// What stands at a place of joined lists: that of the first, or the first of the second after it.
pub fn place_examples()
    ensures front { slice_get {X = ℕ} ((5 ∷ 7 ∷ []) ++ 9 ∷ []) 1 ≡ Some 7 }
    ensures last { slice_get {X = ℕ} ((5 ∷ 7 ∷ []) ++ 9 ∷ []) 2 ≡ Some 9 }
{}
