// Worked examples of the definitions: each is the contract of a function without arguments and with an empty body.

ghost use Rattle.std.specs.Prelude.{◌≡◌, ◌-◌, ◌^◌, [], ◌∷◌, IsTrue, IsFalse};
ghost use Rattle.plain_types.specs.Capped.{capped};
ghost use Rattle.plain_types.specs.Names.{opposite, has_name, without, can_resolve, resolvent, positive_of, negative_of};

/// Signed names and resolution.
pub fn name_examples()
    ensures turned { opposite (positive_of 1) ≡ negative_of 1 }
    ensures there { IsTrue (has_name (positive_of 1) (negative_of 0 ∷ positive_of 1 ∷ [])) }
    ensures other_sign { IsFalse (has_name (positive_of 0) (negative_of 0 ∷ positive_of 1 ∷ [])) }
    ensures each_gone { without (positive_of 1) (positive_of 1 ∷ negative_of 1 ∷ positive_of 1 ∷ []) ≡ negative_of 1 ∷ [] }
    ensures resolves { IsTrue (can_resolve (positive_of 0) (positive_of 0 ∷ []) (negative_of 0 ∷ [])) }
    ensures not_both_ways { IsFalse (can_resolve (negative_of 0) (positive_of 0 ∷ []) (negative_of 0 ∷ [])) }
    ensures rest { resolvent (positive_of 0) (positive_of 0 ∷ positive_of 1 ∷ []) (negative_of 2 ∷ negative_of 0 ∷ []) ≡ positive_of 1 ∷ negative_of 2 ∷ [] }
{}

/// Counts that stop at a machine word's last value.
pub fn count_examples()
    ensures small { capped 4 ≡ 4 }
    ensures last { capped (2 ^ 64 - 1) ≡ 2 ^ 64 - 1 }
    ensures large { capped (2 ^ 64) ≡ 2 ^ 64 - 1 }
{}
