// Worked rows of the definitions, over entries that are their own keys: the contract of a function without arguments and with an empty body.

ghost use Rattle.std.specs.Prelude.{◌≡◌, ℕ, [], ◌∷◌};
ghost use Rattle.turn_lock.specs.History.{longer, shorter, added_places, AreApart, OwnsAdded, OwnsKeys, AreKeysApart, AddsOwnKeys};

/// Histories, and the places in them that a pass owns.
pub fn history_examples()
    ensures longer { longer {E = ℕ} (7 ∷ 8 ∷ []) (7 ∷ 8 ∷ 9 ∷ 9 ∷ []) ≡ 7 ∷ 8 ∷ 9 ∷ 9 ∷ [] }
    ensures longer_of_equals { longer {E = ℕ} (7 ∷ 8 ∷ []) (1 ∷ 2 ∷ []) ≡ 7 ∷ 8 ∷ [] }
    ensures shorter { shorter {E = ℕ} (7 ∷ 8 ∷ 9 ∷ 9 ∷ []) (7 ∷ 8 ∷ []) ≡ 7 ∷ 8 ∷ [] }
    ensures added { added_places {E = ℕ} (7 ∷ 8 ∷ []) (7 ∷ 8 ∷ 9 ∷ 9 ∷ []) ≡ 2 ∷ 3 ∷ [] }
    ensures owns_both_added { OwnsAdded {E = ℕ} (7 ∷ 8 ∷ []) (7 ∷ 8 ∷ 9 ∷ 9 ∷ []) (3 ∷ 2 ∷ []) }
    ensures owns_one_added { ¬ OwnsAdded {E = ℕ} (7 ∷ 8 ∷ []) (7 ∷ 8 ∷ 9 ∷ 9 ∷ []) (2 ∷ []) }
    ensures owns_an_old { ¬ OwnsAdded {E = ℕ} (7 ∷ 8 ∷ []) (7 ∷ 8 ∷ 9 ∷ 9 ∷ []) (0 ∷ 2 ∷ 3 ∷ []) }
    ensures owns_one_beyond { ¬ OwnsAdded {E = ℕ} (7 ∷ 8 ∷ []) (7 ∷ 8 ∷ 9 ∷ 9 ∷ []) (2 ∷ 3 ∷ 4 ∷ []) }
    ensures owns_one_twice { ¬ OwnsAdded {E = ℕ} (7 ∷ 8 ∷ []) (7 ∷ 8 ∷ 9 ∷ 9 ∷ []) (2 ∷ 3 ∷ 3 ∷ []) }
    ensures begins_otherwise { ¬ OwnsAdded {E = ℕ} (1 ∷ 8 ∷ []) (7 ∷ 8 ∷ 9 ∷ 9 ∷ []) (2 ∷ 3 ∷ []) }
    ensures apart { AreApart (0 ∷ 2 ∷ []) (1 ∷ 3 ∷ []) }
    ensures not_apart { ¬ AreApart (0 ∷ 2 ∷ []) (1 ∷ 2 ∷ []) }
    ensures keys_owned { OwnsKeys (λ (n : ℕ). n) (5 ∷ 6 ∷ 5 ∷ []) (0 ∷ 2 ∷ []) }
    ensures keys_not_owned { ¬ OwnsKeys (λ (n : ℕ). n) (5 ∷ 6 ∷ 5 ∷ []) (0 ∷ []) }
    ensures keys_apart { AreKeysApart (λ (n : ℕ). n) (5 ∷ 6 ∷ 5 ∷ []) (0 ∷ 2 ∷ []) (1 ∷ []) }
    ensures keys_not_apart { ¬ AreKeysApart (λ (n : ℕ). n) (5 ∷ 6 ∷ 5 ∷ []) (0 ∷ []) (2 ∷ []) }
    ensures adds_own_keys { AddsOwnKeys (λ (n : ℕ). n) (5 ∷ 6 ∷ []) (0 ∷ []) (5 ∷ 6 ∷ 5 ∷ 7 ∷ []) }
    ensures adds_others_key { ¬ AddsOwnKeys (λ (n : ℕ). n) (5 ∷ 6 ∷ []) (0 ∷ []) (5 ∷ 6 ∷ 6 ∷ []) }
{}
