// The laws of the queue's words: each is the contract of a function without arguments and with an empty body.

ghost use Rattle.std.specs.Prelude.{◌≡◌, [], ◌∷◌};
ghost use Rattle.clause_queue.specs.Pairs.{with_pair, without, IsRising};
ghost use Rattle.clause_queue.specs.Pick.{IsPick};
ghost use Rattle.clause_queue.specs.QueueLaws.{PutBackRestores, PicksAreUnique};
ghost use Rattle.clause_queue.specs.declared.choice.Choice.TheVariants.{Light, Old};

/// A pair that was taken out and is put back restores the list.
pub fn put_back_restores()
    ensures { PutBackRestores }
{}

/// A choice picks one number: so `peek` tells the one that `pick` takes out.
pub fn picks_are_unique()
    ensures { PicksAreUnique }
{}

/// Pairs put into their places, and taken out.
pub fn examples()
    ensures put { with_pair (2, 7) ((1, 9) ∷ (3, 4) ∷ []) ≡ (1, 9) ∷ (2, 7) ∷ (3, 4) ∷ [] }
    ensures taken { without 2 ((1, 9) ∷ (2, 7) ∷ (3, 4) ∷ []) ≡ (1, 9) ∷ (3, 4) ∷ [] }
    ensures rising { IsRising ((1, 9) ∷ (2, 7) ∷ []) }
    ensures falling { ¬ IsRising ((2, 9) ∷ (1, 7) ∷ []) }
{}

/// Of the clauses 0, 1 and 2 with the sizes 5, 3 and 3: of the two lightest the one of the lower number is picked by weight, and the oldest
/// by age.
pub fn pick_examples()
    ensures lightest { IsPick Light ((0, 5) ∷ (1, 3) ∷ (2, 3) ∷ []) 1 }
    ensures higher_number { ¬ IsPick Light ((0, 5) ∷ (1, 3) ∷ (2, 3) ∷ []) 2 }
    ensures oldest { IsPick Old ((0, 5) ∷ (1, 3) ∷ (2, 3) ∷ []) 0 }
    ensures younger { ¬ IsPick Old ((0, 5) ∷ (1, 3) ∷ (2, 3) ∷ []) 1 }
{}
