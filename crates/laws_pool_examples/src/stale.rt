// The history of a batch that is refused, since a clause that justifies it has died.

ghost use Rattle.std.specs.Prelude.{◌≡◌, [], ◌∷◌, ◌++◌, Some, length, take, slice_get, IsTrue, IsFalse};
ghost use Rattle.std.specs.List.{list_all};
ghost use Rattle.fol_base.specs.Examples.{r, clause};
ghost use Rattle.pool_history.specs.Laws.{are_justified, lived_before};
ghost use Rattle.pool_history.specs.Record.{lives, told_now};
ghost use Rattle.pool_history.specs.Replay.{replay};
ghost use Rattle.laws_pool_examples.specs.Examples.{justified, removing, removing_by_dead, removing_twice, removing_and_meeting, stale_history};
ghost use Rattle.pool_history.specs.declared.event.Event.TheVariants as event;

/// While three jobs are out, `q(X0)` removes `q(a)`. The cut of the third clause by `q(a)` is refused then; the job stays out and is told
/// anew. Cut by `q(X0)` the clause goes. The job on `q(a)` is void. A removal by a clause that died in the same return has no effect, and of
/// two removals of a clause the first alone has. What a job that is told anew may count is what was left at its claim.
pub fn stale_return()
    ensures all_out { (replay justified (take 3 removing)).positions ≡ 0 ∷ 1 ∷ 2 ∷ [] }
    ensures removed { IsFalse (lives (replay justified removing) 0) }
    ensures told_anew { (replay justified (removing ++ event.Stale 3 0 ∷ [])).given
        ≡ record { job = 1; number = 0; told = 0 ∷ []; as_of = 1; left = 100 }
        ∷ record { job = 3; number = 2; told = 1 ∷ 2 ∷ []; as_of = 5; left = 100 } ∷ [] }
    ensures deaths { (replay justified stale_history).deaths ≡ record { victim = 0; event = 3; justifiers = 1 ∷ [] }
        ∷ record { victim = 2; event = 5; justifiers = 1 ∷ [] } ∷ [] }
    ensures result { slice_get (replay justified stale_history).registered 3 ≡ Some (record { clause = clause (r ∷ []); line = 4 }) }
    ensures one_death { (replay justified removing_by_dead).deaths ≡ record { victim = 0; event = 3; justifiers = 1 ∷ [] } ∷ [] }
    ensures three_clauses { length (replay justified removing_by_dead).registered ≡ 3 }
    ensures dies_once { (replay justified removing_twice).deaths ≡ record { victim = 0; event = 3; justifiers = 1 ∷ [] } ∷ [] }
    ensures counted { length (replay justified removing_and_meeting).counted ≡ 1 }
    ensures left_kept { (replay justified (removing_and_meeting ++ event.Stale 3 0 ∷ [])).given
        ≡ record { job = 1; number = 0; told = 0 ∷ []; as_of = 1; left = 100 }
        ∷ record { job = 3; number = 2; told = 1 ∷ 2 ∷ []; as_of = 5; left = 100 } ∷ [] }
    ensures none_out { (replay justified stale_history).given ≡ [] }
{}

/// A clause that died justifies no later death.
pub fn justified_death_examples()
    ensures in_order { IsTrue (are_justified []
        (record { victim = 2; event = 3; justifiers = 0 ∷ [] } ∷ record { victim = 0; event = 4; justifiers = 1 ∷ [] } ∷ [])) }
    ensures out_of_order { IsFalse (are_justified []
        (record { victim = 0; event = 3; justifiers = 1 ∷ [] } ∷ record { victim = 2; event = 4; justifiers = 0 ∷ [] } ∷ [])) }
    ensures twice { IsFalse (are_justified []
        (record { victim = 0; event = 3; justifiers = 1 ∷ [] } ∷ record { victim = 0; event = 4; justifiers = 1 ∷ [] } ∷ [])) }
    ensures itself { IsFalse (are_justified [] (record { victim = 0; event = 3; justifiers = 0 ∷ [] } ∷ [])) }
    ensures lived { IsTrue (list_all (lived_before justified stale_history) (replay justified stale_history).deaths) }
    ensures not_yet_registered { IsFalse (lived_before justified stale_history (record { victim = 2; event = 4; justifiers = 3 ∷ [] })) }
    ensures dead_then { IsFalse (lived_before justified stale_history (record { victim = 2; event = 4; justifiers = 0 ∷ [] })) }
{}
