// Which clause is claimed, and jobs that are given up.

ghost use Rattle.std.specs.Prelude.{◌≡◌, List, [], ◌∷◌, ◌++◌, Some, None, take};
ghost use Rattle.clause_queue.specs.declared.choice.Choice.TheVariants.{Light, Old};
ghost use Rattle.pool_history.specs.Answers.{IsAnswerToClaim, IsAnswerToReturn, TakesMemory};
ghost use Rattle.pool_history.specs.Claiming.{ready, picked, next_choice, next_given};
ghost use Rattle.pool_history.specs.Outcomes.{outcome_of};
ghost use Rattle.pool_history.specs.Record.{nothing_registered, jobs_out};
ghost use Rattle.pool_history.specs.Replay.{start, replay};
ghost use Rattle.laws_pool_examples.specs.Examples.{pool_of, three, abandon_history, given_up_from, units, units_history, justified, removing, cut_by, limited, rewrites_history, return};
ghost use Rattle.fol_base.specs.Examples.{a};
ghost use Rattle.pool_history.specs.declared.batch.Work.TheVariants as work;
ghost use Rattle.pool_history.specs.declared.event.Event.{Event};
ghost use Rattle.pool_history.specs.declared.event.Event.TheVariants as event;
ghost use Rattle.pool_history.specs.declared.ticket.Ticket.{Ticket};
ghost use Rattle.pool_history.specs.declared.outcome.Outcome.TheVariants.{Refuted, Saturated};
ghost use Rattle.pool_history.specs.declared.ticket.Back.TheVariants as back;
ghost use Rattle.pool_history.specs.declared.ticket.Claimed.TheVariants as answer;

/// Of `p(a)`, `~p(X0) | q(X0)` and `r` the last is the lightest, the first the oldest. Each sixth claim is of the oldest.
pub fn claim_examples()
    ensures ready { ready (start three) ≡ 0 ∷ 1 ∷ 2 ∷ [] }
    ensures light { picked (start three) Light (0 ∷ 1 ∷ 2 ∷ []) ≡ Some 2 }
    ensures old { picked (start three) Old (0 ∷ 1 ∷ 2 ∷ []) ≡ Some 0 }
    ensures nothing { picked (start three) Light [] ≡ None }
    ensures next { next_given (start three) ≡ Some 2 }
    ensures fifth { next_choice (record nothing_registered { claims = 4 }) ≡ Light }
    ensures sixth { next_choice (record nothing_registered { claims = 5 }) ≡ Old }
    ensures fifth_claimed { next_given (replay three (given_up_from 1 4)) ≡ Some 2 }
    ensures sixth_claimed { next_given (replay three (given_up_from 1 5)) ≡ Some 0 }
    ensures seventh { next_choice (record nothing_registered { claims = 6 }) ≡ Light }
{}

/// A clause whose job is given up waits again and keeps its position, however late it is claimed again; the next job has the next number.
pub fn given_up_examples()
    ensures two_events { outcome_of (replay three (take 2 abandon_history)) ≡ None }
    ensures waits { ready (replay three (take 4 abandon_history)) ≡ 0 ∷ 1 ∷ [] }
    ensures positions { (replay three abandon_history).positions ≡ 2 ∷ 0 ∷ [] }
    ensures again { (replay three abandon_history).given
        ≡ record { job = 3; number = 0; told = 2 ∷ 0 ∷ []; as_of = 5; left = 100 } ∷ [] }
    ensures kept_position { (replay three (event.Claim 1 ∷ event.Claim 2 ∷ event.Abandon 1 ∷ event.Claim 3 ∷ [])).positions ≡ 2 ∷ 0 ∷ [] }
    ensures all_out { jobs_out (replay three (event.Claim 1 ∷ event.Claim 2 ∷ event.Claim 3 ∷ [])) ≡ 3 }
    ensures none_ready { ready (replay three (event.Claim 1 ∷ event.Claim 2 ∷ event.Claim 3 ∷ [])) ≡ [] }
{}

/// Answers to claims: three jobs are out and nothing is to be given, a pool without clauses is saturated, and the pool is refuted. It isn't
/// saturated while a job is still to be given. Answers to returns: if the given clause has died, that is told, whatever the batch is. A batch by
/// a living justifier is taken. One by a dead justifier isn't, and the answer tells that justifier and no other.
pub fn answer_examples()
    ensures idle { IsAnswerToClaim three (event.Claim 1 ∷ event.Claim 2 ∷ event.Claim 3 ∷ []) 0
        (answer.Idle 3) (event.Claim 1 ∷ event.Claim 2 ∷ event.Claim 3 ∷ []) }
    ensures nothing_out { IsAnswerToClaim (pool_of []) [] 0 (answer.Idle 0) [] → ⊥ }
    ensures saturated { IsAnswerToClaim (pool_of []) [] 0 (answer.Ended Saturated) [] }
    ensures ended { IsAnswerToClaim units units_history 0 (answer.Ended Refuted) units_history }
    ensures not_saturated { IsAnswerToClaim units (take 2 units_history) 0 (answer.Ended Saturated) (take 2 units_history) → ⊥ }
    ensures void { IsAnswerToReturn justified removing 0
        (record { job = 1; work = work.Met [] [] }) (back.Void 3) (removing ++ event.Void 1 ∷ []) }
    ensures not_void { IsAnswerToReturn justified removing 0
        (record { job = 3; work = work.Gone (cut_by 1 (a ∷ [])) }) (back.Void 3) (removing ++ event.Void 3 ∷ []) → ⊥ }
    ensures first_dead { (ticket : Ticket) (new : List Event) → IsAnswerToReturn justified removing 0
        (record { job = 3; work = work.Gone (cut_by 0 []) }) (back.Stale 1 3 ticket) new → ⊥ }
    ensures taken { IsAnswerToReturn justified removing 0
        (record { job = 3; work = work.Gone (cut_by 1 (a ∷ [])) }) back.Taken (removing ++ return 3 (work.Gone (cut_by 1 (a ∷ []))) ∷ []) }
    ensures not_taken { IsAnswerToReturn justified removing 0
        (record { job = 3; work = work.Gone (cut_by 0 []) }) back.Taken (removing ++ return 3 (work.Gone (cut_by 0 [])) ∷ []) → ⊥ }
{}

/// A return takes memory where results are to be registered, or a ticket is made since a justifier has died; and not where the given clause
/// has died, or an outcome stands.
pub fn memory_examples()
    ensures taken { TakesMemory (replay justified removing) (record { job = 3; work = work.Gone (cut_by 1 (a ∷ [])) }) }
    ensures stale { TakesMemory (replay justified removing) (record { job = 3; work = work.Gone (cut_by 0 []) }) }
    ensures void { TakesMemory (replay justified removing) (record { job = 1; work = work.Met [] [] }) → ⊥ }
    ensures spent { TakesMemory (replay limited (take 3 rewrites_history)) (record { job = 1; work = work.Met [] [] }) → ⊥ }
{}
