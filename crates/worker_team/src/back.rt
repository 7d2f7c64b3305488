// What a worker brings back, each in a turn of the lock of its own: a batch, the solver's answer, or a job that it gives up.

ghost use Rattle.std.specs.Prelude.{◌≡◌, ◌≤◌, length, is_some};
ghost use Rattle.pool_history.specs.Inputs.{IsRightBatch};
ghost use Rattle.pool_history.specs.Lawful.{IsOut, IsRightSolution};
ghost use Rattle.pool_history.specs.Outcomes.{outcome_of};
ghost use Rattle.pool_history.specs.Replay.{replay};
ghost use Rattle.worker_team.specs.Passes.{HasJob, IsPassOf, origin_of, record_of};
ghost use Rattle.worker_team.specs.Backs.{HasBrought, HasGivenUp, HasSolved};

use plain_types::Mem;
use pool_core::{Back, Batch, Pool, PropTicket, Ticket};
use sat_core::Answer;
use std::alloc::Global;
use std::sync::Wait;
use term_bank::Bank;
use turn_lock::{Pass, TurnLock};

/// What came of a batch.
#[derive(Drop)]
pub(crate) enum Brought {
    /// A clause has died by which the given clause would go: the job is to be done again, with this ticket.
    Again(Ticket),
    /// The job is done. Whether an outcome stands now.
    Done(bool),
}

/// A pass after a batch was brought back.
#[derive(Drop)]
pub(crate) struct AfterBatch {
    pub pass: Pass<Pool>,
    pub brought: Mem<Brought>,
}

/// A pass after the solver's answer was brought back, and whether an outcome stands now.
#[derive(Drop)]
pub(crate) struct AfterAnswer {
    pub pass: Pass<Pool>,
    pub stands: Mem<bool>,
}

/// Brings a batch back for a worker that knows the activations and deaths of the first `told` events. After an out-of-memory error the pool is
/// as before, and the batch is gone.
pub(crate) fn bring<R: Wait>(
    rt: &R,
    alloc: Global,
    lock: &TurnLock<Pool>,
    bank: &Bank,
    pass: Pass<Pool>,
    batch: Batch,
    told: u64,
) -> AfterBatch
    requires lock { pass.lock ≡ lock.now }
    requires told { told ≤ length pass.seen }
    requires pass { IsPassOf bank.now pass }
    requires right { IsRightBatch (origin_of pass) pass.seen batch }
    requires owned { HasJob pass batch.job }
    ensures lock { result.pass.lock ≡ lock.now }
    ensures brought { HasBrought bank.now pass batch.job told result.pass result.brought }
{
    let mut turn = lock.take(rt, pass);
    // The history is lawful, so what follows from it may be relied on.
    let _before = turn.state.history();
    let brought = match turn.state.give_back(rt, alloc, bank, batch, told) {
        Ok(Back::Stale { ticket, .. }) => Ok(Brought::Again(ticket)),
        Ok(Back::Taken) => Ok(Brought::Done(has_outcome(&turn.state))),
        Ok(Back::Void(_)) => Ok(Brought::Done(has_outcome(&turn.state))),
        Err(refused) => Err(refused.into()),
    };
    let _after = turn.state.history();
    AfterBatch {
        pass: lock.give(turn),
        brought,
    }
}

/// Brings the solver's answer back. After an out-of-memory error the pool is as before, and the answer is gone.
pub(crate) fn solve_back<R: Wait>(
    rt: &R,
    alloc: Global,
    lock: &TurnLock<Pool>,
    bank: &Bank,
    pass: Pass<Pool>,
    ticket: PropTicket,
    answer: Answer,
) -> AfterAnswer
    requires lock { pass.lock ≡ lock.now }
    requires pass { IsPassOf bank.now pass }
    requires right { IsRightSolution (record_of pass) ticket.job answer }
    requires owned { HasJob pass ticket.job }
    ensures lock { result.pass.lock ≡ lock.now }
    ensures solved { HasSolved bank.now pass ticket.job result.pass result.stands }
{
    let mut turn = lock.take(rt, pass);
    // The history is lawful, so what follows from it may be relied on.
    let _before = turn.state.history();
    let stands = match turn.state.give_model(alloc, ticket, answer) {
        Ok(()) => Ok(has_outcome(&turn.state)),
        Err(refused) => Err(refused.into()),
    };
    let _after = turn.state.history();
    AfterAnswer {
        pass: lock.give(turn),
        stands,
    }
}

/// Gives a job up, be it on a clause or the solver's. It takes no memory.
pub(crate) fn give_up<R: Wait>(
    rt: &R,
    lock: &TurnLock<Pool>,
    bank: &Bank,
    pass: Pass<Pool>,
    job: u64,
) -> Pass<Pool>
    requires lock { pass.lock ≡ lock.now }
    requires pass { IsPassOf bank.now pass }
    requires out { IsOut (record_of pass) job }
    requires owned { HasJob pass job }
    ensures lock { result.lock ≡ lock.now }
    ensures given_up { HasGivenUp bank.now pass job result }
{
    let mut turn = lock.take(rt, pass);
    // The history is lawful, so what follows from it may be relied on.
    let _before = turn.state.history();
    turn.state.abandon(job);
    let _after = turn.state.history();
    lock.give(turn)
}

/// Whether an outcome stands on a pool.
fn has_outcome(pool: &Pool) -> bool
    ensures { result ≡ is_some (outcome_of (replay pool.now.origin pool.now.history)) }
{
    pool.outcome().is_some()
}
