// A worker's job, outside of any turn of the lock: a batch for a clause, or an answer of the solver; and what is brought back then.

ghost use Rattle.std.specs.Prelude.{◌≡◌, None, Err, length, IfOk};
ghost use Rattle.pool_history.specs.Inputs.{IsRightBatch};
ghost use Rattle.worker_team.specs.Passes.{IsGiven, IsIndexOf, IsPassOf, origin_of};
ghost use Rattle.worker_team.specs.Jobs.{HasDoneClause, HasDoneSolving, IsAsked};
ghost use Rattle.worker_team.specs.Workers.{Knows};

use crate::back::{Brought, bring, give_up, solve_back};
use crate::solving::{Solved, solve_ticket};
use crate::worker::Knowledge;
use given_work::{Index, work};
use plain_types::{Mem, NoMemory};
use pool_core::{Batch, Pool, PropTicket, Ticket};
use std::alloc::Global;
use std::sync::Wait;
use term_bank::Bank;
use turn_lock::{Pass, TurnLock};

/// What a worker knows after its turn, and whether an outcome stands.
#[derive(Drop)]
pub(crate) struct Known {
    pub knowledge: Knowledge,
    pub stands: bool,
}

/// A pass after a turn, and what the worker knows then: nothing after an out-of-memory error.
#[derive(Drop)]
pub(crate) struct AfterTurn {
    pub pass: Pass<Pool>,
    pub known: Mem<Known>,
    /// Where nothing was to be done but to wait: how many events the history had.
    pub idle: Option<u64>,
}

/// A batch, and the index that knows what its ticket told.
#[derive(Drop)]
struct Made {
    index: Index,
    batch: Batch,
}

/// Learns what a ticket tells, and works on its clause. The batch is right for the job on the history that the pass has seen.
fn make_batch(
    alloc: Global,
    bank: &Bank,
    pass: &Pass<Pool>,
    index: Index,
    ticket: &Ticket,
) -> Mem<Made>
    requires pass { IsPassOf bank.now pass.now }
    requires index { IsIndexOf bank.now pass.now index }
    requires ticket { IsGiven pass.now index.told ticket.now }
    ensures index { IfOk result (λ made. IsIndexOf bank.now pass.now made.index) }
    ensures told { IfOk result (λ made. made.index.told ≡ length pass.now.seen) }
    ensures batch { IfOk result (λ made. IsRightBatch (origin_of pass.now) pass.now.seen made.batch) }
    ensures job { IfOk result (λ made. made.batch.job ≡ ticket.now.job) }
{
    // The pass has no bytes: contracts alone see what it has seen.
    let _ = pass;
    let index = index.learn(alloc, bank, &ticket.news, ticket.as_of)?;
    let batch = work(alloc, bank, ticket, &index)?;
    Ok(Made { index, batch })
}

/// Does the job on a clause, and brings batches back until one is taken, or is void since its clause has died. After an out-of-memory error the job is given up.
pub(crate) fn work_on<R: Wait>(
    rt: &R,
    alloc: Global,
    lock: &TurnLock<Pool>,
    bank: &Bank,
    pass: Pass<Pool>,
    knowledge: Knowledge,
    ticket: Ticket,
) -> AfterTurn
    requires lock { pass.lock ≡ lock.now }
    requires pass { IsPassOf bank.now pass }
    requires knows { Knows bank.now pass knowledge }
    requires ticket { IsGiven pass knowledge.index.told ticket }
    ensures lock { result.pass.lock ≡ lock.now }
    ensures done { HasDoneClause bank.now pass ticket.job result.pass result.known }
    ensures idle { result.idle ≡ None }
{
    let job = ticket.job;
    let Knowledge { mut index, last } = knowledge;
    let mut pass = pass;
    let mut ticket = ticket;
    'tries: for _ in rt.forever() {
        let Ok(made) = make_batch(alloc, bank, &pass, index, &ticket) else {
            return broken(give_up(rt, lock, bank, pass, job));
        };
        index = made.index;
        let after = bring(rt, alloc, lock, bank, pass, made.batch, index.told());
        pass = after.pass;
        match after.brought {
            Err(_) => return broken(give_up(rt, lock, bank, pass, job)),
            Ok(Brought::Again(next)) => ticket = next,
            Ok(Brought::Done(stands)) => {
                let knowledge = Knowledge { index, last };
                return AfterTurn {
                    pass,
                    known: Ok(Known { knowledge, stands }),
                    idle: None,
                };
            }
        }
    }
    unreachable!()
}

/// Does the solver's job, and brings its answer back. After an out-of-memory error the job is given up.
pub(crate) fn solve<R: Wait>(
    rt: &R,
    alloc: Global,
    lock: &TurnLock<Pool>,
    bank: &Bank,
    pass: Pass<Pool>,
    knowledge: Knowledge,
    ticket: PropTicket,
) -> AfterTurn
    requires lock { pass.lock ≡ lock.now }
    requires pass { IsPassOf bank.now pass }
    requires knows { Knows bank.now pass knowledge }
    requires ticket { IsAsked pass ticket }
    ensures lock { result.pass.lock ≡ lock.now }
    ensures done { HasDoneSolving bank.now pass ticket.job result.pass result.known }
    ensures idle { result.idle ≡ None }
{
    let job = ticket.job;
    let Knowledge { index, last } = knowledge;
    let Ok(Solved { answer, last }) = solve_ticket(alloc, &ticket, last) else {
        return broken(give_up(rt, lock, bank, pass, job));
    };
    let after = solve_back(rt, alloc, lock, bank, pass, ticket, answer);
    match after.stands {
        Ok(stands) => AfterTurn {
            pass: after.pass,
            known: Ok(Known {
                knowledge: Knowledge { index, last },
                stands,
            }),
            idle: None,
        },
        Err(_) => broken(give_up(rt, lock, bank, after.pass, job)),
    }
}

/// The end of a turn whose job was given up, since memory was refused.
pub(crate) fn broken(pass: Pass<Pool>) -> AfterTurn
    ensures pass { result.pass ≡ pass }
    ensures known { result.known ≡ Err (record {}) }
    ensures idle { result.idle ≡ None }
{
    AfterTurn {
        pass,
        known: Err(NoMemory),
        idle: None,
    }
}
