// The batches of the tests: each job is worked on by an index of its own, which learns all that its ticket tells.

ghost use Rattle.std.specs.Prelude.{◌≡◌, ◌++◌, [], ◌∷◌, IfOk};
ghost use Rattle.term_bank.specs.Bank.{identity};
ghost use Rattle.pool_history.specs.Answers.{IsAnswerToReturn, IsTicket, IsTicketOf};
ghost use Rattle.pool_history.specs.Inputs.{IsRightBatch};
ghost use Rattle.pool_history.specs.declared.event.Event.TheVariants.{Claim, Return};

use given_work::{Index, work};
use plain_types::Mem;
use pool_core::{Back, Batch, Claimed, Pool, Ticket};
use std::alloc::Global;
use std::process::Abort;
use std::sync::Wait;
use term_bank::Bank;

/// The batch for a ticket. It is right for the job, which is out.
fn batch_of(alloc: Global, bank: &Bank, pool: &Pool, ticket: &Ticket) -> Mem<Batch>
    requires pool { pool.now.bank ≡ identity bank.now }
    requires ticket { IsTicket pool.now.origin pool.now.history 0 ticket.now }
    requires of_bank { IsTicketOf pool.now.bank ticket.now }
    ensures job { IfOk result (λ batch. batch.job ≡ ticket.now.job) }
    ensures right { IfOk result (IsRightBatch pool.now.origin pool.now.history) }
{
    // The history is lawful, so what follows from it may be relied on.
    let _history = pool.history();
    let index = Index::new(alloc, pool.options())?;
    let index = index.learn(alloc, bank, &ticket.news, ticket.as_of)?;
    let batch = work(alloc, bank, ticket, &index)?;
    Ok(batch)
}

/// Claims a clause and works on it.
pub(crate) fn next_batch(rt: &impl Abort, alloc: Global, bank: &Bank, pool: &mut Pool) -> Batch
    requires { pool.old.bank ≡ identity bank.now }
    ensures bank { pool.new.bank ≡ identity bank.now }
    ensures origin { pool.new.origin ≡ pool.old.origin }
    ensures history { pool.new.history ≡ pool.old.history ++ Claim result.job ∷ [] }
    ensures right { IsRightBatch pool.new.origin pool.new.history result }
{
    match pool.claim(alloc, 0).expect(rt, "memory") {
        Claimed::Given(ticket) => batch_of(alloc, bank, pool, &ticket).expect(rt, "memory"),
        _ => panic!(rt; "no clause is given"),
    }
}

/// As above, while the batch of another job is held.
pub(crate) fn next_batch_beside(
    rt: &impl Abort,
    alloc: Global,
    bank: &Bank,
    pool: &mut Pool,
    held: &Batch,
) -> Batch
    requires bank { pool.old.bank ≡ identity bank.now }
    requires held { IsRightBatch pool.old.origin pool.old.history held.now }
    ensures bank { pool.new.bank ≡ identity bank.now }
    ensures held { IsRightBatch pool.new.origin pool.new.history held.now }
    ensures right { IsRightBatch pool.new.origin pool.new.history result }
{
    let batch = next_batch(rt, alloc, bank, pool);
    let is_held = batch.job == held.job;
    if is_held {
        panic!(rt; "the job is held");
    }
    batch
}

/// The answer to a batch.
pub(crate) fn answer<R: Wait + Abort>(
    rt: &R,
    alloc: Global,
    bank: &Bank,
    pool: &mut Pool,
    batch: Batch,
) -> Back
    requires bank { pool.old.bank ≡ identity bank.now }
    requires right { IsRightBatch pool.old.origin pool.old.history batch }
    ensures bank { pool.new.bank ≡ identity bank.now }
    ensures origin { pool.new.origin ≡ pool.old.origin }
    ensures answer { IsAnswerToReturn pool.old.origin pool.old.history 0 batch result pool.new.history }
{
    match pool.give_back(rt, alloc, bank, batch, 0) {
        Ok(back) => back,
        Err(_) => panic!(rt; "memory"),
    }
}

/// Gives a batch back, which is taken.
fn take<R: Wait + Abort>(rt: &R, alloc: Global, bank: &Bank, pool: &mut Pool, batch: Batch)
    requires bank { pool.old.bank ≡ identity bank.now }
    requires right { IsRightBatch pool.old.origin pool.old.history batch }
    ensures bank { pool.new.bank ≡ identity bank.now }
    ensures origin { pool.new.origin ≡ pool.old.origin }
    ensures history { pool.new.history ≡ pool.old.history ++ Return batch ∷ [] }
{
    match answer(rt, alloc, bank, pool, batch) {
        Back::Taken => {}
        _ => panic!(rt; "the batch isn't taken"),
    }
}

/// As above, while the batch of another job is held.
pub(crate) fn take_beside<R: Wait + Abort>(
    rt: &R,
    alloc: Global,
    bank: &Bank,
    pool: &mut Pool,
    batch: Batch,
    held: &Batch,
)
    requires bank { pool.old.bank ≡ identity bank.now }
    requires right { IsRightBatch pool.old.origin pool.old.history batch }
    requires held { IsRightBatch pool.old.origin pool.old.history held.now }
    ensures bank { pool.new.bank ≡ identity bank.now }
    ensures held { IsRightBatch pool.new.origin pool.new.history held.now }
{
    let is_held = batch.job == held.job;
    if is_held {
        panic!(rt; "the job is held");
    }
    take(rt, alloc, bank, pool, batch);
}
