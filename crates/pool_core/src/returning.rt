// Returns of batches.

ghost use Rattle.std.specs.Prelude.{◌≡◌, ◌<◌, ◌≤◌, ◌++◌, [], ◌∷◌, Some, length, IfOk, IfErr, OnOk, OnErr, IsTrue};
ghost use Rattle.term_bank.specs.Bank.{identity};
ghost use Rattle.pool_history.specs.Answers.{IsAnswerToReturn, IsTicket, IsTicketOf, IsBackOf, TakesMemory, dead_justifier, death_of};
ghost use Rattle.pool_history.specs.Inputs.{IsRightBatch};
ghost use Rattle.pool_history.specs.Lawful.{IsGivenOut};
ghost use Rattle.pool_core.specs.Noted.{IsTicketAgain};
ghost use Rattle.pool_history.specs.Record.{is_dead, lives};
ghost use Rattle.pool_history.specs.Replay.{replay};
ghost use Rattle.pool_history.specs.declared.event.Event.TheVariants.{Stale, Void};

use crate::claiming::one_more;
use crate::pool::{OutJob, Pool};
use plain_types::{Mem, NoMemory};
use pool_history::{Back, Batch, Event, Ticket, Work};
use std::alloc::Global;
use std::sync::Wait;
use term_bank::Bank;

/// A batch that comes back, since memory was refused.
#[derive(Drop)]
pub struct NotTaken {
    pub batch: Batch,
}

/// For a caller that has no use for the batch, out of memory alone.
impl From<NotTaken> for NoMemory {
    fn from(_: NotTaken) -> NoMemory {
        NoMemory
    }
}

impl Pool {
    /// The answer to the batch of a job that is out, of a caller that knows the activations and deaths of the first `told` events: the given
    /// clause has died; or it lives, but a clause that justifies that it goes has died; or the batch is taken. Out of memory is answered only where
    /// something is to be told or registered; the pool is as before then, and the batch comes back.
    pub fn give_back<R: Wait>(
        &mut self,
        rt: &R,
        alloc: Global,
        bank: &Bank,
        batch: Batch,
        told: u64,
    ) -> Result<Back, NotTaken>
        requires bank { self.old.bank ≡ identity bank.now }
        requires told { told ≤ length self.old.history }
        requires right { IsRightBatch self.old.origin self.old.history batch }
        ensures bank { self.new.bank ≡ self.old.bank }
        ensures origin { self.new.origin ≡ self.old.origin }
        ensures answer { IfOk result (λ back. IsAnswerToReturn self.old.origin self.old.history told batch back self.new.history) }
        ensures of_bank { IfOk result (IsBackOf self.old.bank) }
        ensures memory { IfErr result (λ _. TakesMemory (replay self.old.origin self.old.history) batch) }
        ensures unchanged { OnErr result (self.new ≡ self.old) }
        ensures batch { IfErr result (λ refused. refused.batch ≡ batch) }
    {
        let out = self.out_job(batch.job);
        if let Some(event) = self.death(out.number) {
            self.dismiss(batch.job);
            return Ok(Back::Void(event));
        }
        let Some(justifier) = self.dead_justifier(&batch.work) else {
            self.take(rt, alloc, bank, out.number, batch)?;
            return Ok(Back::Taken);
        };
        let Some(event) = self.death(justifier) else {
            unreachable!();
        };
        let ticket = self.turn_down(alloc, &batch, out, justifier, told);
        match ticket {
            Ok(ticket) => Ok(Back::Stale {
                justifier,
                event,
                ticket,
            }),
            Err(_) => Err(NotTaken { batch }),
        }
    }

    /// The given clause of a job that is out, and with how many entries its batch may stop.
    fn out_job(&self, job: u64) -> OutJob
        requires { IsGivenOut (replay self.now.origin self.now.history) job (λ j. Unit {0}) }
        ensures { let r = replay self.now.origin self.now.history in
            IsGivenOut r job (λ j. (j.number ≡ result.number) × (j.left ≡ result.left) × (result.number < length r.registered)) }
    {
        let Some(out) = self.jobs.get(&job) else {
            unreachable!();
        };
        *out
    }

    /// The place of the event in which the clause of a number died.
    fn death(&self, number: u32) -> Option<u64>
        ensures { result ≡ death_of (replay self.now.origin self.now.history) number }
    {
        self.proof.register.death(u64::from(number))
    }

    /// The first dead one of the clauses that justify that the given clause goes.
    fn dead_justifier(&self, work: &Work) -> Option<u32>
        ensures { result ≡ dead_justifier (replay self.now.origin self.now.history) work.now }
    {
        match work {
            Work::Gone(removal) => {
                let register = &self.proof.register;
                match register.first_dead(removal.justifiers.as_slice()) {
                    Some(number) => Some(number as u32),
                    None => None,
                }
            }
            Work::Met { .. } => None,
        }
    }

    /// A job on a clause that has died is no longer out.
    fn dismiss(&mut self, job: u64)
        requires { let r = replay self.old.origin self.old.history in IsGivenOut r job (λ j. IsTrue (is_dead r j.number)) }
        ensures bank { self.new.bank ≡ self.old.bank }
        ensures origin { self.new.origin ≡ self.old.origin }
        ensures history { self.new.history ≡ self.old.history ++ Void job ∷ [] }
    {
        self.jobs.remove(&job);
        self.notes_before.push_reserved(self.proof.notes.len());
        self.history.push(&Event::Void(job));
    }

    /// A job whose batch is refused, since a justifier has died, stays out, and is told anew. After an out-of-memory error the pool is as before.
    fn turn_down(
        &mut self,
        alloc: Global,
        batch: &Batch,
        out: OutJob,
        justifier: u32,
        told: u64,
    ) -> Mem<Ticket>
        requires told { told ≤ length self.old.history }
        requires right { IsRightBatch self.old.origin self.old.history batch.now }
        requires out { IsGivenOut (replay self.old.origin self.old.history) batch.now.job (λ j. (j.number ≡ out.number) × (j.left ≡ out.left)) }
        requires living { IsTrue (lives (replay self.old.origin self.old.history) out.number) }
        requires dead { dead_justifier (replay self.old.origin self.old.history) batch.now.work ≡ Some justifier }
        ensures bank { self.new.bank ≡ self.old.bank }
        ensures origin { self.new.origin ≡ self.old.origin }
        ensures history { OnOk result (self.new.history ≡ self.old.history ++ Stale batch.now.job justifier ∷ []) }
        ensures ticket { IfOk result (IsTicket self.old.origin self.new.history told) }
        ensures job { IfOk result (λ ticket. ticket.job ≡ batch.now.job) }
        ensures of_bank { IfOk result (IsTicketOf self.old.bank) }
        ensures unchanged { OnErr result (self.new ≡ self.old) }
    {
        let ticket = self.ticket_again(alloc, batch.job, out, told)?;
        let more = self.jobs.len() + 2;
        self.history.reserve(more)?;
        self.notes_before.reserve(more)?;
        self.notes_before.push_reserved(self.proof.notes.len());
        self.history.push(&Event::Stale {
            job: batch.job,
            justifier,
        });
        Ok(ticket)
    }

    /// The ticket of a job that is out, as it is told anew.
    fn ticket_again(&self, alloc: Global, job: u64, out: OutJob, told: u64) -> Mem<Ticket>
        requires told { told ≤ length self.now.history }
        requires out { IsGivenOut (replay self.now.origin self.now.history) job (λ j. (j.number ≡ out.number) × (j.left ≡ out.left)) }
        ensures again { IfOk result (λ ticket.
            IsGivenOut (replay self.now.origin self.now.history) job (λ j. IsTicketAgain self.now.origin self.now.history told job j ticket)) }
        ensures of_bank { IfOk result (IsTicketOf self.now.bank) }
    {
        let registration = self.proof.register.get(out.number as usize);
        let Some(position) = registration.position else {
            unreachable!();
        };
        let as_of = one_more(self.history.len())?;
        let clause = registration.clause.copied()?;
        let news = self.news(alloc, told as usize)?;
        Ok(Ticket {
            job,
            number: out.number,
            position,
            clause,
            news,
            left: out.left,
            as_of,
        })
    }
}
