// The solver's job: the clauses over names are given out, and the answer to them is taken. A model puts clauses to sleep and wakes others. A log
// of resolutions becomes lines of the derivation, and refutes.

ghost use Rattle.std.specs.Prelude.{◌≡◌, ◌+◌, ◌≤◌, ◌++◌, [], ◌∷◌, None, Some, length, All, IsTrue, IfOk, IfErr, OnOk, OnErr};
ghost use Rattle.term_bank.specs.declared.bank.Bank.{Bank};
ghost use Rattle.term_bank.specs.declared.table.Table.{Table};
ghost use Rattle.sat_core.specs.declared.answer.Answer.TheVariants.{Model, Refuted};
ghost use Rattle.pool_history.specs.Answers.{IsSolverTicket};
ghost use Rattle.pool_history.specs.Lawful.{IsRightSolution};
ghost use Rattle.pool_history.specs.Record.{PoolRecord, SolverJob};
ghost use Rattle.pool_history.specs.Replay.{replay};
ghost use Rattle.pool_history.specs.Solving.{must_solve, refuted_by};
ghost use Rattle.pool_history.specs.declared.event.Event.TheVariants.{ClaimSolve, ReturnModel, ReturnRefuted};
ghost use Rattle.pool_core.specs.Answered.{HasCitedBelow, TakesLines, event_of};
ghost use Rattle.pool_core.specs.State.{IsProofStateOf};

use crate::chain_lines::chain_steps;
use crate::claiming::one_more;
use crate::pool::{Pool, ProofState, SolverOut};
use plain_types::{Mem, NoMemory};
use pool_history::{Event, Outcome, PropTicket};
use sat_core::{Answer, Chain, Log, Truths};
use std::alloc::Global;

/// A solver's answer that comes back with its ticket, since memory was refused.
#[derive(Drop)]
pub struct ModelNotTaken {
    pub ticket: PropTicket,
    pub answer: Answer,
}

/// For a caller that has no use for the answer, out of memory alone.
impl From<ModelNotTaken> for NoMemory {
    fn from(_: ModelNotTaken) -> NoMemory {
        NoMemory
    }
}

impl Pool {
    /// Whether there are clauses over names that the model isn't of, and no solver has them.
    pub(crate) fn must_solve(&self) -> bool
        ensures { result ≡ must_solve (replay self.now.origin self.now.history) }
    {
        let splits = &self.proof.splits;
        splits.modelled < splits.propositional.len() && self.solver.is_none()
    }

    /// Gives out all clauses over names, with the number of names. After an out-of-memory error the pool is as before.
    pub(crate) fn give_clauses(&mut self, alloc: Global) -> Mem<PropTicket>
        requires open { (replay self.old.origin self.old.history).ended ≡ None }
        requires unsolved { IsTrue (must_solve (replay self.old.origin self.old.history)) }
        ensures bank { self.new.bank ≡ self.old.bank }
        ensures origin { self.new.origin ≡ self.old.origin }
        ensures ticket { IfOk result (IsSolverTicket (replay self.old.origin self.old.history)) }
        ensures history { IfOk result (λ ticket. self.new.history ≡ self.old.history ++ ClaimSolve ticket.job ∷ []) }
        ensures unchanged { OnErr result (self.new ≡ self.old) }
    {
        let job = one_more(self.last_job)?;
        let clauses = self.proof.splits.propositional.copy(alloc)?;
        let names = self.proof.splits.parts.names();
        let more = self.jobs.len() + 2;
        self.history.reserve(more)?;
        self.notes_before.reserve(more)?;
        self.notes_before.push_reserved(self.proof.notes.len());
        self.history.push(&Event::ClaimSolve(job));
        self.solver = Some(SolverOut {
            job,
            clauses: clauses.len(),
            names,
        });
        self.last_job = job;
        Ok(PropTicket {
            job,
            clauses,
            names,
        })
    }

    /// Takes the answer to a ticket of clauses over names that is out. A model is the one that counts from now on; it takes no memory. A
    /// refutation becomes lines, and the pool is refuted, unless it is refuted or spent already. Out of memory is answered only where lines come;
    /// the pool is as before then, and the ticket and the answer come back.
    pub fn give_model(
        &mut self,
        alloc: Global,
        ticket: PropTicket,
        answer: Answer,
    ) -> Result<(), ModelNotTaken>
        requires right { IsRightSolution (replay self.old.origin self.old.history) ticket.job answer }
        ensures bank { self.new.bank ≡ self.old.bank }
        ensures origin { self.new.origin ≡ self.old.origin }
        ensures history { OnOk result (self.new.history ≡ self.old.history ++ event_of ticket.job answer ∷ []) }
        ensures memory { IfErr result (λ _. TakesLines (replay self.old.origin self.old.history) answer) }
        ensures unchanged { OnErr result (self.new ≡ self.old) }
        ensures ticket { IfErr result (λ refused. refused.ticket ≡ ticket) }
        ensures answer { IfErr result (λ refused. refused.answer ≡ answer) }
    {
        match answer {
            Answer::Model(truths) => {
                self.take_model(ticket.job, truths);
                Ok(())
            }
            Answer::Refuted(log) => match self.take_log(alloc, ticket.job, log) {
                Ok(()) => Ok(()),
                Err(log) => Err(ModelNotTaken {
                    ticket,
                    answer: Answer::Refuted(log),
                }),
            },
        }
    }

    /// Takes a model for the solver's job. It takes no memory.
    fn take_model(&mut self, job: u64, truths: Truths)
        requires right { IsRightSolution (replay self.old.origin self.old.history) job (Model truths) }
        ensures bank { self.new.bank ≡ self.old.bank }
        ensures origin { self.new.origin ≡ self.old.origin }
        ensures history { self.new.history ≡ self.old.history ++ ReturnModel job truths ∷ [] }
    {
        let Some(out) = self.solver else {
            unreachable!();
        };
        self.solver = None;
        self.notes_before.push_reserved(self.proof.notes.len());
        let truths = self.history.push_model(job, truths);
        self.proof.take_model(&self.jobs, truths, out.clauses);
    }

    /// Takes a refutation for the solver's job. After an out-of-memory error the pool is as before, and the log comes back.
    fn take_log(&mut self, alloc: Global, job: u64, log: Log) -> Result<(), Log>
        requires right { IsRightSolution (replay self.old.origin self.old.history) job (Refuted log) }
        ensures bank { self.new.bank ≡ self.old.bank }
        ensures origin { self.new.origin ≡ self.old.origin }
        ensures history { OnOk result (self.new.history ≡ self.old.history ++ ReturnRefuted job log ∷ []) }
        ensures open { OnErr result ((replay self.old.origin self.old.history).ended ≡ None) }
        ensures unchanged { OnErr result (self.new ≡ self.old) }
        ensures log { IfErr result (λ refused. refused ≡ log) }
    {
        let Some(out) = self.solver else {
            unreachable!();
        };
        if self
            .proof
            .refute(alloc, out.clauses, log.as_slice())
            .is_err()
        {
            return Err(log);
        }
        self.solver = None;
        self.notes_before.push_reserved(self.proof.notes.len());
        self.history.push(&Event::ReturnRefuted { job, log });
        Ok(())
    }
}

impl ProofState {
    /// The chains of a log over the first `handed` clauses over names become lines, and the pool is refuted, unless it is refuted or spent already.
    fn refute(&mut self, alloc: Global, handed: usize, log: &[Chain]) -> Mem<()>
        requires handed { handed ≤ length self.old.splits.propositional_lines.items }
        requires cited { All (HasCitedBelow (handed + length log.now)) log.now }
        ensures refuted { OnOk result ((bank : Bank) (table : Table) (r : PoolRecord) (s : SolverJob) → s.clauses ≡ handed
            → IsProofStateOf bank table self.old r → IsProofStateOf bank table self.new (refuted_by (Some s) log.now r)) }
        ensures open { OnErr result (self.old.ended ≡ None) }
        ensures unchanged { OnErr result ((self.new.steps.items ≡ self.old.steps.items) × (self.new.ended ≡ self.old.ended)) }
        ensures rest { self.new ≡ record self.old { steps = self.new.steps; ended = self.new.ended } }
    {
        if self.ended.is_some() {
            return Ok(());
        }
        let lines = &self.splits.propositional_lines.as_slice()[..handed];
        let mut steps = chain_steps(alloc, lines, self.steps.len() as u64, log)?;
        self.steps.append(&mut steps)?;
        self.ended = Some(Outcome::Refuted);
        Ok(())
    }
}
