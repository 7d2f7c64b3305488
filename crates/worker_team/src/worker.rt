// A worker: its pass of the lock, and what it knows of the pool; and its turns.

ghost use Rattle.std.specs.Prelude.{◌≡◌, Ok, Some, IfOk, IfErr};
ghost use Rattle.term_bank.specs.declared.bank.Bank.{Bank};
ghost use Rattle.worker_team.specs.Passes.{IsPassOf, origin_of};
ghost use Rattle.worker_team.specs.Team.{HasEndedTurn, HasTakenTurn, IsIdleAt, IsRun};
ghost use Rattle.worker_team.specs.Workers.{IsReady, Knows};

use crate::claim::claim;
use crate::gate::Gate;
use crate::job::{AfterTurn, Known, broken, solve, work_on};
use crate::solving::LastModel;
use given_work::Index;
use plain_types::Mem;
use pool_core::{Claimed, Options, Pool};
use std::alloc::Global;
use std::sync::Wait;
use term_bank::Bank;
use turn_lock::{Pass, TurnLock};

/// What a worker knows of the pool.
#[derive(Drop)]
pub struct Knowledge {
    /// The known clauses.
    pub index: Index,
    /// The last model that the worker gave, or that of no clauses.
    pub last: LastModel,
}

/// A worker. Between its turns its pass is here.
#[derive(Drop)]
pub struct Worker {
    /// Its number, which is told to the gate alone.
    pub number: u32,
    pub pass: Option<Pass<Pool>>,
    /// None after an out-of-memory error: then it takes no more turns.
    pub known: Option<Knowledge>,
    /// Where nothing was to be done in its last turn but to wait: how many events the history had then.
    pub idle: Option<u64>,
}

/// A pass that comes back, since memory was refused.
#[derive(Drop)]
pub struct NotHired {
    pub pass: Pass<Pool>,
}

impl Worker {
    /// A worker of that number, which was told nothing yet. After an out-of-memory error the pass comes back.
    pub fn new(
        alloc: Global,
        pass: Pass<Pool>,
        number: u32,
        options: Options,
    ) -> Result<Worker, NotHired>
        ensures ready { (bank : Bank) → IsPassOf bank pass → options ≡ (origin_of pass).options → IfOk result (IsReady pass.lock bank) }
        ensures pass { IfOk result (λ worker. worker.pass ≡ Some pass) }
        ensures refused { IfErr result (λ refused. refused.pass ≡ pass) }
    {
        let Ok(index) = Index::new(alloc, options) else {
            return Err(NotHired { pass });
        };
        let last = LastModel::new(alloc);
        Ok(Worker {
            number,
            pass: Some(pass),
            known: Some(Knowledge { index, last }),
            idle: None,
        })
    }

    /// One claim, its job, and its return; or a claim after which nothing is to be done yet. False is answered exactly where an outcome stands on
    /// the history that the pass has seen, the return included. After an out-of-memory error the job, where there was one, was given up, and
    /// the worker takes no more turns. It may wait for the lock.
    pub fn turn<R: Wait, G: Gate + Sync>(
        &mut self,
        rt: &R,
        alloc: Global,
        lock: &TurnLock<Pool>,
        bank: &Bank,
        gate: &G,
    ) -> Mem<bool>
        requires ready { IsReady lock.now bank.now self.old }
        ensures taken { HasTakenTurn lock.now bank.now self.old self.new result }
    {
        let (Some(pass), Some(knowledge)) = (self.pass.take(), self.known.take()) else {
            unreachable!();
        };
        let after = take_turn(rt, alloc, lock, bank, gate, self.number, pass, knowledge);
        self.pass = Some(after.pass);
        self.idle = after.idle;
        let Known { knowledge, stands } = after.known?;
        self.known = Some(knowledge);
        Ok(!stands)
    }

    /// Takes turns until an outcome stands or memory is refused. After a turn in which nothing was to be done it waits until there are more
    /// events, and leaves the lock to those that bring them.
    pub(crate) fn run<R: Wait, G: Gate + Sync>(
        &mut self,
        rt: &R,
        alloc: Global,
        lock: &TurnLock<Pool>,
        bank: &Bank,
        gate: &G,
    )
        requires ready { IsReady lock.now bank.now self.old }
        ensures run { IsRun lock.now bank.now self.old self.new }
    {
        'turns: for _ in rt.forever() {
            let Ok(true) = self.turn(rt, alloc, lock, bank, gate) else {
                return;
            };
            if let Some(length) = self.idle {
                lock.wait_past(rt, length);
            }
        }
        unreachable!()
    }
}

/// A turn with a pass and what is known.
fn take_turn<R: Wait, G: Gate + Sync>(
    rt: &R,
    alloc: Global,
    lock: &TurnLock<Pool>,
    bank: &Bank,
    gate: &G,
    number: u32,
    pass: Pass<Pool>,
    knowledge: Knowledge,
) -> AfterTurn
    requires lock { pass.lock ≡ lock.now }
    requires pass { IsPassOf bank.now pass }
    requires knows { Knows bank.now pass knowledge }
    ensures lock { result.pass.lock ≡ lock.now }
    ensures ended { HasEndedTurn bank.now pass result.pass result.known }
    ensures idle { IsIdleAt result.pass result.idle }
{
    let after = claim(rt, alloc, lock, pass, bank, knowledge.index.told());
    let pass = after.pass;
    match after.claimed {
        Ok(Claimed::Given(ticket)) => {
            gate.pass(number, ticket.job);
            work_on(rt, alloc, lock, bank, pass, knowledge, ticket)
        }
        Ok(Claimed::Solve(ticket)) => {
            gate.pass(number, ticket.job);
            solve(rt, alloc, lock, bank, pass, knowledge, ticket)
        }
        Ok(Claimed::Idle(_)) => rests(pass, knowledge, false, Some(after.length)),
        Ok(Claimed::Ended(_)) => rests(pass, knowledge, true, None),
        Err(_) => broken(pass),
    }
}

/// The end of a turn without a job.
fn rests(pass: Pass<Pool>, knowledge: Knowledge, stands: bool, idle: Option<u64>) -> AfterTurn
    ensures pass { result.pass ≡ pass }
    ensures known { result.known ≡ Ok (record { knowledge = knowledge; stands = stands }) }
    ensures idle { result.idle ≡ idle }
{
    AfterTurn {
        pass,
        known: Ok(Known { knowledge, stands }),
        idle,
    }
}
