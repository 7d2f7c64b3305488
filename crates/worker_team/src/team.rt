// A team of workers on one pool, each in a thread of its own.
//
// The first worker runs in the thread of the caller, and each other in one whose stack is as large as that in which the program runs a command: what
// the system would give it otherwise is often too small for a clause of thousands of symbols. Where the system has no thread for it, a worker takes
// its turns before those that haven't begun yet.

ghost use Rattle.std.specs.Prelude.{◌≡◌, ◌+◌, ◌≤◌, List, Option, All, IfOk, IsSome, length};
ghost use mathlib.Core.List.{IsPrefix};
ghost use Rattle.term_bank.specs.Bank.{identity};
ghost use Rattle.term_bank.specs.declared.bank.Bank.{Bank};
ghost use Rattle.pool_history.specs.declared.event.Event.{Event};
ghost use Rattle.pool_history.specs.Outcomes.{outcome_of};
ghost use Rattle.pool_history.specs.Replay.{replay};
ghost use Rattle.pool_history.specs.View.{PoolView};
ghost use Rattle.turn_lock.specs.Shown.{TableId};
ghost use Rattle.worker_team.specs.declared.worker.Worker.{Worker};
ghost use Rattle.worker_team.specs.Workers.{IsReady};
ghost use Rattle.worker_team.specs.Passes.{IsPassOf, origin_of};
ghost use Rattle.worker_team.specs.Team.{HaveRun, IsBegun, IsOfTeam, IsReadyInTeam, IsRun};

use crate::gate::Gate;
use crate::worker::Worker;
use core::thread::Stack;
use plain_types::{Mem, NoMemory};
use pool_core::{Options, Pool};
use pool_history::MOST_WORKERS;
use std::alloc::Global;
use std::snapshot::Snapshot;
use std::sync::Wait;
use std::thread;
use std::thread::{Promise, PromisedHandle, Scope, Threads};
use term_bank::Bank;
use turn_lock::{Pass, TurnLock};

/// The stack of a thread in which a command or a worker runs, in bytes. Of what the limits allow, the reading of a derivation whose terms are nested
/// 5,000 deep needs most: 8 MiB at -O3 and 29 MiB at -O0.
pub const STACK_BYTES: usize = 64 << 20;

/// Works on a pool by several workers until an outcome stands. The pool that comes began as the given one, and its history begins with that of
/// the given one. Out of memory is told where no worker reached an outcome.
pub fn run_team<R: Threads + Wait + Sync, G: Gate + Sync>(
    rt: &R,
    alloc: Global,
    pool: Pool,
    bank: &Bank,
    workers: u32,
    gate: &G,
) -> Mem<Pool>
    requires bank { pool.bank ≡ identity bank.now }
    requires workers { (1 ≤ workers) × (workers ≤ MOST_WORKERS) }
    ensures same { IfOk result (λ ended. (ended.bank ≡ pool.bank) × (ended.origin ≡ pool.origin)) }
    ensures begins { IfOk result (λ ended. IsPrefix pool.history ended.history) }
    ensures outcome { IfOk result (λ ended. IsSome (outcome_of (replay ended.origin ended.history))) }
{
    let options = pool.options();
    // The history is lawful, so what follows from it may be relied on.
    let _history = pool.history();
    let (lock, pass) = TurnLock::new(alloc, pool)?;
    let (pass, team) = hire(alloc, &lock, pass, options, workers)?;
    let team = work_apart(rt, alloc, &lock, bank, gate, team)?;
    let pass = join_all(&lock, pass, team);
    let pool = lock.close(pass);
    match pool.outcome() {
        Some(_) => Ok(pool),
        None => {
            drop(pool);
            Err(NoMemory)
        }
    }
}

/// A team, and the pass that is left.
fn hire(
    alloc: Global,
    lock: &TurnLock<Pool>,
    pass: Pass<Pool>,
    options: Options,
    workers: u32,
) -> Mem<(Pass<Pool>, Vec<Worker>)>
    requires lock { pass.lock ≡ lock.now }
    requires shares { pass.shares ≡ 1024 }
    requires workers { workers ≤ MOST_WORKERS }
    ensures count { IfOk result (λ hired. length hired.1.items ≡ workers) }
    ensures lock { IfOk result (λ hired. hired.0.lock ≡ lock.now) }
    ensures shares { IfOk result (λ hired. hired.0.shares + length hired.1.items ≡ 1024) }
    ensures start { IfOk result (λ hired. hired.0.start ≡ pass.start) }
    ensures origin { IfOk result (λ hired. hired.0.origin ≡ pass.origin) }
    ensures ready { IfOk result (λ hired. (bank : Bank) → IsPassOf bank pass → options ≡ (origin_of pass).options
        → All (IsReadyInTeam lock.now bank pass.origin pass.start) hired.1.items) }
{
    let mut pass = pass;
    let mut team = Vec::with_capacity(alloc, workers as usize)?;
    for number in 0..workers {
        let (rest, own) = lock.split_pass(pass, 1);
        pass = rest;
        match Worker::new(alloc, own, number, options) {
            Ok(worker) => team.push(worker)?,
            Err(_) => return Err(NoMemory),
        }
    }
    Ok((pass, team))
}

/// The promise of a worker's thread: the worker that comes back is the one that began, after all its turns.
#[derive(Drop)]
struct HasRun<'a> {
    lock: &'a TurnLock<Pool>,
    bank: &'a Bank,
    began: Snapshot<Worker>,
}

impl<'a> Promise<Worker> for HasRun<'a> {
    ghost kept_by = { λ promise worker. IsRun promise.lock.now promise.bank.now promise.began.value worker };
}

/// All workers at once, each until it ends, in their order.
fn work_apart<R: Threads + Wait + Sync, G: Gate + Sync>(
    rt: &R,
    alloc: Global,
    lock: &TurnLock<Pool>,
    bank: &Bank,
    gate: &G,
    team: Vec<Worker>,
) -> Mem<Vec<Worker>>
    requires ready { All (IsReady lock.now bank.now) team.items }
    ensures ended { IfOk result (λ ended. HaveRun lock.now bank.now team.items ended.items) }
{
    thread::scope(
        thread::scope_env(),
        rt,
        move |scope| -> Mem<Vec<Worker>>
            requires { All (IsReady lock.now bank.now) team.items }
            ensures { IfOk result (λ ended. HaveRun lock.entry.now bank.entry.now team.items ended.items) }
        { work(scope, rt, alloc, lock, bank, gate, team) },
    )
}

/// A worker that takes its turns in a thread of its own, or that has taken them in this one.
#[derive(Drop)]
enum Begun<'a> {
    Apart(PromisedHandle<Worker, HasRun<'a>>),
    Ended(Worker),
}

impl<'a> Begun<'a> {
    /// The worker after all its turns.
    fn ended<R: Threads>(self, rt: &R) -> Worker
        ensures { (lock : TableId) (bank : Bank) (old : Worker) → IsBegun lock bank old self.entry → IsRun lock bank old result }
    {
        match self {
            Begun::Apart(handle) => handle.join(rt),
            Begun::Ended(worker) => worker,
        }
    }
}

/// A worker begins in a thread with a stack of its own. Where the system has no thread for it, it takes its turns here.
fn begin<'s, E, R: Threads + Wait + Sync, G: Gate + Sync>(
    scope: &Scope<'s, E>,
    rt: &'s R,
    alloc: Global,
    lock: &'s TurnLock<Pool>,
    bank: &'s Bank,
    gate: &'s G,
    worker: Worker,
) -> Begun<'s>
    requires ready { IsReady lock.now bank.now worker }
    ensures { IsBegun lock.now bank.now worker result }
{
    let promise = HasRun {
        lock,
        bank,
        began: Snapshot::of(&worker),
    };
    let turns = move || -> Worker
        requires { IsReady lock.now bank.now worker }
        ensures { IsRun lock.entry.now bank.entry.now worker result }
    {
        let mut worker = worker;
        worker.run(rt, alloc, lock, bank, gate);
        worker
    };
    let stack = Stack::new().stack_size(STACK_BYTES);
    match stack.spawn_scoped_with(scope, promise, turns) {
        Ok(handle) => Begun::Apart(handle),
        Err(refused) => Begun::Ended((refused.value)()),
    }
}

/// The last worker begins in a thread of its own, then those before it, and the first runs in this one.
#[cycle(work)]
fn work<'s, E, R: Threads + Wait + Sync, G: Gate + Sync>(
    scope: &Scope<'s, E>,
    rt: &'s R,
    alloc: Global,
    lock: &'s TurnLock<Pool>,
    bank: &'s Bank,
    gate: &'s G,
    team: Vec<Worker>,
) -> Mem<Vec<Worker>>
    requires ready { All (IsReady lock.now bank.now) team.items }
    ensures ended { IfOk result (λ ended. HaveRun lock.now bank.now team.items ended.items) }
{
    let mut team = team;
    let Some(mut worker) = team.pop() else {
        return Ok(team);
    };
    if team.is_empty() {
        worker.run(rt, alloc, lock, bank, gate);
        team.push(worker)?;
        return Ok(team);
    }
    let begun = begin(scope, rt, alloc, lock, bank, gate, worker);
    let mut ended = work(scope, rt, alloc, lock, bank, gate, team)?;
    ended.push(begun.ended(rt))?;
    Ok(ended)
}

/// The pass takes in those of the team.
fn join_all(lock: &TurnLock<Pool>, pass: Pass<Pool>, team: Vec<Worker>) -> Pass<Pool>
    requires lock { pass.lock ≡ lock.now }
    requires team { (bank : Bank) × All (IsOfTeam lock.now bank pass.origin pass.start) team.items }
    ensures lock { result.lock ≡ lock.now }
    ensures shares { result.shares ≡ pass.shares + length team.items }
    ensures start { result.start ≡ pass.start }
    ensures origin { result.origin ≡ pass.origin }
{
    let mut pass = pass;
    for worker in team {
        let Worker { pass: own, .. } = worker;
        if let Some(other) = own {
            pass = lock.join_pass(pass, other);
        }
    }
    pass
}
