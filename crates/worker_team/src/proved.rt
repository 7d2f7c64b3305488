// A pool from its inputs to its outcome.

ghost use Rattle.std.specs.Prelude.{◌≤◌, map, IfOk};
ghost use Rattle.fol_base.specs.Literal.{clause_of};
ghost use Rattle.pool_history.specs.Inputs.{AreInputs, IsLimit};
ghost use Rattle.worker_team.specs.Proved.{IsProvedFrom};

use crate::gate::Gate;
use crate::team::run_team;
use fol_base::Clauses;
use plain_types::Mem;
use pool_core::{Options, Outcome, Pool};
use pool_history::MOST_WORKERS;
use std::alloc::Global;
use std::sync::Wait;
use std::thread::Threads;
use term_bank::Bank;

/// A pool that has ended, with its outcome and the bank of its terms.
#[derive(Drop)]
pub struct Proved {
    pub outcome: Outcome,
    pub pool: Pool,
    pub bank: Bank,
}

/// Works on a pool of the inputs by several workers until an outcome stands.
pub fn prove_clauses<R: Threads + Wait + Sync, G: Gate + Sync>(
    rt: &R,
    alloc: Global,
    inputs: &Clauses,
    options: Options,
    workers: u32,
    gate: &G,
) -> Mem<Proved>
    requires inputs { AreInputs (map clause_of inputs.now) }
    requires limit { IsLimit options }
    requires workers { (1 ≤ workers) × (workers ≤ MOST_WORKERS) }
    ensures { IfOk result (IsProvedFrom (map clause_of inputs.now) options) }
{
    let (bank, table) = Bank::new(alloc)?;
    let pool = Pool::new(rt, alloc, &bank, table, inputs, options)?;
    let pool = run_team(rt, alloc, pool, &bank, workers, gate)?;
    // The history is lawful, so what follows from it may be relied on.
    let _history = pool.history();
    match pool.outcome() {
        Some(outcome) => Ok(Proved {
            outcome,
            pool,
            bank,
        }),
        None => unreachable!(),
    }
}
