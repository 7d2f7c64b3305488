//! Workers that share one pool: each claims a clause in one turn of the lock, works on it outside of any, and brings the
//! batch back in another one.
//!
//! The head of `given_work` explains the given-clause loop. Here several workers run it side by side on one pool, which stands behind a turn
//! lock (`turn_lock`). A worker has a *pass* of the lock, an index of the known clauses that it was told (`given_work`), and the last model
//! that it gave (`solving.rt`). Nobody else changes these.
//!
//! **A turn of a worker** (`Worker::turn` in `worker.rt`) is one claim, its job, and its return; or a claim after which there is nothing to
//! do yet:
//!
//! - `claim.rt` takes the lock, claims, and gives the lock back. The claim adds one event, which stands at a place of the worker's pass.
//! - `job.rt` does the job while others take their turns: it learns what the ticket tells and makes a batch, or asks the solver.
//! - `back.rt` takes the lock again, brings the batch or the answer back, and asks for the outcome before it gives the lock back. A stale
//!   batch gets a new ticket for the same job, and the worker goes on with it. After an out-of-memory error the job is given up in a turn.
//!
//! **Why a batch is still right when it comes back.** It was made for the history that the worker saw when it claimed. Meanwhile others have
//! added events. A batch stays right through events of other jobs (a law of `pool_history`), and the lock keeps the entries of one key with
//! one pass: the worker's job is its own, as its claim stands at a place of its pass, and no event of that job came that isn't at such a
//! place. So none came since.
//!
//! **The team** (`team.rt`): the lock is made of the pool, its pass is split, the workers run side by side, each until an outcome stands or
//! its memory is refused, and the passes are joined and the lock is closed. Where one worker is out of memory and another reaches an
//! outcome, the pool is given: that an outcome stands is asked of the closed pool.
//!
//! **What is proved.** The events of a turn are one of a few lists (`specs/Turns.antt`), each once and in order at places of the worker's
//! pass. A turn answers false exactly where an outcome stands on the history that the pass has seen, its own return included. A turn that
//! adds nothing and answers true found nothing to solve or give, while jobs were out. `run_team` gives a pool of the same origin, whose history
//! begins with the given one, on which an outcome stands. That a worker progresses or ends is not promised.
#![tactic(auto)]

mod back;
mod claim;
mod gate;
mod job;
pub mod laws;
mod proved;
mod solving;
mod team;
mod worker;

pub use gate::{Gate, NoGate};
pub use proved::{Proved, prove_clauses};
pub use solving::{LastModel, Solved, solve_ticket};
pub use team::{STACK_BYTES, run_team};
pub use worker::{Knowledge, Worker};
