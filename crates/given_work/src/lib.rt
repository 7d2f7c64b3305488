//! The work on one given clause, and with it the *given-clause loop* of the prover.
//!
//! **The loop** is DISCOUNT's (Denzinger, Kronenburg and Schulz 1997), which E has too: only *active* clauses take part in inferences and in
//! simplification; a clause that waits does neither. The pool (`pool_core`) holds all clauses and the queue of those that wait; `worker_team` runs
//! the loop. One round of a worker is:
//!
//! 1. **Claim.** The pool picks a waiting clause, the *given clause*: five times of six the lightest, else the oldest. It hands out a ticket
//!    with the clause and the *news*: which clauses were activated and which died since this worker's last claim.
//! 2. **Learn** (`learning.rt`). The worker's index now has exactly the *known clauses*: those that were activated and still live. In the
//!    contracts they are the *told* clauses.
//! 3. **Reduce the given clause** by the known clauses (`going.rt`). Trivial disequations go, equal literals are merged, units rewrite and
//!    cut, until nothing applies; then it may be a tautology, or be subsumed. Where anything applied, the batch is `Gone`: it has the reduced
//!    clause, its lines, and the clauses that justify it, and the round ends with step 6.
//! 4. **Meet** (`inferences.rt`). All inferences of the given clause with itself and with the known clauses of lower positions. So each pair of
//!    clauses meets once, in the job of the one that was activated later. Each conclusion is reduced in the same way and becomes an *entry*
//!    (`entries.rt`): kept with its lines, in parts where splitting is on, dropped with its cause, or `Heavy`, over 4,000 symbols. Simplifying
//!    conclusions before they are stored is forward simplification.
//! 5. **Remove** (`removing.rt`). Known clauses that the given clause subsumes, rewrites or cuts are proposed for removal, each with what
//!    justifies it: backward simplification. Only those are tried in which an instance of its greater side may occur.
//! 6. **Return.** The pool registers what was kept, in order. A removal takes effect if its victim and all its justifiers still live.
//!
//! **Stale batches.** All of steps 2 to 5 happens outside the pool, which may change meanwhile. A batch is right for the moment of its
//! ticket. If the given clause has died since, the batch is void. If it is `Gone` and a justifier has died, it is *stale*, and the worker
//! gets the same job again. Else it is taken.
//!
//! **Hints, and what is proved.** Which clause is picked, in which order the index answers, and which of several simplifications is tried
//! first are free: they decide how fast a proof is found, and no statement rests on them, but for fairness, which is a law of the pool. What
//! `work` owes is a *right batch* (`pool_core`): every inference, each once, with its conclusion or the cause for which it was dropped; lines
//! that derive what is kept; removals that are justified. What each part answers is said for every job for which the clauses are told
//! (`Tells`), so no contract names a history. The laws in `laws.rt` lead from a ticket of a lawful history there and back.
//!
//! **Where things are.** `index.rt` is what a worker holds. `store.rt` keeps the known clauses at places in the order of their positions, the
//! same clauses as partners of superposition (`partners`), and a tree of the terms that occur in them, which `occurring.rt` fills and asks.
//! `sets.rt` keeps them in the sets by which others are simplified. `dropped.rt` drops what is equal to a dropped conclusion by the same
//! cause. `results.rt` splits what is kept. `working.rt` is steps 3 to 5, and `known.rt` lends the known clauses to them.
#![tactic(auto)]

mod dropped;
mod entries;
mod going;
mod index;
mod inferences;
mod known;
pub mod laws;
mod learning;
mod occurring;
mod removing;
mod results;
mod sets;
mod store;
mod working;

pub use index::Index;
pub use working::work;
