//! The meaning of the history of a pool of clauses: events, the record that they amount to, lawful histories, and the laws of these.
//!
//! The pool is the one state that all workers of the prover share. A worker claims a clause, works on it outside the pool, and returns a
//! batch. Any number of jobs may be out at once, and what two workers return may clash: each removes the clause by which the other went.
//! So the theorems aren't about the pool's code. They are about *histories*, lists of events, and hold of every list of events that the
//! rules allow, whichever workers took part and in whatever order they came. The crate has no body to prove but these laws. `pool_core`
//! keeps a history and shows that each call appends the events that it may and answers what the history says.
//!
//! **Events.** There are eight (`event.rt`): a clause or the propositional clauses are given out, a batch, a model or a refutation comes
//! back, a batch is turned down since the given clause (`Void`) or a clause by which it goes (`Stale`) has died, and a job is given up.
//!
//! **Record and replay.** A record (`specs/Record.antt`) is what the events so far amount to, in plain lists: the registered clauses in
//! the order of their numbers, the lines of the derivation, positions, deaths with what justified them, jobs that are out with what they
//! were told, the counted list, and what is kept for splitting. `replay` (`specs/Replay.antt`) folds the events from the first on, and
//! each event has one definition that says what it changes. It is defined for every list of events, and many laws need no more than that.
//!
//! **Lawful histories.** `IsLawful` (`specs/Lawful.antt`) says that each event was allowed after those before it, and that what came
//! back was right: a *right batch* (`specs/Batches.antt`) has an entry for every inference of the given clause with what it was told,
//! each result was reached by kernel steps and can't be reduced further, and each removal names the clauses that justify it. Whether the
//! batch was made in this way or another isn't asked.
//!
//! **What is proved** of every lawful history, in `laws`:
//!
//! - Jobs have the numbers 1, 2, 3 and so on. A job stays out until an event ends it, and never comes back. It knows what was told at the
//!   event that it names, and a batch that is right for it stays right through events of other jobs. No clause has two jobs at once, and
//!   none that is active has one.
//! - A clause that stays awake and alive, with m older ones, is claimed within 6(m + 1) claims, unless jobs are given up.
//! - A clause keeps its number and its line, and a dead one stays dead. A tag stands for one part. No two living clauses are equal.
//! - A clause dies once, by the removal of a batch, and by other clauses that lived then. So what was found redundant stays redundant,
//!   whatever dies later.
//! - No inference is counted twice. What is counted is an inference of registered clauses, or a clause that died with a reduced result in
//!   its place, and each of the latter is counted.
//! - Once an outcome stands it stays. `Spent` tells the length of the counted list. No event follows an outcome that comes by rest. Once the
//!   pool is refuted or spent, nothing is registered or counted and no clause dies.
//! - Whether clauses are split or not, registered clauses are whole and small and assert parts that were met, the lines are a derivation
//!   from the inputs, and those of a refuted pool a refutation. Each registered clause has a line that says the same. None but the one that
//!   refutes is empty.
//! - Where splitting is on, no registered clause falls into two parts, and component lines introduce the names 0, 1, 2 and so on, each
//!   once. Propositional clauses are only added. Each has a line, and its names are of parts that were met. The model of a pool at rest makes
//!   all of them true.
//! - The chains of the propositional solver's logs are steps of resolution on names.
//!
//! That an outcome `Saturated` names a saturated set (Bachmair and Ganzinger 1994) is proved on these laws, in a crate of its own. Worked
//! histories, lawful and unlawful, stand in `laws_pool_examples`.
//!
//! **Cost.** None at run time: the types are those of the pool's answers, and everything else is a definition or a proof.
#![tactic(auto)]

mod batch;
mod event;
mod options;
mod outcome;
mod ticket;

pub use batch::{Batch, Entry, Fate, MetEntries, Redundancy, Removal, Removals, Work};
pub use event::Event;
pub use options::{MOST_WORKERS, Options};
pub use outcome::Outcome;
pub use ticket::{Back, Change, Claimed, News, PropTicket, Ticket};

pub mod laws;
