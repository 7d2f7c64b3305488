//! Worked examples of histories: what they amount to, which are lawful and which aren't, and what is carried through them.
//!
//! Each is the contract of a function without arguments, so that the checker computes it. They show that the definitions of `pool_history`
//! say what their sentences say: a reader who doubts one finds here an input, a history, and what comes of it. `specs/Examples.antt` has
//! the inputs, batches and histories, `specs/CarriedExamples.antt` those for what is carried through a history. No crate stands on this
//! one.
//!
//! - `claiming`, `counting`, `components`, `chains`: which clause is given, what a job that is given up leaves, what the limit ends, the
//!   parts of a clause, a log's chains.
//! - `resolving`, `rewriting`, `splitting`, `stale`: whole histories, event by event, with their lines, deaths and outcomes.
//! - `lawful`, `returning`: histories that are lawful, and for each condition one that breaks it.
//! - `reduced`: a law, that what is kept of an inference is reduced.
//! - `saturated`, `carried`: sets that are saturated and that aren't, what is held after a history, and what it finds.
#![tactic(auto)]

pub mod carried;
pub mod chains;
pub mod claiming;
pub mod components;
pub mod counting;
pub mod lawful;
pub mod reduced;
pub mod resolving;
pub mod returning;
pub mod rewriting;
pub mod saturated;
pub mod splitting;
pub mod stale;
