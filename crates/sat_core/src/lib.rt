//! The propositional solver: clause learning, with a model or a log of resolutions as its answer.
//!
//! Clauses are learned from conflicts (Marques-Silva and Sakallah 1996) in the way of MiniSat (Eén and Sörensson 2003). `answer.rt` has
//! what goes in and comes out, `clauses.rt` the clauses with the log, over `lists.rt`, where lists stand one after another in one vector
//! (`buffer.rt` has such clauses with room for more, for a caller that takes its memory before),
//! `trail.rt` the literals that are true in the order in which they became so, over `literals.rt`, literals as numbers, and `values.rt`,
//! the values by these, `watches.rt` the propagation, over `copies.rt`, the clauses once more, `marks.rt` and `analysis.rt` the conflicts,
//! `minimise.rt` the smaller clauses, `order.rt` the decisions, `forgetting.rt` which learned clauses are watched, `trimming.rt` the log
//! that is answered, `models.rt` the test of values that are handed in, and `solver.rt` the steps, `solve` and `solve_from`. The clauses that are
//! handed in stand one after another in one list, and are borrowed; values that make all of them true are the answer. A conflict takes no
//! memory of its own but for the copy of what is learned, a vector for itself, and where clauses are forgotten: its room is used again, and
//! what is learned is added at the ends of vectors (the clause, its chain, its watches).
//!
//! Few facts are kept from step to step, and everything else is a hint that is checked where it is used:
//!
//! - *The clauses are derived.* Those after the inputs are, as sets, the clauses of the log's chains over the inputs.
//! - *The trail is one.* Its entries and the slots of the names tell the same: entry i's name has place i + 1. So no name stands twice,
//!   and the trail is no longer than there are names, since as many slots are taken as there are entries.
//! - *Each entry is a decision or implied.* An entry with a reason is a literal of that clause, and the clause's other literals are false
//!   by entries before it.
//! - *The copies are the clauses.* Each is, as a set, the clause with its number, so that what is implied is read from it.
//! - *False values are false.* What is false by the values by literal is so by the slots.
//!
//! A conflict is a clause all of whose literals are false. `analyse` walks the trail backwards from its end: each marked literal is
//! resolved away with the reason of the entry that makes it false. At any time the clause so far is the set of the marked literals whose
//! places are within the bound. The walk stops where the other literals are all below some decision: there the clause implies the opposite
//! of the entry once the decision is taken back. Which entry that is, is told by two hints (the start of the last level and the least
//! marked place above it), and tested by the places themselves. At an entry that is a decision the test always succeeds; where no decision
//! is left, the walk ends with the empty clause.
//!
//! Then the clause is made smaller: a marked literal below the bound is resolved away where the other literals of its reason are all
//! marked, and loses its mark. At any time the clause is the set of the literals in the list of marks that are still marked and whose
//! places are within the bound.
//!
//! The search ends since a number falls with every step: read in base three, the trail has the digit 0 for an implied entry, 1 for a
//! decision and 2 for each place where nothing stands. A new entry lowers a 2, and a turned decision makes a 1 into a 0 whatever comes
//! after it.
//!
//! The log that is answered has the chains alone that its last one needs (`trimming.rt`). What is kept from step to step is that the
//! clause of each marked chain so far is known at its new number.
//!
//! Hints on which no answer rests are the values that are tried first, the lists of the watched literals, the order of a copy's literals,
//! that a literal is true by the values by literal, the heap of names with their activities, the two of the analysis, the order in which
//! literals are resolved away, and which learned clauses are watched. Were they wrong, the solver would be slow, and no answer would be.
#![tactic(auto)]

mod analysis;
mod answer;
mod buffer;
mod clauses;
mod copies;
mod forgetting;
mod lists;
mod literals;
mod marks;
mod minimise;
mod models;
mod order;
mod solver;
mod trail;
mod trimming;
mod values;
mod watches;

pub use answer::{Answer, Chain, Link, Links, Log, PropClauses, Truths, names_are_below};
pub use buffer::PropClauseBuffer;
pub use lists::Lists;
pub use models::{are_true, truths_over};
pub use solver::{solve, solve_from};

pub mod laws;
