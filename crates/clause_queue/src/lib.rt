//! The queue of waiting clauses, from which the lightest or the oldest is picked.
//!
//! `choice.rt` has the two choices, by weight and by age, and `tree.rt` the search tree: a `Tree` is one place of it, seen as its pairs in
//! the order of the numbers; a `Node` has an entry, the number at which it divides the numbers below, and two places. `queue.rt` is the
//! queue over it with its spare nodes. The tree's functions are stated by putting a pair into a list: a put gives the old list with the
//! pair, and a take gives a node whose pair, put back, would give the old list. From that and from the rising numbers the queue's clauses
//! follow.
#![tactic(auto)]

mod choice;
pub mod laws;
mod queue;
mod tree;

pub use choice::Choice;
pub use queue::Queue;
