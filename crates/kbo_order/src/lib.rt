//! The Knuth-Bendix order on terms, and its extension to literals and clauses.
//!
//! Two terms are compared in one walk down both side by side, each read under a substitution of its own (`reading.rt`), so that instances
//! are compared without being built. `balance.rt` keeps what was met on the left less what was met on the right: all occurrences, and
//! those of each of 32 variables that follow one another, a *block*; and how many of these stand more often on either side. `walk.rt` has
//! the walk. Where the heads are equal it goes through the arguments; equal arguments leave the balance level, so the walk that finds the
//! first two arguments that differ goes on with the same balance, and at each level above what is left of the arguments is counted. On the
//! way up, the difference of the sizes, the tie from below and the two numbers of variables decide. `terms.rt` makes this walk for the
//! first block, and, where the answer is Greater or Less and variables past the block were met, for the block that begins at the least of
//! these, until none is left; the answer stands only where all blocks give it. `greater.rt` asks one way, block by block: `walk.rt` finds
//! the first difference, and `covering.rt` counts the rest of the left term, and then of the right one up to where it has more.
//!
//! Why that is right: a term is greater exactly where it is greater "for each block", that is, with the variable condition asked for the
//! block's variables alone, at the root and at each level below. The definition by blocks is `specs/Block.antt`; that the blocks together
//! are the order is `proofs/AboutReading/FurtherLemmas.antt`.
//!
//! `sides.rt` decides two literals by the four comparisons of their sides, without a list: of one sign, two equal sides cancel out and the
//! other two decide; a positive literal is above a negative one where each of the latter's sides is below one of its own; a negative one
//! is above a positive one where each of the latter's sides is below one of its own or equal to it. `clauses.rt` counts literals and is
//! the definition of the multiset extension, step by step.
//!
//! The multiset extension of any strict order is a strict order, and a map that keeps sameness and the order keeps its extension: both are
//! proved once, in `proofs/AboutMultisets/MultisetLemmas.antt`, and used for the sides of literals and again for the literals of clauses.
#![tactic(auto)]

mod balance;
mod clauses;
mod cmp;
mod covering;
mod greater;
pub mod laws;
mod limits;
mod literals;
mod reading;
mod sides;
mod terms;
mod walk;

pub use clauses::{compare_clauses, compare_clauses_under};
pub use cmp::Cmp;
pub use greater::{greater_at_equal_sizes, greater_under, is_greater};
pub use limits::COMPARED_SIZE_LIMIT;
pub use literals::{compare_literals, compare_literals_under};
pub use reading::Unbound;
pub use terms::{compare, compare_under};
