//! Rules that take a literal away: trivial disequations, equal literals, and literals that a unit contradicts; and tautologies.
//!
//! **The rules.** Each makes the clause shorter.
//!
//! - *Trivial disequation* (`dropping.rt`): a literal `t != t` is false and goes, by one line of equality resolution.
//! - *Equal literals* (`dropping.rt`): the later of two literals that are equal up to exchanged sides goes, by one line of merging.
//! - *Unit cutting* (`cutting.rt`): a literal whose complement is an instance of a unit's literal goes. E calls this simplify-reflect, and for
//!   a unit that is no equation it is unit resolution by a match (Schulz 2002). Only the unit is instantiated, so the clause loses a literal
//!   and nothing else changes.
//!
//! `tautology.rt` tells clauses that need not be kept at all: they have a literal `t = t`, or a literal and its complement.
//!
//! **How a cut becomes kernel steps.** The calculus has no cut, so a cut is two lines (`cut_lines.rt`). A superposition at the root replaces
//! a side of the negative literal by a side of the positive one, which gives a trivial disequation; equality resolution deletes that. If the
//! unit is the positive one, the disequation stays in the place of the cut literal; otherwise it comes first (`superposing.rt`).
//!
//! **The set of units.** `UnitIndex` (`index.rt`) keeps units of either sign in a map by their numbers. Their left sides stand in a
//! discrimination tree. The candidates for a literal are the generalisations of its left side and of its right side; `cut_search.rt` matches the
//! candidates of the other sign. Two queries find every unit, since a unit that fits with exchanged sides has its left side over the
//! literal's right one. Candidates of the same sign subsume the clause where they match (`subsuming.rt`). `members.rt` asks the other way
//! round, which clauses of a list one new unit cuts, for backward simplification.
//!
//! **Assertions.** A unit that holds only under components of a split may cut only clauses that hold under them too (`asserted.rt`).
//!
//! **What is proved.** Each call makes its step where one exists, and answers that there is none exactly where the definition has none;
//! `subsumer` gives a unit that subsumes, and none exactly where no unit does. The step is a move of the calculus and its lines are right, so
//! the record of `reduced_clause` keeps its invariant. The set's invariant says that the tree holds the left side of every unit; what it
//! holds besides is checked at each use. After out of memory the reduced clause is as before, since both lines are made before either is
//! added.
//!
//! **Hints.** Which unit is found first decides only which of two right results is made, or which of two subsumers is named.
//!
//! **Cost.** Trivial disequations take one comparison of terms a literal, equal literals one for each pair. A cut takes two queries of the
//! tree for each literal, and a match for each candidate of the other sign; terms are built only for a literal that goes.
#![tactic(auto)]

mod asserted;
mod cut_lines;
mod cut_search;
mod cutting;
mod dropping;
mod index;
pub mod laws;
mod matching;
mod members;
mod removing;
mod subsuming;
mod superposing;
mod tautology;

pub use cutting::{cut_by, cut_unit, cuts};
pub use dropping::{drop_trivial, merge_equal};
pub use index::{UnitIndex, has_one_literal};
pub use members::cuttable;
pub use tautology::is_tautology;
