//! Negation normal form, and the sizes that a formula reaches on the way.
//!
//! `nnf` (`normal.rt`) pushes negations to the atoms and writes equivalences out; the result borrows names and terms from the formula.
//! Writing out nested equivalences doubles a formula at each level, so `expanded` (`count.rt`) counts atoms and quantified variables first,
//! and formulas over 1,000,000 are refused by the caller. `clauses.rt` counts the clauses that a formula gives, with the names that large
//! products get, without making them.
//!
//! **What is proved.** Each result is exactly that of the definition in `signature`. Counts stop at the last value of a `u64`.
#![tactic(auto)]

mod clauses;
mod count;
mod form;
pub mod laws;
mod normal;

pub use clauses::{clause_count, is_large};
pub use count::expanded;
pub use form::{Nnf, NnfBox, Nnfs};
pub use normal::{nnf, quantified_form};
