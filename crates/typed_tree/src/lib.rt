//! Monomorphic typed formulas (TFF without arithmetic, Sutcliffe 2017) as trees, and what it means that tokens spell one.
//!
//! A sort is `$i` or a word that a declaration makes one (`sort.rt`); a typed formula is an untyped one whose quantifiers bind variables with
//! sorts (`formula.rt`). `specs/` has the grammar as a relation without code: a phrase spells an entry, which is a type declaration or a
//! typed formula with its name and role. Terms, atoms, names, roles and notes are those of untyped formulas (`tptp_tree`). For each token of
//! a phrase there is a cause for which it is refused, or none; and the answers of reading an entry are told without a machine: the entry, or
//! the first token at which it can't go on, and why.
//!
//! **What is proved.** Tokens begin with at most one entry (`laws.rt`), and the definitions compute on worked examples.
#![tactic(auto)]

mod cause;
mod formula;
pub mod laws;
mod sort;

pub use cause::{TypedCause, TypedFault};
pub use formula::{TypedBox, TypedFormula, TypedFormulas};
pub use sort::{Declaration, Declarations, Sort, Sorts, TypedVar, TypedVars};
