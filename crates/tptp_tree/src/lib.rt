//! Formulas of the TPTP as trees, what it means that tokens spell one, and how formulas are printed.
//!
//! `specs/` has the grammar as a relation without code: a phrase spells a formula. The reader (`tptp_reader`) is proved against it in both
//! directions, and the printer (`print.rt`) in one: the printed text of a formula spells it again, with at most twice as many levels of nesting.
//! So what the program prints of a problem can be read back by itself and others.
//!
//! A formula's file is shared by all formulas of the file (`file_name.rt`). Equality of formulas (`equality.rt`) is what `check` asks of input
//! lines. Some functions go a frame deeper for each level of a formula; levels are limited (`limits.rt`).
#![tactic(auto)]

mod equality;
mod file_name;
mod formula;
pub mod laws;
mod limits;
mod print;
mod problem;
mod role;
mod term;

pub use equality::same_formula;
pub use file_name::FileName;
pub use formula::{Formula, FormulaBox, Formulas};
pub use limits::{MOST_DERIVATION_NESTING, MOST_NESTING, MOST_PRINTED_NESTING, MOST_PROBLEM_SIZE};
pub use print::{is_bare, print_formula, print_formula_name, print_name, push_formula_name};
pub use problem::{Annotated, AnnotatedList, Problem};
pub use role::Role;
pub use term::{TreeTerm, TreeTerms};
