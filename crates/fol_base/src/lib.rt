//! Terms, literals and clauses of first-order logic with equality, and the definitions on which all theorems of the prover rest.
//!
//! **Trees.** A term is a variable or a symbol with arguments, all by number (`term.rt`). A literal is an equation or its negation
//! (`clause.rt`); an atom is an equation whose right side is `$true`, the symbol 0. So one rule of inference serves equations and predicates.
//! Contracts see terms as trees of the logic and never see a vector.
//!
//! **Definitions.** `specs/` has truth in finite interpretations, ground instances, the Knuth-Bendix order, selection, ground inferences and
//! coverage (Bachmair and Ganzinger 1994). They are what a reader of the theorems has to believe, so they are short and have worked examples.
//! The order is by "greater here, or equal here and greater later"; it is no total comparison with variables read as constants (the example
//! `crossed_variables` shows why).
//!
//! **Instances without building them.** `LendsLiterals` and `LendsTerms` (`lending.rt`) are traits of lenders: a clause or a list that
//! lends its literals, a substitution that lends the term of a variable. `instance.rt` answers questions about instances over any lenders:
//! size, equality. So the term bank, a unifier's bindings and plain trees share one body and one contract, and no call copies a term to ask.
//!
//! **Canonical form** (`canonical_form.rt`): variables are numbered by first occurrence, so variants of a clause are equal. `renumbered` keeps a
//! table of the variables that it met; only `canonical` also hands out the renaming, a list as long as the highest variable.
//!
//! **Cost.** Each call is linear in the terms that it walks. Deep terms are walked by recursion, one frame a level.
#![tactic(auto)]

mod asserted;
mod canonical_form;
mod clause;
mod equality;
mod instance;
mod lending;
mod limits;
mod literal_ref;
mod numbering;
mod place;
mod size;
mod substitution;
mod term;
mod variables;

pub use asserted::{are_among, asserted_numbers};
pub use canonical_form::{canonical, is_canonical, renumbered};
pub use clause::{Clause, Clauses, Literal, Literals, Side, push_literal_copies};
pub use equality::{same_clause, same_literals, same_term, same_terms};
pub use instance::{instance_size, is_instance, same_instance};
pub use lending::{LendsLiterals, LendsTerms};
pub use limits::{MOST_BOUND_SYMBOLS, MOST_FORM_SYMBOLS, MOST_SYMBOLS, SIZE_LIMIT};
pub use literal_ref::{LiteralRef, equivalent_literals, same_literal};
pub use place::{Position, argument_at, at, replace_at};
pub use substitution::{Subst, apply, apply_clause, apply_literal};
pub use term::{TRUE_SYMBOL, Term, Terms};
pub use variables::push_variables;

pub mod laws;
