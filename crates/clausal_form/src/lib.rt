//! The clausal form of a problem, and the derivations from it that are accepted.
//!
//! **The form** is that of most provers, with names for what would grow too large (Tseitin 1968; Nonnengart and Weidenbach, Computing Small
//! Clause Normal Forms, 2001). Formula by formula (`form.rt`):
//!
//! 1. The formula is closed, the conjecture is negated, and its negation normal form is made (`closing.rt`, `formula_nnf`).
//! 2. Quantifiers go: `skolem` makes a *matrix*, in which Skolem terms are listed by their arguments and not built.
//! 3. Products that would give large lists of clauses get names: a new predicate stands for the longer list, and the clauses that define it
//!    come after the formula's own (`naming.rt`). Lists are measured and not made (`measure.rt`).
//! 4. The clauses are written one by one, each with its variables renumbered (`writing.rt`).
//!
//! Symbols are numbered by first occurrence; Skolem symbols follow, then naming symbols, then one constant where the problem has none
//! (`symbols.rt`). Their names begin with prefixes with which no name of the problem begins.
//!
//! **Limits** are asked of sizes before terms are built: 1,000,000 atoms once equivalences are written out (`fault.rt`), 4,000 symbols in a
//! clause, 2^28 symbols in all. `heavy.rt` asks the normal form, `skolem` the Skolem terms, `measure.rt` the lists. The first formula that
//! passes a limit is refused, and on it the first limit in this order. `counting.rt` counts all Skolem symbols beforehand, since the numbers
//! of the naming symbols come after them.
//!
//! **What is proved.** `clausal` gives exactly the form of the definition in `signature`, and refuses exactly the formulas over a limit. That a
//! model of the problem extends to one of the form and back is proved in `laws_meaning`. `specs/` also has what an accepted derivation is;
//! `tstp_checker` decides it, and the laws here lead from one to a refutation.
//!
//! **Cost.** Linear in the clauses that are written. Two kinds of formula cost more: above 2^28 symbols the variables of every literal are
//! sorted to tell which limit was passed, and parts that yield no clause (`$true | ..`) are expanded though nothing of them is written.
#![tactic(auto)]

mod arguments;
mod closing;
mod counting;
mod fault;
mod finished;
mod form;
mod formula;
mod heavy;
pub mod laws;
mod measure;
mod naming;
mod problem;
mod symbols;
mod writing;

pub use fault::{FormCause, FormFault, MOST_EXPANDED};
pub use finished::Clausal;
pub use problem::clausal;
