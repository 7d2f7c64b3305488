//! The faults of sorts and types in a typed problem: the first of them in reading order.
//!
//! The entries of a problem are lent (`lent.rt`): what each says, and the places of its words and variables. A table has the words that they declare
//! (`table.rt`). For each entry the causes of its places are written one after another (`declarations.rt`, `terms.rt`, `formulas.rt`), with the
//! variables in force (`scope.rt`), and the first cause is the fault (`faults.rt`).
//!
//! `repeats.rt` tells which declarations repeat an earlier one's word.
//!
//! **What is proved.** The fault is the one of the definition, which stands with typed problems; and where there is none, the words that the problem
//! declares are different, and its declarations and formulas are sorted (`laws.rt`).
//!
//! **Cost.** Linear in the entries, but for the variables in force, which are few, as nesting is limited; two bytes for each place of an entry while it
//! is looked at.
#![tactic(auto)]

mod declarations;
mod faults;
mod formulas;
pub mod laws;
mod lent;
mod repeats;
mod scope;
mod table;
mod terms;

pub use faults::{SortFault, sort_fault};
pub use lent::{LentBody, LentDeclaration, LentEntry};
pub use repeats::repeated_declarations;
