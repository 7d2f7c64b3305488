//! Skolem form: a matrix without quantifiers, in which new variables and Skolem terms stand for the variables of a normal form.
//!
//! **The walk** (`forms.rt`). A `!` makes a new variable. A `?` makes a Skolem symbol, applied to the variables of the terms that stand for the
//! free variables of its body: only variables that occur there become arguments, which keeps Skolem terms small. `bindings.rt` has the
//! variables in force, each with the place of the binding that it hides; `gathering.rt` finds the arguments of a `?`. Of several `?` around one
//! body the innermost mostly has the arguments of the others, so each notes a binding that it covers, and what is covered isn't gathered again.
//!
//! **Terms are made late.** A matrix literal (`literal.rt`) keeps the atom with the bindings of its variables and knows its size and its variables;
//! its terms are built when the literal is written into a clause (`filling.rt`). So a formula that passes a limit is refused before its terms
//! exist, and literals may share a Skolem term of thousands of arguments.
//!
//! **Limits.** `skolemize` ends at the first literal in a clause that is over 4,000 symbols, and where all literals in clauses are over 2^28
//! symbols together. `outline.rt` then tells which limit the formula passes first, without making the matrix.
//!
//! **What is proved.** The matrix is exactly that of the definition in `signature`, and the early ends come exactly where the limits say.
//!
//! **Cost.** Linear in the normal form and in the lists of arguments. 490 nested `?` under k variables keep 490 k numbers.
#![tactic(auto)]

mod bindings;
mod bound_term;
mod clauses;
mod filling;
mod forms;
mod gathering;
pub mod laws;
mod literal;
mod matrix;
mod name;
mod occurring;
mod outline;
mod progress;
mod symbols;
mod terms;
mod variable_list;

pub use forms::{MatrixEnd, Skolemized, skolemize};
pub use literal::MatrixLiteral;
pub use matrix::{Matrices, Matrix};
pub use name::{VariableName, VariableRef};
pub use outline::largest_clause;
pub use progress::made_in_order;
pub use symbols::{add_skolem_symbols, number_after};
pub use variable_list::VariableList;
