// Samples for the tests of other crates: numbers that look random, small terms and atoms, clauses from text, and random terms.
#![tactic(auto)]

mod numbers;
mod random;
mod terms;
mod text;

pub use numbers::Random;
pub use random::{random_term, random_terms};
pub use terms::{atom, binary, constant, unary, unit};
pub use text::{clause, clauses};
