//! Typed problems: what their declarations say, the faults of sorts and types, their translation to untyped problems, and what they mean.
//!
//! `specs/` has the definitions that the reader of typed problems and their translator are proved against: what each word is declared as, the first
//! fault of sorts and types in reading order, the condition of a translation, the translation itself (sorts as predicates), and the truth of a typed
//! formula in a typed interpretation.
//!
//! **What is proved.** The type of a symbol has as many arguments as the symbol, and the definitions compute on worked examples (`laws.rt`).
#![tactic(auto)]

pub mod laws;
mod limits;
mod problem;

pub use limits::MOST_TYPED_SIZE;
pub use problem::{TypedAnnotated, TypedAnnotateds, TypedProblem};
