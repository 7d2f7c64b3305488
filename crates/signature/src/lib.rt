//! The symbols of a problem by their numbers, and the definition of its clausal form.
//!
//! A symbol is a name with a kind, function or predicate, and a number of arguments: `f/1` and `f/2` are two symbols. Symbols are numbered by
//! first occurrence over the problem (`meeting.rt`); the number 0 is `$true`, under a name that no text can spell. `Signature` finds a symbol by
//! its name in a table and prints it by its number. `prefix.rt` makes the beginnings of new names, with which no name of the problem begins.
//!
//! **The definition.** `specs/` says what the clausal form of a problem is: negation normal form, Skolem terms, named products, clauses in
//! order; and what truth of a formula is. `formula_nnf`, `skolem` and `clausal_form` compute it; this crate has no code of theirs.
//!
//! **Cost.** One look-up for each occurrence of a symbol, in the time of reading its name, also where names were made to collide under std's hasher
//! (`name_hash`).
#![tactic(auto)]

pub mod laws;
mod meeting;
mod prefix;
mod signature;
mod symbol;

pub use prefix::fresh_prefix;
pub use signature::Signature;
pub use symbol::{Symbol, SymbolKind, SymbolRef, SymbolSet, arity_of};
