//! Equality resolution and equality factoring, the rules with one premise (Bachmair and Ganzinger 1994), and the words that all generating
//! rules share: an inference with its name, and what becomes of it.
//!
//! **Resolution** drops a negative literal whose sides unify, where it is the selected literal or, with none selected, maximal under the
//! unifier (`resolving.rt`). **Factoring** takes two positive literals with sides that unify, where nothing is selected: the first, which
//! must be maximal under the unifier and not turned against the order, becomes the disequation of the two other sides (`factoring.rt`). A
//! condition that fails on the clause itself fails under each unifier, so it is asked before anything is unified.
//!
//! **Names.** Each inference has a `Key`: the clause's number and the literals and sides at which the rule applies. A worker counts each key
//! once, and a conclusion of over 4,000 symbols is only named (`Made::Heavy`). Whether it is overweight is told by sizes, before the
//! conclusion is built. Where the clause under the unifier is too large, sizes also tell whether the order allows the inference
//! (`outsizing.rt`); only where they leave it open the terms are built.
//!
//! **Numbering.** A conclusion is canonical: its variables are numbered by first occurrence. `renumbering.rt` has the table from old variables
//! to new ones, `renaming.rt` the walks over instances that fill it and build nothing. The substitution of the step is renumbered by the same
//! table; what occurs in it alone gets the next numbers. `superpose` uses both.
//!
//! **What is proved.** `resolutions` and `factorings` give every inference of their rule, each once, with its exact step and conclusion, by
//! the definitions in `specs/`. Their twins `.._up_to` give all of them, or at least as many as are asked for. After out of memory nothing is
//! handed out.
#![tactic(auto)]

mod concluding;
mod factoring;
mod inference;
mod outsizing;
mod renaming;
mod renumbering;
mod resolving;

pub use concluding::LiteralSide;
pub use factoring::{factorings, factorings_up_to, is_not_below};
pub use inference::{Inference, Inferences, Made, is_enough};
pub use outsizing::{is_larger_side, outsizes_others};
pub use renaming::{number_instance, number_literals, number_term, renamed_terms};
pub use renumbering::Renumbering;
pub use resolving::{resolutions, resolutions_up_to};

pub mod laws;
