//! Literal selection and eligibility: which literals of a clause inferences may use (Bachmair and Ganzinger 1994).
//!
//! A clause may have a *selected* literal, the first negative literal of greatest size (`choice.rt`); then inferences use it alone. In the mode
//! `Nothing` none is selected. Without a selected literal a literal is *eligible* where no other is greater in the literal order, and strictly
//! eligible where none is greater or equal (`eligibility.rt`). `eligible_under` asks it of an instance that isn't built.
//!
//! **What is proved.** Both are exact by the definitions in `fol_base`. The law of this crate: eligibility of an instance implies eligibility of
//! the clause, so literals that aren't eligible in a clause are left out before anything is unified.
//!
//! **Cost.** One comparison of literals for each other literal of the clause.
#![tactic(auto)]

mod choice;
mod eligibility;
pub mod laws;

pub use choice::{Selection, selected};
pub use eligibility::{eligible, eligible_under};
