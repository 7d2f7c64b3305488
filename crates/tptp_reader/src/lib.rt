//! Annotated formulas of the TPTP's first-order language (Sutcliffe 2017), FOF and CNF, read from their tokens.
//!
//! A reader by recursive descent without recursion on what can be deep. `entry.rt` reads `fof(name, role, formula, notes).`, `formulas.rt` the
//! connectives, `atoms.rt` and `terms.rt` what stands below them, `lists.rt` and `notes.rt` the annotations. Each function reads into a place
//! that its caller lends, so a level of brackets takes less than a kilobyte of stack; the nesting is limited to 500 levels.
//!
//! **Faults.** A text that is no entry is refused with a cause and the place of its first fault. Which of several faults is the first is part
//! of the definition: the reader walks the tokens from left to right and stops at the first token that can't follow (`cause.rt`). Forms that
//! the prover leaves out by name (types, numbers, `$` words) are faults of their own.
//!
//! **What is proved.** Both directions, against a grammar that has no code in it. Where `annotated` answers a formula, the tokens spell it
//! (`tptp_tree`), and no other formula is spelled so. Where it answers a fault, no entry begins with these tokens, and the place is that of the
//! first fault by the definition. The definition of the first fault is a stack machine over tokens (`specs/`), because "the longest text that
//! can still go on" has to be said of every prefix.
//!
//! **Cost.** Each token is looked at a fixed number of times; 16 MB of text are read in a second, in some 38 times the text's memory.
#![tactic(auto)]

mod atoms;
mod bound;
mod cause;
mod clauses;
mod entry;
mod formulas;
pub mod laws;
mod lists;
mod notes;
mod source;
mod terms;

pub use bound::Bound;
pub use cause::{Form, Halt, ReadCause, ReadFault, Refusal, fault_at_end};
pub use entry::{Ending, Read, annotated, cause_of, untaken_role};
pub use source::{Binary, Name, Reader, binary_connective, is_quantifier};
