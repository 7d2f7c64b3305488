//! The grammar of typed entries as a stack machine, and that its verdict is the one answer on the tokens.
//!
//! The machine (`specs/TypedMachine.antt`) takes token after token, as a reader does, on top of that of untyped formulas (`tptp_reader`). A reader
//! is proved against it step by step; `laws.rt` says what its verdict means: the entry that the tokens spell, or the first token at which no
//! entry goes on, and why, as `typed_tree` tells it without a machine.
#![tactic(auto)]

pub mod laws;
