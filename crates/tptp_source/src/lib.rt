//! The annotations of TSTP lines: general terms, and the sources of a derivation's lines.
//!
//! `reader.rt` reads a general term from tokens by recursive descent; `source.rt` recognises `file(..)` and `inference(..)`; `items.rt`
//! has the items in brackets by which an inference names its places and bindings. What an item means is decided in `tstp_lines`.
//!
//! **What is proved.** A term that is read is spelled by the tokens, by the definition in `tptp_tree`, and where none is read none is spelled.
//!
//! **Cost.** Linear in the tokens. The reader goes some frames deeper for each level of brackets, of which a derivation may have 5,000.
#![tactic(auto)]

mod beginning;
mod items;
pub mod laws;
mod part;
mod reader;
mod sign;
mod source;
mod term;
mod whole;

pub use items::{
    SideName, decimal, formula_term_of, formula_terms_of, number_of, numbers_of, side_of,
    signed_name_of,
};
pub use sign::NumberSign;
pub use source::{Source, read_source};
pub use term::{GeneralTerm, GeneralTerms};
pub use whole::read_general_term;
