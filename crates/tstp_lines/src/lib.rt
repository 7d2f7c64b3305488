//! The parts of a line of a derivation: its clause, its items, what they bind, and the step that its source names.
//!
//! A line is read as a formula with a general term for its source. This crate turns both into what a judge needs, and judges nothing itself;
//! `tstp_checker` stands on it. Each answer is given by a definition of `clausal_form` (`specs/Derivation*.antt`), so the two crates share
//! the language and not code.
//!
//! **Clauses.** `written.rt` tells whether a formula is written as a clause: ordinary literals first, then the signed names of split
//! components in rising order, and `$false` only alone. `clause.rt` gives the clause by numbers. `numbers.rt` numbers a line's symbols and
//! variables as a walk over it meets them: known symbols have their numbers in the clausal form's signature, others come after, and
//! variables are numbered from 0 in each line. `names.rt` is the table of names below both, a set that keeps the order of insertion.
//!
//! **Items.** `items.rt` reads the items of an inference, such as `from(0,left)` or `into(1,left,[0,2])`. A rule has a row of items
//! in a fixed order after its status; items with other words are ignored. `bindings.rt` reads `bind([t1,..,tn])`, the terms that become of a
//! parent's variables.
//!
//! **Steps.** `sources.rt` takes a source apart, `steps.rt` tells the kind of a line and makes the kernel step of a rule with its row, the
//! places of the parents and the bound terms. `parts.rt` gives the clause and the bindings of a line at once, and whether either has a symbol
//! that the form doesn't have; then it takes the line's own symbols and variables back.
//!
//! **What is proved.** Every call gives exactly what its definition says, so a row that is wrong in any way gives no step. Numbers given once
//! stay right when more symbols are met (`Meets`), which is what lets a line be read in one walk. After out of memory a `NameTable` is as
//! before, and `LineNumbers` is spent: the caller gives up the whole check.
//!
//! **Cost.** Linear in the line, with one hash look-up for each symbol and variable. Nothing is kept from line to line but the table of
//! the form's symbols.
#![tactic(auto)]

mod bindings;
mod clause;
mod items;
pub mod laws;
mod names;
mod numbers;
mod parts;
mod sources;
mod steps;
mod written;

pub use bindings::Bindings;
pub use items::{ItemWord, row_arguments};
pub use names::NameTable;
pub use numbers::LineNumbers;
pub use parts::LineParts;
pub use sources::{
    bindings_count, bound_items, clause_number, is_plain_word, items_of, parent_names,
};
pub use steps::{Kind, kind_of, rule_step};
pub use written::is_written_clause;
