//! The words of the command line, and the rule that makes a command of them.
//!
//! A command is a word with its files and its options (`command.rt`). An option is a word `--name=value`, each at most once and in any place
//! (`options.rt`). Words that no command has are usage (`words.rt`): nothing is guessed, and no abbreviation is taken.
//!
//! **What is proved.** `Words::command` gives exactly the command that the rule gives (`specs/Words.antt`, tables first), and none exactly where
//! the words are usage. It takes no memory.
#![tactic(auto)]

mod command;
mod options;
mod words;

pub use command::{
    AxiomSelection, Command, CommandName, DEFAULT_SIZE, DEFAULT_WORKERS, LEAST_TOLERANCE,
    MOST_BENCH, MOST_DEPTH, MOST_SIZE, MOST_TOLERANCE, OptionName, ProveOptions,
};
pub use options::default_options;
pub use words::Words;
