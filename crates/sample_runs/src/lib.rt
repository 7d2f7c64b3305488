//! Whole runs over memory for the tests of the commands.
//!
//! A run is what the program does with its words: it reads a library of files and prints to a sink. Both are in memory here, and a load or a write
//! may fail at a call of a given number. `ended.rt` makes a run and tells how it ended. These helpers stand apart from the tests, so that how a library and a sink
//! are let go is proved once. `problems.rt` has the problems that several crates of tests share.
#![tactic(auto)]

mod ended;

pub use ended::{Ended, Run, ended_on_derivation};

pub mod problems;
