//! The commands `prove`, `check`, `bench`, `model`, `ground` and `decide` as one call, `run`, over any library of files and any sink for the
//! report.
//!
//! There are five stages, and the first that fails reports: the words of the command line (crate `command_words`); reading and clausal form
//! (`problem.rt`; of a problem that no file spells, `numbered_problem.rt`); the proof (`prove.rt` on `proved.rt` and `derivation.rt`; `bench.rt`),
//! the check (`check.rt`), the search for a model (`model.rt`), the ground list (`ground.rt`) or the decision (`decide.rt`); the report, a status
//! and a text (crate `command_reports`); its writes (`entry.rt`; when out of memory in pieces that take none, `memory_out.rt`).
//!
//! **What is proved.** The clauses of `run`: one for each row of the table of answers (`specs/Rows.antt`; the rows of one command in
//! `specs/ProveRows.antt`, `specs/CheckRows.antt`, `specs/BenchRows.antt`, `specs/ModelRows.antt`, `specs/GroundRows.antt` and
//! `specs/DecideRows.antt`), that every valid input is answered, and which writes deliver the report. `laws.rt` has the laws of answers, and
//! worked examples.
#![tactic(auto)]

mod bench;
mod check;
mod decide;
mod derivation;
mod entry;
mod ground;
pub mod laws;
mod memory_out;
mod model;
mod numbered_problem;
mod problem;
mod prove;
mod proved;

pub use entry::run;
pub use memory_out::deliver_memory_out;
pub use numbered_problem::bench_problem;
pub use proved::{ProveFault, Proved, ProvedPart, prove_part, prove_problem};
