//! Whole problems: the files of a library with their includes and selections (Sutcliffe 2017).
//!
//! `read_problem` loads the first file, reads its entries one after another, and goes down into includes (`problem.rt`). An include is a
//! regular language of its own, read token by token (`include.rt`), so that the place of its first fault is exact. A selection takes the
//! listed formulas of the included file's whole list, which has the formulas of its own includes (`taking.rt`); names are found in a table.
//! The name under which an included file is loaded comes from the first file's folder or from `--tptp` (`name.rt`), also for includes within
//! includes.
//!
//! All this is said once for every language of annotated formulas: `read_entries` reads the entries of a file by the trait `Entry`
//! (`entry.rt`), which `Annotated` implements for `fof` and `cnf` (`annotated.rt`). The faults of a whole file are told in the causes of the
//! language (`fault.rt`).
//!
//! **Limits** (`limits.rt`): 64 MiB a file, 256 MiB together, 16 levels of includes.
//!
//! **What is proved.** Over a library that tells its texts, an answer is exactly the problem that the texts spell, or the first fault with its
//! file and place, by a definition that is a relation over texts. A failed load is answered only if the library's count of faults rose.
//!
//! **Cost.** Linear in the bytes loaded; a formula is moved at most once for each level of includes.
#![tactic(auto)]

mod annotated;
mod entry;
mod fault;
mod include;
pub mod laws;
mod limits;
mod name;
mod name_set;
mod problem;
mod reading;
mod selection;
mod source;
mod taking;

pub use entry::Entry;
pub use fault::FileFault;
pub use limits::{MOST_INCLUDES, MOST_PROBLEM_BYTES};
pub use problem::{read_entries, read_problem};
