//! The reports of the program: a status and a text for each way in which a command ends.
//!
//! A report's text is lines that a reader of SZS statuses knows: a status line, and around a derivation or a list the lines that begin and end
//! it. What all commands print stands in `report.rt` on `report_lines.rt`, `report_words.rt` and `names.rt`; what one command prints in
//! `prove_reports.rt`, `check_reports.rt`, `bench_reports.rt`, `model_reports.rt`, `ground_reports.rt` and `decide_reports.rt`. The statuses are
//! named in `status.rt`.
//!
//! **What is proved.** Each call gives the status and exactly the text that its definition states (`specs/Reports.antt` and the files of the
//! commands), or it is out of memory. Beside the texts these files define when each report is due, as `IsProofReport`; that the commands keep to it
//! is proved in the crate `commands`.
#![tactic(auto)]

mod bench_reports;
mod check_reports;
mod decide_reports;
mod ground_reports;
mod model_reports;
mod names;
mod prove_reports;
mod report;
mod report_lines;
mod report_words;
mod status;

pub use names::{problem_bytes, shown_byte, shown_name};
pub use report::Report;
pub use status::{
    FORM_REFUTED, FORM_TRUE, GAVE_UP, INAPPROPRIATE, INPUT_ERROR, LISTED, LOAD_FAILED, MEMORY_OUT,
    MODEL_FOUND, NO_MODEL, PART_SATURATED, PROVED, REFUSED, SATURATED, SINK_FAILED, UNLISTED,
    USAGE_SHOWN,
};
