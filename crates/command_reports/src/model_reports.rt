// The reports of `model` on the formulas of its problem. When each is due is said by the call that makes it.

ghost use Rattle.std.specs.Prelude.{◌≡◌, ◌++◌, IfOk};
ghost use Rattle.command_reports.specs.ModelReports.{no_model_line, too_large_line, found_report, no_model_report, too_large_report};

use crate::prove_reports::saturation_word;
use crate::report::Report;
use crate::report_lines::{push_printed, push_status};
use crate::status::{MODEL_FOUND, NO_MODEL};
use plain_types::{Mem, Text};
use std::alloc::Global;
use tstp_writer::Page;

impl Report {
    /// The problem in a file has a finite model, with this table.
    pub fn found(alloc: Global, file: &str, conjecture: bool, table: &Text) -> Mem<Report>
        ensures { IfOk result (λ report. (report.status ≡ 11) × (report.text ≡ found_report file.now conjecture table.now)) }
    {
        let mut page = Page::new(alloc);
        push_found(&mut page, file, conjecture, table.as_slice())?;
        Ok(Report::of(MODEL_FOUND, page))
    }

    /// No size from 1 to `most` has a model.
    pub fn no_model(alloc: Global, file: &str, most: u32) -> Mem<Report>
        ensures { IfOk result (λ report. (report.status ≡ 12) × (report.text ≡ no_model_report file.now most)) }
    {
        let mut page = Page::new(alloc);
        push_status(&mut page, b"GaveUp", file)?;
        push_no_model(&mut page, most)?;
        Ok(Report::of(NO_MODEL, page))
    }

    /// The size is too large to be searched, and no smaller one has a model.
    pub fn too_large(alloc: Global, file: &str, size: u32) -> Mem<Report>
        ensures { IfOk result (λ report. (report.status ≡ 12) × (report.text ≡ too_large_report file.now size)) }
    {
        let mut page = Page::new(alloc);
        push_status(&mut page, b"GaveUp", file)?;
        push_too_large(&mut page, size)?;
        Ok(Report::of(NO_MODEL, page))
    }
}

/// Adds a table after its status.
fn push_found(page: &mut Page, file: &str, conjecture: bool, table: &[u8]) -> Mem<()>
    ensures { IfOk result (λ _. page.new ≡ page.old ++ found_report file.now conjecture table.now) }
{
    let word = saturation_word(conjecture);
    push_printed(page, file, word, b"FiniteModel", table)
}

/// Adds up to which size there is no model.
fn push_no_model(page: &mut Page, most: u32) -> Mem<()>
    ensures { IfOk result (λ _. page.new ≡ page.old ++ no_model_line most) }
{
    page.bytes(b"% no model of size 1 to ")?;
    page.number(u64::from(most))?;
    page.bytes(b"\n")
}

/// Adds the size that is too large.
fn push_too_large(page: &mut Page, size: u32) -> Mem<()>
    ensures { IfOk result (λ _. page.new ≡ page.old ++ too_large_line size) }
{
    page.bytes(b"% too large at size ")?;
    page.number(u64::from(size))?;
    page.bytes(b"\n")
}
