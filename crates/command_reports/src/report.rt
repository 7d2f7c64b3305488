// Reports: a text each, and the status with which the program ends; and those that every command may have. When one is due is said by the
// calls that make it. A command's own reports stand beside it.

ghost use Rattle.std.specs.Prelude.{◌≡◌, IfOk};
ghost use Rattle.command_reports.specs.Reports.{read_status as status_of_cause, unread_report, unformed_report, lost_report};

use crate::report_lines::{push_fault, push_formula, push_load, push_status, read_status_word};
use crate::report_words::limit_word;
use crate::status::{INAPPROPRIATE, INPUT_ERROR, LOAD_FAILED};
use clausal_form::FormCause;
use plain_types::{Mem, Text};
use std::alloc::Global;
use tptp_reader::ReadCause;
use tstp_writer::Page;

/// A report, and the status with which the program ends.
#[derive(Drop)]
pub struct Report {
    pub status: u8,
    pub text: Text,
}

impl Report {
    /// A report of what a page holds.
    pub fn of(status: u8, page: Page) -> Report
        ensures { (result.status ≡ status) × (result.text ≡ page) }
    {
        Report {
            status,
            text: page.into_text(),
        }
    }

    /// The file of a name, which a command reads after its problem, couldn't be loaded.
    pub fn unloaded(alloc: Global, file: &str, name: &[u8]) -> Mem<Report>
        ensures { IfOk result (λ report. (report.status ≡ 4) × (report.text ≡ lost_report file.now name.now)) }
    {
        let mut page = Page::new(alloc);
        push_status(&mut page, b"OSError", file)?;
        push_load(&mut page, name)?;
        Ok(Report::of(LOAD_FAILED, page))
    }

    /// The problem isn't read, for a cause in a file at a place.
    pub fn unread(
        alloc: Global,
        file: &str,
        cause: ReadCause,
        name: &Text,
        place: u32,
    ) -> Mem<Report>
        ensures { IfOk result (λ report. (report.status ≡ status_of_cause cause) × (report.text ≡ unread_report file.now cause name.now place)) }
    {
        let mut page = Page::new(alloc);
        push_status(&mut page, read_status_word(cause), file)?;
        push_fault(&mut page, cause, name.as_slice(), place)?;
        Ok(Report::of(read_status(cause), page))
    }

    /// The problem has no clausal form, because of the formula of a name.
    pub fn unformed(alloc: Global, file: &str, cause: FormCause, name: &Text) -> Mem<Report>
        ensures { IfOk result (λ report. (report.status ≡ 3) × (report.text ≡ unformed_report file.now cause name.now)) }
    {
        let mut page = Page::new(alloc);
        push_status(&mut page, b"InputError", file)?;
        push_formula(&mut page, limit_word(cause), name.as_slice())?;
        Ok(Report::of(INPUT_ERROR, page))
    }
}

/// The status of a text that isn't read.
fn read_status(cause: ReadCause) -> u8
    ensures { result ≡ status_of_cause cause }
{
    match cause {
        ReadCause::Inappropriate(_) => INAPPROPRIATE,
        ReadCause::Load => LOAD_FAILED,
        _ => INPUT_ERROR,
    }
}
