// The reports of `decide` on the formulas of its problem. When each is due is said by the call that makes it.

ghost use Rattle.std.specs.Prelude.{◌≡◌, IfOk, if◌then◌else◌};
ghost use Rattle.command_reports.specs.DecideReports.{open_report, no_interpretation_report, interpretation_report};

use crate::report::Report;
use crate::report_lines::{push_formula, push_status};
use crate::status::{FORM_REFUTED, FORM_TRUE, INPUT_ERROR};
use plain_types::Mem;
use std::alloc::Global;
use tstp_writer::Page;

impl Report {
    /// A clause that comes from the formula of a name has a variable.
    pub fn not_ground(alloc: Global, file: &str, name: &[u8]) -> Mem<Report>
        ensures { IfOk result (λ report. (report.status ≡ 3) × (report.text ≡ open_report file.now name.now)) }
    {
        let mut page = Page::new(alloc);
        push_status(&mut page, b"InputError", file)?;
        push_formula(&mut page, b"NotGround", name)?;
        Ok(Report::of(INPUT_ERROR, page))
    }

    /// Whether no interpretation makes the form true.
    pub fn decided(alloc: Global, refuted: bool) -> Mem<Report>
        ensures { IfOk result (λ report. (report.status ≡ (if refuted then 15 else 16))
            × (report.text ≡ (if refuted then no_interpretation_report else interpretation_report))) }
    {
        let mut page = Page::new(alloc);
        if refuted {
            page.bytes(b"% ground form refuted\n")?;
            Ok(Report::of(FORM_REFUTED, page))
        } else {
            page.bytes(b"% ground form has a model\n")?;
            Ok(Report::of(FORM_TRUE, page))
        }
    }
}
