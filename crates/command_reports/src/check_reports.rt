// The reports of `check` on the text of a derivation. When each is due is said by the call that makes it.

ghost use Rattle.std.specs.Prelude.{◌≡◌, ◌++◌, IfOk};
ghost use Rattle.command_reports.specs.CheckReports.{cause_word, accepted_line, refused_line};

use crate::report::Report;
use crate::status::{PROVED, REFUSED};
use plain_types::Mem;
use std::alloc::Global;
use tstp_checker::Cause;
use tstp_writer::Page;

impl Report {
    /// The derivation is accepted, with this number of lines.
    pub fn accepted(alloc: Global, lines: u32) -> Mem<Report>
        ensures { IfOk result (λ report. (report.status ≡ 0) × (report.text ≡ accepted_line lines)) }
    {
        let mut page = Page::new(alloc);
        push_accepted(&mut page, lines)?;
        Ok(Report::of(PROVED, page))
    }

    /// The derivation's first bad line, and the first cause there.
    pub fn refused(alloc: Global, line: u32, cause: Cause) -> Mem<Report>
        ensures { IfOk result (λ report. (report.status ≡ 9) × (report.text ≡ refused_line line cause)) }
    {
        let mut page = Page::new(alloc);
        push_refused(&mut page, line, cause)?;
        Ok(Report::of(REFUSED, page))
    }
}

/// Adds that a derivation is accepted.
fn push_accepted(page: &mut Page, lines: u32) -> Mem<()>
    ensures { IfOk result (λ _. page.new ≡ page.old ++ accepted_line lines) }
{
    page.bytes(b"% accepted ")?;
    page.number(u64::from(lines))?;
    page.bytes(b" lines\n")
}

/// Adds that a derivation is refused.
fn push_refused(page: &mut Page, line: u32, cause: Cause) -> Mem<()>
    ensures { IfOk result (λ _. page.new ≡ page.old ++ refused_line line cause) }
{
    page.bytes(b"% refused at line ")?;
    page.number(u64::from(line))?;
    page.bytes(b": ")?;
    page.bytes(cause_word(cause))?;
    page.bytes(b"\n")
}

/// The word of a cause for which a derivation is refused.
fn cause_word(cause: Cause) -> &'static [u8]
    ensures { result.now ≡ cause_word cause }
{
    match cause {
        Cause::Text => b"Text",
        Cause::Order => b"Order",
        Cause::UnknownParent => b"UnknownParent",
        Cause::Leaf => b"Leaf",
        Cause::Clausify => b"Clausify",
        Cause::Binding => b"Binding",
        Cause::Rule => b"Rule",
        Cause::Conclusion => b"Conclusion",
        Cause::NewSymbol => b"NewSymbol",
        Cause::NoEmptyClause => b"NoEmptyClause",
    }
}
