// The report of `bench`. When it is due is said by the call that makes it.

ghost use Rattle.std.specs.Prelude.{◌≡◌, ◌++◌, IfOk};
ghost use Rattle.command_reports.specs.BenchReports.{outcome_line, counts_line, bench_summary};

use crate::report::Report;
use plain_types::Mem;
use std::alloc::Global;
use tstp_writer::Page;

impl Report {
    /// The search for a proof of the problem of a number ended so: by the word of its outcome, the number of the inferences that were
    /// counted, and that of the derivation's lines.
    pub fn summary(
        alloc: Global,
        status: u8,
        number: u32,
        word: &[u8],
        counted: u64,
        lines: u32,
    ) -> Mem<Report>
        ensures { IfOk result (λ report. (report.status ≡ status) × (report.text ≡ bench_summary number word.now counted lines)) }
    {
        let mut page = Page::new(alloc);
        push_outcome(&mut page, number, word)?;
        push_counts(&mut page, counted, lines)?;
        Ok(Report::of(status, page))
    }
}

/// Adds the line of the outcome.
fn push_outcome(page: &mut Page, number: u32, word: &[u8]) -> Mem<()>
    ensures { IfOk result (λ _. page.new ≡ page.old ++ outcome_line number word.now) }
{
    page.bytes(b"% bench ")?;
    page.number(u64::from(number))?;
    page.bytes(b" status ")?;
    page.bytes(word)?;
    page.bytes(b"\n")
}

/// Adds the line of the counts.
fn push_counts(page: &mut Page, counted: u64, lines: u32) -> Mem<()>
    ensures { IfOk result (λ _. page.new ≡ page.old ++ counts_line counted lines) }
{
    page.bytes(b"% counted ")?;
    page.number(counted)?;
    page.bytes(b" lines ")?;
    page.number(u64::from(lines))?;
    page.bytes(b"\n")
}
