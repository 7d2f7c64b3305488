// The reports of `prove` on the formulas of its problem. When each is due is said by the call that makes it.

ghost use Rattle.std.specs.Prelude.{◌≡◌, ◌++◌, IfOk};
ghost use Rattle.command_reports.specs.ProveReports.{refutation_word, saturation_word, spent_line, heavy_line, left_out_line, refuted_report, saturated_report, part_saturated_report, spent_report, heavy_report};

use crate::report::Report;
use crate::report_lines::{push_output, push_printed, push_status};
use crate::status::{GAVE_UP, PART_SATURATED, PROVED, SATURATED};
use plain_types::{Mem, Text};
use std::alloc::Global;
use tstp_writer::Page;

impl Report {
    /// The problem in a file is refuted, with this derivation.
    pub fn refuted(alloc: Global, file: &str, conjecture: bool, derivation: &Text) -> Mem<Report>
        ensures { IfOk result (λ report. (report.status ≡ 0) × (report.text ≡ refuted_report file.now conjecture derivation.now)) }
    {
        let mut page = Page::new(alloc);
        push_refuted(&mut page, file, conjecture, derivation.as_slice())?;
        Ok(Report::of(PROVED, page))
    }

    /// The members of the pool are a saturated set.
    pub fn saturated(alloc: Global, file: &str, conjecture: bool, members: &Text) -> Mem<Report>
        ensures { IfOk result (λ report. (report.status ≡ 1) × (report.text ≡ saturated_report file.now conjecture members.now)) }
    {
        let mut page = Page::new(alloc);
        push_saturated(&mut page, file, conjecture, members.as_slice())?;
        Ok(Report::of(SATURATED, page))
    }

    /// The members of the pool are a saturated set for a part of the formulas: so many were left out of all.
    pub fn part_saturated(
        alloc: Global,
        file: &str,
        left: u64,
        all: u64,
        members: &Text,
    ) -> Mem<Report>
        ensures { IfOk result (λ report. (report.status ≡ 10) × (report.text ≡ part_saturated_report file.now left all members.now)) }
    {
        let mut page = Page::new(alloc);
        push_part_saturated(&mut page, file, left, all, members.as_slice())?;
        Ok(Report::of(PART_SATURATED, page))
    }

    /// The pool gave up: this number of entries was counted, at least as many as are allowed.
    pub fn spent(alloc: Global, file: &str, count: u64, allowed: u32) -> Mem<Report>
        ensures { IfOk result (λ report. (report.status ≡ 2) × (report.text ≡ spent_report file.now count allowed)) }
    {
        let mut page = Page::new(alloc);
        push_status(&mut page, b"GaveUp", file)?;
        push_spent(&mut page, count, allowed)?;
        Ok(Report::of(GAVE_UP, page))
    }

    /// The pool gave up: nothing is left to do but an inference that is too heavy, by the text of its name.
    pub fn heavy(alloc: Global, file: &str, key: &Text) -> Mem<Report>
        ensures { IfOk result (λ report. (report.status ≡ 2) × (report.text ≡ heavy_report file.now key.now)) }
    {
        let mut page = Page::new(alloc);
        push_status(&mut page, b"GaveUp", file)?;
        push_heavy(&mut page, key.as_slice())?;
        Ok(Report::of(GAVE_UP, page))
    }
}

/// The word of a refutation's status, with a conjecture and without.
fn refutation_word(conjecture: bool) -> &'static [u8]
    ensures { result.now ≡ refutation_word conjecture }
{
    if conjecture {
        b"Theorem"
    } else {
        b"Unsatisfiable"
    }
}

/// The word of the status of a saturated set or of a model, with a conjecture and without.
pub fn saturation_word(conjecture: bool) -> &'static [u8]
    ensures { result.now ≡ saturation_word conjecture }
{
    if conjecture {
        b"CounterSatisfiable"
    } else {
        b"Satisfiable"
    }
}

/// Adds a derivation after its status.
fn push_refuted(page: &mut Page, file: &str, conjecture: bool, derivation: &[u8]) -> Mem<()>
    ensures { IfOk result (λ _. page.new ≡ page.old ++ refuted_report file.now conjecture derivation.now) }
{
    let word = refutation_word(conjecture);
    push_printed(page, file, word, b"CNFRefutation", derivation)
}

/// Adds the members of a saturated set after their status.
fn push_saturated(page: &mut Page, file: &str, conjecture: bool, members: &[u8]) -> Mem<()>
    ensures { IfOk result (λ _. page.new ≡ page.old ++ saturated_report file.now conjecture members.now) }
{
    let word = saturation_word(conjecture);
    push_printed(page, file, word, b"Saturation", members)
}

/// Adds the members of a set that is saturated for a part of the formulas, after their status and how many formulas were left out.
fn push_part_saturated(page: &mut Page, file: &str, left: u64, all: u64, members: &[u8]) -> Mem<()>
    ensures { IfOk result (λ _. page.new ≡ page.old ++ part_saturated_report file.now left all members.now) }
{
    push_status(page, b"Unknown", file)?;
    push_left_out(page, left, all)?;
    push_output(page, b"start", b"Saturation", file)?;
    page.bytes(members)?;
    push_output(page, b"end", b"Saturation", file)
}

/// Adds how many formulas were left out, of how many.
fn push_left_out(page: &mut Page, left: u64, all: u64) -> Mem<()>
    ensures { IfOk result (λ _. page.new ≡ page.old ++ left_out_line left all) }
{
    page.bytes(b"% left out ")?;
    page.number(left)?;
    page.bytes(b" of ")?;
    page.number(all)?;
    page.bytes(b"\n")
}

/// Adds how many entries were counted, of how many.
fn push_spent(page: &mut Page, count: u64, allowed: u32) -> Mem<()>
    ensures { IfOk result (λ _. page.new ≡ page.old ++ spent_line count allowed) }
{
    page.bytes(b"% spent ")?;
    page.number(count)?;
    page.bytes(b" of ")?;
    page.number(u64::from(allowed))?;
    page.bytes(b"\n")
}

/// Adds the name of the inference that is too heavy.
fn push_heavy(page: &mut Page, key: &[u8]) -> Mem<()>
    ensures { IfOk result (λ _. page.new ≡ page.old ++ heavy_line key.now) }
{
    page.bytes(b"% heavy ")?;
    page.bytes(key)?;
    page.bytes(b"\n")
}
