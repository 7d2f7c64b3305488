// What `ground` reports: the finite list of ground instances of the clausal form on which a derivation stands.

ghost use Rattle.std.specs.Prelude.{◌≡◌, ◌≤◌, IfOk, length};
ghost use Rattle.std.specs.Option.{option_copied};
ghost use Rattle.signature.specs.Form.{clausal_form};
ghost use Rattle.clausal_form.specs.Form.{form_of};
ghost use Rattle.tstp_checker.specs.AcceptedLines.{AreAcceptedLines};
ghost use Rattle.command_reports.specs.Outside.{outside_by};
ghost use Rattle.commands.specs.Problems.{source_at, IsReadReport};
ghost use Rattle.command_reports.specs.GroundReports.{IsGroundReport, IsListing};

use crate::problem::{FormedProblem, formed_problem};
use command_reports::Report;
use herbrand_list::{GroundFault, ground_list};
use kernel_steps::Derivation;
use outside::{Library, LoadFault};
use plain_types::{Mem, NoMemory};
use std::alloc::Global;
use tptp_token::MOST_TEXT_BYTES;
use tstp_checker::{Cause, CheckFault, read_lines};

/// Reads the problem of a file, brings it to clausal form, loads the derivation, checks it and makes its ground list. The first stage that fails
/// reports.
pub fn ground_report<L: Library>(
    alloc: Global,
    library: &mut L,
    file: &str,
    derivation: &str,
    root: Option<&str>,
) -> Mem<Report>
    ensures { IfOk result (λ report. IsReadReport
        (outside_by L.told L.faults L.found L.failed library.old library.new)
        (source_at file.now (option_copied root.entry))
        (IsGroundReport (outside_by L.told L.faults L.found L.failed library.old library.new) file.now derivation.now)
        report.status report.text) }
{
    let formed = match formed_problem(alloc, library, file, root) {
        Ok(formed) => formed,
        Err(stop) => return stop.report(alloc, file),
    };
    match library.load(alloc, derivation, MOST_TEXT_BYTES) {
        Ok(text) => listing_report(alloc, &formed, text.as_slice()),
        Err(LoadFault::TooLong) => Report::refused(alloc, 0, Cause::Text),
        Err(LoadFault::Failed) => Report::unloaded(alloc, file, derivation.as_bytes()),
        Err(LoadFault::NoMemory) => Err(NoMemory),
    }
}

/// The report on the text of a derivation.
fn listing_report(alloc: Global, formed: &FormedProblem, text: &[u8]) -> Mem<Report>
    requires form { form_of formed.now.form ≡ clausal_form formed.now.problem.formulas }
    requires small { length text.now ≤ MOST_TEXT_BYTES }
    ensures { IfOk result (λ report. IsListing formed.now.problem.formulas text.now report.status report.text) }
{
    match read_lines(alloc, &formed.problem, &formed.form, text) {
        Ok(lines) => accepted_report(alloc, formed, text, &lines),
        Err(CheckFault::Refused { line, cause }) => Report::refused(alloc, line, cause),
        Err(CheckFault::NoMemory) => Err(NoMemory),
    }
}

/// The report on the lines of a text that is accepted.
fn accepted_report(
    alloc: Global,
    formed: &FormedProblem,
    text: &[u8],
    lines: &Derivation,
) -> Mem<Report>
    requires form { form_of formed.now.form ≡ clausal_form formed.now.problem.formulas }
    requires accepted { AreAcceptedLines formed.now.problem.formulas text.now lines.now }
    ensures { IfOk result (λ report. IsListing formed.now.problem.formulas text.now report.status report.text) }
{
    match ground_list(alloc, &formed.form, lines) {
        Ok(list) => Report::listed(alloc, formed.form.signature.as_slice(), &list),
        Err(GroundFault::Names(line)) => Report::names_met(alloc, line),
        Err(GroundFault::Large) => Report::large(alloc),
        Err(GroundFault::NoMemory) => Err(NoMemory),
    }
}
