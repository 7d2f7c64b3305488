// What `check` reports.

ghost use Rattle.std.specs.Prelude.{◌≡◌, ◌≤◌, IfOk, IsTrue, length};
ghost use Rattle.std.specs.Option.{option_copied};
ghost use Rattle.signature.specs.Form.{clausal_form};
ghost use Rattle.clausal_form.specs.Form.{form_of};
ghost use Rattle.laws_meaning.specs.Meaning.{are_closed};
ghost use Rattle.command_reports.specs.Outside.{outside_by};
ghost use Rattle.commands.specs.Problems.{source_at, IsReadReport};
ghost use Rattle.command_reports.specs.CheckReports.{IsCheckReport};
ghost use Rattle.commands.specs.AnswerShape.{IsJudgement};

use crate::problem::{FormedProblem, formed_problem};
use command_reports::Report;
use outside::{Library, LoadFault};
use plain_types::{Mem, NoMemory};
use std::alloc::Global;
use tptp_token::MOST_TEXT_BYTES;
use tstp_checker::{Accepted, Cause, CheckFault, check};

/// Reads the problem of a file, brings it to clausal form, loads the derivation and checks it. The first stage that fails reports.
pub fn check_report<L: Library>(
    alloc: Global,
    library: &mut L,
    file: &str,
    derivation: &str,
    root: Option<&str>,
) -> Mem<Report>
    ensures { IfOk result (λ report. IsReadReport
        (outside_by L.told L.faults L.found L.failed library.old library.new)
        (source_at file.now (option_copied root.entry))
        (IsCheckReport (outside_by L.told L.faults L.found L.failed library.old library.new) file.now derivation.now)
        report.status report.text) }
{
    let formed = match formed_problem(alloc, library, file, root) {
        Ok(formed) => formed,
        Err(stop) => return stop.report(alloc, file),
    };
    match library.load(alloc, derivation, MOST_TEXT_BYTES) {
        Ok(text) => judged(alloc, &formed, text.as_slice()),
        Err(LoadFault::TooLong) => Report::refused(alloc, 0, Cause::Text),
        Err(LoadFault::Failed) => Report::unloaded(alloc, file, derivation.as_bytes()),
        Err(LoadFault::NoMemory) => Err(NoMemory),
    }
}

/// The report on the text of a derivation.
fn judged(alloc: Global, formed: &FormedProblem, text: &[u8]) -> Mem<Report>
    requires closed { IsTrue (are_closed formed.now.problem.formulas) }
    requires form { form_of formed.now.form ≡ clausal_form formed.now.problem.formulas }
    requires small { length text.now ≤ MOST_TEXT_BYTES }
    ensures { IfOk result (λ report. IsJudgement formed.now.problem.formulas text.now report.status report.text) }
{
    match check(alloc, &formed.problem, &formed.form, text) {
        Ok(Accepted { lines }) => Report::accepted(alloc, lines),
        Err(CheckFault::Refused { line, cause }) => Report::refused(alloc, line, cause),
        Err(CheckFault::NoMemory) => Err(NoMemory),
    }
}
