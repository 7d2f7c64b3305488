// What `decide` reports: whether some interpretation makes a clausal form without variables true.

ghost use Rattle.std.specs.Prelude.{◌≡◌, ◌<◌, IfOk, length, slice_index_or};
ghost use Rattle.std.specs.Option.{option_copied};
ghost use Rattle.signature.specs.Form.{clausal_form};
ghost use Rattle.clausal_form.specs.Form.{form_of};
ghost use Rattle.command_reports.specs.Outside.{outside_by};
ghost use Rattle.commands.specs.Problems.{source_at, IsReadReport};
ghost use Rattle.command_reports.specs.DecideReports.{name_at, origin_name, IsDecideReport};

use crate::problem::{FormedProblem, formed_problem};
use command_reports::Report;
use herbrand_list::{ground_refuted, open_clause};
use outside::Library;
use plain_types::Mem;
use std::alloc::Global;
use tptp_tree::Annotated;

/// Reads the problem of a file, brings it to clausal form, and decides whether some interpretation makes the form true, where it has no
/// variable. The first stage that fails reports.
pub fn decide_report<L: Library>(
    alloc: Global,
    library: &mut L,
    file: &str,
    root: Option<&str>,
) -> Mem<Report>
    ensures { IfOk result (λ report. IsReadReport
        (outside_by L.told L.faults L.found L.failed library.old library.new)
        (source_at file.now (option_copied root.entry))
        (IsDecideReport file.now)
        report.status report.text) }
{
    match formed_problem(alloc, library, file, root) {
        Ok(formed) => decision_report(alloc, file, &formed),
        Err(stop) => stop.report(alloc, file),
    }
}

/// The report on a problem that has its clausal form.
fn decision_report(alloc: Global, file: &str, formed: &FormedProblem) -> Mem<Report>
    requires form { form_of formed.now.form ≡ clausal_form formed.now.problem.formulas }
    ensures { IfOk result (λ report. IsDecideReport file.now formed.now.problem.formulas report.status report.text) }
{
    match open_clause(&formed.form.clauses) {
        Some(number) => Report::not_ground(alloc, file, origin_name(formed, number)),
        None => {
            let refuted = ground_refuted(alloc, &formed.form.clauses)?;
            Report::decided(alloc, refuted)
        }
    }
}

/// The name of the formula from which a clause of the form comes.
fn origin_name(formed: &FormedProblem, number: usize) -> &[u8]
    requires form { form_of formed.now.form ≡ clausal_form formed.now.problem.formulas }
    requires within { number < length formed.now.form.clauses }
    ensures { result.now ≡ origin_name formed.entry.now.problem.formulas number }
{
    let origins = formed.form.origins.as_slice();
    let formulas = formed.problem.formulas.as_slice();
    name_at(origins, formulas, number)
}

/// The name of the formula at the place that a list has for a number.
fn name_at<'a>(places: &[u64], formulas: &'a [Annotated], number: usize) -> &'a [u8]
    requires number { number < length places.now }
    requires place { slice_index_or places.now number 0 < length formulas.now }
    ensures { result.now ≡ name_at formulas.entry.now places.now number }
{
    let place = places[number] as usize;
    formulas[place].name.as_slice()
}
