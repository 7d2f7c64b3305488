// What `model` reports: the least finite model of the problem, up to a size.

ghost use Rattle.std.specs.Prelude.{◌≡◌, ◌≤◌, IfOk};
ghost use Rattle.std.specs.Option.{option_copied};
ghost use Rattle.signature.specs.Form.{clausal_form};
ghost use Rattle.clausal_form.specs.Form.{form_of};
ghost use Rattle.command_reports.specs.Outside.{outside_by};
ghost use Rattle.commands.specs.Problems.{source_at, IsReadReport};
ghost use Rattle.command_reports.specs.ModelReports.{IsModelReport};
ghost use Rattle.commands.specs.AnswerShape.{IsAdmissible};
ghost use Rattle.command_words.specs.declared.command.TheConstants.{MOST_SIZE};

use crate::problem::{FormedProblem, formed_problem};
use crate::prove::has_conjecture;
use command_reports::Report;
use finite_models::{Found, find_model};
use model_writer::write_model;
use outside::Library;
use plain_types::Mem;
use std::alloc::Global;

/// Reads the problem of a file, and searches for a model of the sizes from 1 to `most`. The first stage that fails reports.
pub fn model_report<L: Library>(
    alloc: Global,
    library: &mut L,
    file: &str,
    root: Option<&str>,
    most: u32,
) -> Mem<Report>
    requires some_size { 1 ≤ most }
    requires few_sizes { most ≤ MOST_SIZE }
    ensures { IfOk result (λ report. IsReadReport
        (outside_by L.told L.faults L.found L.failed library.old library.new)
        (source_at file.now (option_copied root.entry))
        (IsModelReport file.now most)
        report.status report.text) }
{
    match formed_problem(alloc, library, file, root) {
        Ok(formed) => searched_report(alloc, file, &formed, most),
        Err(stop) => stop.report(alloc, file),
    }
}

/// The report of a search for a model of a problem that has its clausal form, however the problem came.
pub fn searched_report(alloc: Global, file: &str, formed: &FormedProblem, most: u32) -> Mem<Report>
    requires some_size { 1 ≤ most }
    requires few_sizes { most ≤ MOST_SIZE }
    requires admissible { IsAdmissible formed.now.problem.formulas }
    requires form { form_of formed.now.form ≡ clausal_form formed.now.problem.formulas }
    ensures { IfOk result (λ report. IsModelReport file.now most formed.now.problem.formulas report.status report.text) }
{
    let conjecture = has_conjecture(formed.problem.formulas.as_slice());
    match find_model(alloc, &formed.form, most)? {
        Found::Model(model) => {
            let table = write_model(alloc, &formed.problem, &model)?;
            Report::found(alloc, file, conjecture, &table)
        }
        Found::NoModel => Report::no_model(alloc, file, most),
        Found::TooLarge(size) => Report::too_large(alloc, file, size),
    }
}
