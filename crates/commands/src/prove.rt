// What `prove` reports: a pool of the clausal form, or of the part that a selection keeps, is worked on until an outcome stands, and the
// report is made of it.

ghost use Rattle.std.specs.Prelude.{◌≡◌, ◌<◌, ◌≤◌, length, None, Some, IfOk, IsTrue};
ghost use Rattle.std.specs.Option.{option_copied};
ghost use Rattle.signature.specs.Form.{clausal_form};
ghost use Rattle.clausal_form.specs.Form.{form_of};
ghost use Rattle.clausal_form.specs.Fault.{form_fault};
ghost use Rattle.laws_meaning.specs.Meaning.{has_conjecture};
ghost use Rattle.pool_history.specs.Inputs.{IsLimit};
ghost use Rattle.command_words.specs.Words.{is_filled};
ghost use Rattle.command_reports.specs.Outside.{outside_by};
ghost use Rattle.command_reports.specs.Parts.{inputs_by};
ghost use Rattle.commands.specs.Problems.{source_at, IsReadReport};
ghost use Rattle.command_reports.specs.ProveReports.{IsProofReport, saturated_report, part_saturated_report};
ghost use Rattle.commands.specs.AnswerShape.{IsAdmissible, IsBeginning, IsProvedForm, PoolSays};

use crate::derivation::derivation_text;
use crate::problem::{FormedProblem, formed_problem};
use crate::proved::{prove_form, prove_part};
use axiom_filter::select;
use command_reports::Report;
use command_words::{AxiomSelection, ProveOptions};
use laws_saturation::laws::members_have_met;
use outside::Library;
use plain_types::{Mem, Numbers, Text};
use pool_core::Outcome;
use pool_history::MOST_WORKERS;
use pool_writer::{write_key, write_saturation};
use std::alloc::Global;
use std::sync::Wait;
use std::thread::Threads;
use tptp_tree::Annotated;
use worker_team::{Gate, Proved};

/// With which clauses of the form a pool began.
#[derive(Clone, Copy)]
struct Beginning<'a> {
    /// Their numbers in the form, where they are a part of it.
    numbers: Option<&'a Numbers>,
    /// How many formulas were left out.
    left_out: u64,
}

/// Reads the problem of a file, and proves by so many workers or gives up. The first stage that fails reports.
pub fn prove_report<R: Threads + Wait + Sync, L: Library, G: Gate + Sync>(
    rt: &R,
    alloc: Global,
    library: &mut L,
    file: &str,
    root: Option<&str>,
    options: ProveOptions,
    workers: u32,
    gate: &G,
) -> Mem<Report>
    requires limit { IsLimit options.pool }
    requires workers { (1 ≤ workers) × (workers ≤ MOST_WORKERS) }
    requires filled { IsTrue (is_filled file.now) }
    ensures { IfOk result (λ report. IsReadReport
        (outside_by L.told L.faults L.found L.failed library.old library.new)
        (source_at file.now (option_copied root.entry))
        (IsProofReport file.now options)
        report.status report.text) }
{
    match formed_problem(alloc, library, file, root) {
        Ok(formed) => formed_report(rt, alloc, file, &formed, options, workers, gate),
        Err(stop) => stop.report(alloc, file),
    }
}

/// Proves a problem that has its clausal form by so many workers, or gives up, however the problem came: it may be one that no file
/// spells, and then the file is the name that its derivations have in place of a file's.
pub fn formed_report<R: Threads + Wait + Sync, G: Gate + Sync>(
    rt: &R,
    alloc: Global,
    file: &str,
    formed: &FormedProblem,
    options: ProveOptions,
    workers: u32,
    gate: &G,
) -> Mem<Report>
    requires filled { IsTrue (is_filled file.now) }
    requires limit { IsLimit options.pool }
    requires workers { (1 ≤ workers) × (workers ≤ MOST_WORKERS) }
    requires admissible { IsAdmissible formed.now.problem.formulas }
    requires within { form_fault formed.now.problem.formulas ≡ None }
    requires form { form_of formed.now.form ≡ clausal_form formed.now.problem.formulas }
    ensures { IfOk result (λ report. IsProofReport file.now options formed.now.problem.formulas report.status report.text) }
{
    match options.axioms {
        None => whole_report(rt, alloc, file, formed, options, workers, gate),
        Some(selection) => {
            part_report(rt, alloc, file, formed, selection, options, workers, gate)
        }
    }
}

/// Proves by all clauses of the form.
fn whole_report<R: Threads + Wait + Sync, G: Gate + Sync>(
    rt: &R,
    alloc: Global,
    file: &str,
    formed: &FormedProblem,
    options: ProveOptions,
    workers: u32,
    gate: &G,
) -> Mem<Report>
    requires filled { IsTrue (is_filled file.now) }
    requires limit { IsLimit options.pool }
    requires workers { (1 ≤ workers) × (workers ≤ MOST_WORKERS) }
    requires whole { options.axioms ≡ None }
    requires admissible { IsAdmissible formed.now.problem.formulas }
    requires within { form_fault formed.now.problem.formulas ≡ None }
    requires form { form_of formed.now.form ≡ clausal_form formed.now.problem.formulas }
    ensures { IfOk result (λ report. IsProofReport file.now options formed.now.problem.formulas report.status report.text) }
{
    let inputs = &formed.form.clauses;
    let proved = prove_form(
        rt,
        alloc,
        &formed.problem,
        inputs,
        options.pool,
        workers,
        gate,
    )?;
    let beginning = Beginning {
        numbers: None,
        left_out: 0,
    };
    proof_report(alloc, file, formed, &proved, beginning, options)
}

/// Proves by the clauses of the formulas that the selection keeps.
fn part_report<R: Threads + Wait + Sync, G: Gate + Sync>(
    rt: &R,
    alloc: Global,
    file: &str,
    formed: &FormedProblem,
    selection: AxiomSelection,
    options: ProveOptions,
    workers: u32,
    gate: &G,
) -> Mem<Report>
    requires filled { IsTrue (is_filled file.now) }
    requires limit { IsLimit options.pool }
    requires workers { (1 ≤ workers) × (workers ≤ MOST_WORKERS) }
    requires selected { options.axioms ≡ Some selection }
    requires admissible { IsAdmissible formed.now.problem.formulas }
    requires within { form_fault formed.now.problem.formulas ≡ None }
    requires form { form_of formed.now.form ≡ clausal_form formed.now.problem.formulas }
    ensures { IfOk result (λ report. IsProofReport file.now options formed.now.problem.formulas report.status report.text) }
{
    let problem = &formed.problem;
    let kept = select(alloc, problem, selection.tolerance, selection.depth)?;
    let part = prove_part(
        rt,
        alloc,
        problem,
        &formed.form,
        &kept,
        options.pool,
        workers,
        gate,
    )?;
    let left_out = problem.formulas.len().saturating_sub(kept.len());
    let beginning = Beginning {
        numbers: Some(&part.restricted.numbers),
        left_out: left_out as u64,
    };
    proof_report(alloc, file, formed, &part.proved, beginning, options)
}

/// The report of the pool of a problem's form, or of a part of it, that has ended. What the outcome says of the problem is handed in.
fn proof_report(
    alloc: Global,
    file: &str,
    formed: &FormedProblem,
    proved: &Proved,
    beginning: Beginning<'_>,
    options: ProveOptions,
) -> Mem<Report>
    requires filled { IsTrue (is_filled file.now) }
    requires admissible { IsAdmissible formed.now.problem.formulas }
    requires form { form_of formed.now.form ≡ clausal_form formed.now.problem.formulas }
    requires proved { IsProvedForm formed.now.problem.formulas (inputs_by options.axioms formed.now.problem.formulas) options.pool proved.now }
    requires says { PoolSays formed.now.problem.formulas (inputs_by options.axioms formed.now.problem.formulas) options.pool proved.now }
    requires begins { IsBeginning formed.now.problem.formulas options.axioms beginning }
    ensures { IfOk result (λ report. IsProofReport file.now options formed.now.problem.formulas report.status report.text) }
{
    let formulas = formed.problem.formulas.as_slice();
    match proved.outcome {
        Outcome::Refuted => {
            let derivation = derivation_text(alloc, file, formed, &proved.pool, beginning.numbers)?;
            Report::refuted(alloc, file, has_conjecture(formulas), &derivation)
        }
        Outcome::Saturated => {
            members_have_met();
            let members = write_saturation(alloc, &formed.form, &proved.bank, &proved.pool)?;
            saturation_report(alloc, file, formulas, beginning.left_out, &members)
        }
        Outcome::Spent(count) => Report::spent(alloc, file, count, options.pool.inferences),
        Outcome::Heavy(place) => {
            let key = write_key(alloc, proved.pool.heavy_key(place))?;
            Report::heavy(alloc, file, &key)
        }
    }
}

/// The report of a saturated set: of all formulas, or of a part, where some were left out.
fn saturation_report(
    alloc: Global,
    file: &str,
    formulas: &[Annotated],
    left_out: u64,
    members: &Text,
) -> Mem<Report>
    ensures whole { left_out ≡ 0 → IfOk result (λ report. (report.status ≡ 1)
        × (report.text ≡ saturated_report file.now (has_conjecture formulas.now) members.now)) }
    ensures part { 0 < left_out → IfOk result (λ report. (report.status ≡ 10)
        × (report.text ≡ part_saturated_report file.now left_out (length formulas.now) members.now)) }
{
    if left_out == 0 {
        Report::saturated(alloc, file, has_conjecture(formulas), members)
    } else {
        Report::part_saturated(alloc, file, left_out, formulas.len() as u64, members)
    }
}

/// Whether one of the formulas is a conjecture.
pub fn has_conjecture(formulas: &[Annotated]) -> bool
    ensures { result ≡ has_conjecture formulas.now }
{
    formulas.iter().any(|formula| formula.role.is_conjecture())
}
