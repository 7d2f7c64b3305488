// What `bench` reports: the problem of a number, which no file spells, is proved as `prove` would, and the report sums the search up.

ghost use Rattle.std.specs.Prelude.{◌≡◌, ◌≤◌, None, Some, IfOk};
ghost use Rattle.signature.specs.Form.{clausal_form};
ghost use Rattle.clausal_form.specs.Form.{form_of};
ghost use Rattle.clausal_form.specs.Fault.{form_fault};
ghost use Rattle.pool_history.specs.Replay.{replay};
ghost use Rattle.pool_history.specs.Outcomes.{outcome_of};
ghost use Rattle.pool_history.specs.declared.outcome.Outcome.TheVariants.{Refuted};
ghost use Rattle.commands.specs.AnswerShape.{IsAdmissible, IsProvedForm, PoolSays, HasLines};
ghost use Rattle.commands.specs.BenchProblem.{bench_formulas};
ghost use Rattle.command_reports.specs.BenchReports.{bench_pool, IsBenchReport};
ghost use Rattle.command_words.specs.declared.command.TheConstants.{MOST_BENCH};

use crate::derivation::derivation_text;
use crate::numbered_problem::bench_problem;
use crate::problem::FormedProblem;
use crate::proved::prove_form;
use clausal_form::clausal;
use clausal_form::laws::texts_have_one_answer;
use command_reports::{GAVE_UP, PROVED, Report, SATURATED};
use command_words::{DEFAULT_WORKERS, default_options};
use laws_saturation::laws::members_have_met;
use plain_types::{Mem, NoMemory};
use pool_core::{Outcome, Pool};
use std::alloc::Global;
use std::sync::Wait;
use std::thread::Threads;
use tptp_token::MOST_TEXT_BYTES;
use tptp_tree::Problem;
use tstp_checker::{Accepted, CheckFault, check};
use worker_team::{Gate, Proved};

/// The name of the problem in place of a file's.
pub const BENCH_NAME: &str = "bench";

/// Proves the problem of a number by one worker with the options of `prove` where none is given, or gives up, and sums the search up.
pub fn bench_report<R: Threads + Wait + Sync, G: Gate + Sync>(
    rt: &R,
    alloc: Global,
    number: u32,
    gate: &G,
) -> Mem<Report>
    requires least { 1 ≤ number }
    requires most { number ≤ MOST_BENCH }
    ensures { IfOk result (λ report. IsBenchReport number (bench_formulas number) report.status report.text) }
{
    let formed = formed_bench(alloc, number)?;
    let inputs = &formed.form.clauses;
    let proved = prove_form(
        rt,
        alloc,
        &formed.problem,
        inputs,
        default_options(),
        DEFAULT_WORKERS,
        gate,
    )?;
    summary_report(alloc, number, &formed, &proved)
}

/// The problem of a number with its clausal form, which is within all limits, so that memory is all that may be wanting.
fn formed_bench(alloc: Global, number: u32) -> Mem<FormedProblem>
    requires least { 1 ≤ number }
    requires most { number ≤ MOST_BENCH }
    ensures made { IfOk result (λ formed. formed.problem.formulas ≡ bench_formulas number) }
    ensures admissible { IfOk result (λ formed. IsAdmissible formed.problem.formulas) }
    ensures within { IfOk result (λ formed. form_fault formed.problem.formulas ≡ None) }
    ensures form { IfOk result (λ formed. form_of formed.form ≡ clausal_form formed.problem.formulas) }
{
    let problem = bench_problem(alloc, number)?;
    bench_is_fit(&problem, number);
    let Ok(form) = clausal(alloc, &problem) else {
        return Err(NoMemory);
    };
    Ok(FormedProblem { problem, form })
}

/// The problem of a number is one that the stages take, and it has a clausal form.
fn bench_is_fit(problem: &Problem, number: u32)
    requires made { problem.now.formulas ≡ bench_formulas number }
    requires most { number ≤ MOST_BENCH }
    ensures admissible { IsAdmissible problem.now.formulas }
    ensures within { form_fault problem.now.formulas ≡ None }
{}

/// The summary of the pool of such a problem that has ended.
fn summary_report(
    alloc: Global,
    number: u32,
    formed: &FormedProblem,
    proved: &Proved,
) -> Mem<Report>
    requires admissible { IsAdmissible formed.now.problem.formulas }
    requires form { form_of formed.now.form ≡ clausal_form formed.now.problem.formulas }
    requires proved { IsProvedForm formed.now.problem.formulas (clausal_form formed.now.problem.formulas).clauses bench_pool proved.now }
    requires says { PoolSays formed.now.problem.formulas (clausal_form formed.now.problem.formulas).clauses bench_pool proved.now }
    ensures { IfOk result (λ report. IsBenchReport number formed.now.problem.formulas report.status report.text) }
{
    let counted = proved.pool.counted();
    match proved.outcome {
        Outcome::Refuted => {
            let lines = derivation_lines(alloc, formed, &proved.pool)?;
            Report::summary(alloc, PROVED, number, b"Theorem", counted, lines)
        }
        Outcome::Saturated => {
            members_have_met();
            Report::summary(alloc, SATURATED, number, b"CounterSatisfiable", counted, 0)
        }
        Outcome::Spent(_) => Report::summary(alloc, GAVE_UP, number, b"GaveUp", counted, 0),
        Outcome::Heavy(_) => Report::summary(alloc, GAVE_UP, number, b"GaveUp", counted, 0),
    }
}

/// How many lines the derivation of the refuted pool of such a problem has, as its check counts them. A text that is too long to be checked counts
/// as out of memory.
fn derivation_lines(alloc: Global, formed: &FormedProblem, pool: &Pool) -> Mem<u32>
    requires admissible { IsAdmissible formed.now.problem.formulas }
    requires form { form_of formed.now.form ≡ clausal_form formed.now.problem.formulas }
    requires refuted { outcome_of (replay pool.now.origin pool.now.history) ≡ Some Refuted }
    requires inputs { pool.now.origin.inputs ≡ (clausal_form formed.now.problem.formulas).clauses }
    ensures { IfOk result (HasLines formed.now.problem.formulas (replay pool.now.origin pool.now.history).lines) }
{
    texts_have_one_answer();
    let text = derivation_text(alloc, BENCH_NAME, formed, pool, None)?;
    let text = text.as_slice();
    if text.len() > MOST_TEXT_BYTES {
        return Err(NoMemory);
    }
    match check(alloc, &formed.problem, &formed.form, text) {
        Ok(Accepted { lines }) => Ok(lines),
        Err(CheckFault::NoMemory) => Err(NoMemory),
        Err(CheckFault::Refused { .. }) => unreachable!(),
    }
}
