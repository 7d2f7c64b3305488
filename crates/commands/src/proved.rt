// A problem from its formulas to the outcome of a pool of its clauses, or of a part of them.

ghost use Rattle.std.specs.Prelude.{◌≡◌, ◌≤◌, map, None, IfOk, IfErr, IsTrue};
ghost use Rattle.tptp_tree.specs.ProblemSize.{HasProblemSize};
ghost use Rattle.fol_base.specs.Literal.{clause_of};
ghost use Rattle.signature.specs.Form.{clausal_form};
ghost use Rattle.clausal_form.specs.Fault.{form_fault};
ghost use Rattle.clausal_form.specs.Form.{form_of};
ghost use Rattle.laws_meaning.specs.Meaning.{are_closed};
ghost use Rattle.pool_history.specs.Inputs.{AreInputs, IsLimit};
ghost use Rattle.pool_history.specs.Replay.{replay};
ghost use Rattle.command_reports.specs.Meaning.{FormMeans};
ghost use Rattle.command_reports.specs.Parts.{AreOfForm};
ghost use Rattle.commands.specs.AnswerShape.{IsProvedForm, IsProvedPart, IsProvedProblem, IsProveFault, OutcomeSays, PoolSays};

use axiom_filter::{Restricted, restrict};
use clausal_form::{Clausal, FormCause, FormFault, clausal};
use fol_base::Clauses;
use laws_saturation::laws::saturated_is_saturated;
use plain_types::{Mem, Numbers, Text};
use pool_core::{Options, Outcome, Pool};
use pool_history::MOST_WORKERS;
use std::alloc::Global;
use std::sync::Wait;
use std::thread::Threads;
use term_bank::Bank;
use tptp_tree::Problem;
use worker_team::{Gate, prove_clauses};

/// A pool of a problem's clausal form that has ended, with its outcome, the bank of its terms, and the form.
#[derive(Drop)]
pub struct Proved {
    pub outcome: Outcome,
    pub pool: Pool,
    pub bank: Bank,
    pub form: Clausal,
}

/// A pool of a part of a problem's clausal form that has ended, with its outcome and the bank of its terms; and the part.
#[derive(Drop)]
pub struct ProvedPart {
    pub proved: worker_team::Proved,
    pub restricted: Restricted,
}

/// Why a problem isn't worked on.
#[derive(Drop)]
pub enum ProveFault {
    NoMemory,
    /// It has no clausal form, because of the formula of a name.
    Form(FormCause, Text),
}

/// Brings a problem to clausal form, and so many workers work on a pool of its clauses until an outcome stands. What the form
/// means and what the outcome says of the problem is told here. Each worker passes the gate before each of its jobs.
pub fn prove_problem<R: Threads + Wait + Sync, G: Gate + Sync>(
    rt: &R,
    alloc: Global,
    problem: &Problem,
    options: Options,
    workers: u32,
    gate: &G,
) -> Result<Proved, ProveFault>
    requires size { HasProblemSize problem.now.formulas }
    requires limit { IsLimit options }
    requires workers { (1 ≤ workers) × (workers ≤ MOST_WORKERS) }
    ensures proved { IfOk result (IsProvedProblem problem.now.formulas options) }
    ensures means { IfOk result (λ p. IsTrue (are_closed problem.now.formulas) → FormMeans problem.now.formulas (form_of p.form)) }
    ensures says { IfOk result (λ p. OutcomeSays problem.now.formulas (clausal_form problem.now.formulas).clauses options (replay p.pool.origin p.pool.history) p.outcome) }
    ensures refused { IfErr result (IsProveFault problem.now.formulas) }
{
    match clausal(alloc, problem) {
        Ok(form) => match prove_form(rt, alloc, problem, &form.clauses, options, workers, gate) {
            Ok(proved) => Ok(Proved {
                outcome: proved.outcome,
                pool: proved.pool,
                bank: proved.bank,
                form,
            }),
            Err(_) => Err(ProveFault::NoMemory),
        },
        Err(FormFault::NoMemory) => Err(ProveFault::NoMemory),
        Err(FormFault::Refused(cause, name)) => Err(ProveFault::Form(cause, name)),
    }
}

/// So many workers work on a pool of the clauses of a problem's clausal form, or of a part of it, until an outcome stands, however the problem
/// came. What the outcome says of the problem is told.
pub fn prove_form<R: Threads + Wait + Sync, G: Gate + Sync>(
    rt: &R,
    alloc: Global,
    problem: &Problem,
    inputs: &Clauses,
    options: Options,
    workers: u32,
    gate: &G,
) -> Mem<worker_team::Proved>
    requires within { form_fault problem.now.formulas ≡ None }
    requires inputs { AreOfForm problem.now.formulas (map clause_of inputs.now) }
    requires limit { IsLimit options }
    requires workers { (1 ≤ workers) × (workers ≤ MOST_WORKERS) }
    ensures proved { IfOk result (IsProvedForm problem.now.formulas (map clause_of inputs.now) options) }
    ensures says { IfOk result (PoolSays problem.now.formulas (map clause_of inputs.now) options) }
{
    prove_inputs(problem, inputs);
    saturated_is_saturated();
    prove_clauses(rt, alloc, inputs, options, workers, gate)
}

/// The clauses of a problem's form, or of a part of it, are such as a pool may begin with.
fn prove_inputs(problem: &Problem, inputs: &Clauses)
    requires within { form_fault problem.now.formulas ≡ None }
    requires inputs { AreOfForm problem.now.formulas (map clause_of inputs.now) }
    ensures { AreInputs (map clause_of inputs.now) }
{}

/// So many workers work on a pool of those clauses of a problem's form that come from the formulas at some places, until an outcome stands. What the
/// outcome says of the problem is told.
pub fn prove_part<R: Threads + Wait + Sync, G: Gate + Sync>(
    rt: &R,
    alloc: Global,
    problem: &Problem,
    form: &Clausal,
    kept: &Numbers,
    options: Options,
    workers: u32,
    gate: &G,
) -> Mem<ProvedPart>
    requires within { form_fault problem.now.formulas ≡ None }
    requires form { form_of form.now ≡ clausal_form problem.now.formulas }
    requires limit { IsLimit options }
    requires workers { (1 ≤ workers) × (workers ≤ MOST_WORKERS) }
    ensures { IfOk result (IsProvedPart problem.now.formulas kept.now options) }
{
    let restricted = restrict(alloc, &form.clauses, &form.origins, kept)?;
    let proved = prove_form(
        rt,
        alloc,
        problem,
        &restricted.clauses,
        options,
        workers,
        gate,
    )?;
    Ok(ProvedPart { proved, restricted })
}
