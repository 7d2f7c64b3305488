// A refutation made again from its steps and the parts for which its names stand. A line's clause is its step's conclusion, or, where the
// step introduces a name, the name's part or the complement of that. It is made where the last line needs it.

ghost use Rattle.std.specs.Prelude.{◌≡◌, ◌<◌, length, map, IfOk, IsTrue};
ghost use Rattle.fol_base.specs.Clause.{TreeClause};
ghost use Rattle.fol_base.specs.Literal.{clause_of};
ghost use Rattle.kernel_steps.specs.Conclusion.{empty_clause, is_rule_step, verdict, concludes};
ghost use Rattle.kernel_steps.specs.Derivation.{line_parents, IsRefutation};
ghost use Rattle.kernel_steps.specs.ParentNumbers.{with_parents};
ghost use Rattle.kernel_steps.specs.Split.{is_rising};
ghost use Rattle.split_parts.specs.SignedNames.{named};
ghost use Rattle.tstp_writer.specs.Cone.{AreAllNeeded, StepsNeedEarlier};
ghost use Rattle.pool_writer.specs.Bodies.{ComesWithBody};
ghost use Rattle.pool_writer.specs.Retraced.{place_among, AreRefutingSteps, IsRetracing};

use crate::introduced::introducing_clause;
use fol_base::{Clause, Clauses, Literals};
use kernel_steps::{Derivation, Line, Step, StepFault, conclusion};
use plain_types::{Mem, NameLit, Names, NoMemory};
use split_parts::NameTable;
use std::alloc::Global;
use tstp_writer::cone_of;

/// The refutation that has these steps, of the lines that the last one needs alone, in order: each with its parents' places for their
/// numbers. Its names stand for the parts of the table, which is empty where nothing was split. Only the clauses of these lines are made,
/// each once. Linear in the steps by a byte each, and else in the result, where a parent's place is searched by halves.
pub fn refutation(
    alloc: Global,
    form: &Clauses,
    parts: &NameTable,
    steps: &[Step],
) -> Mem<Derivation>
    requires { AreRefutingSteps (map clause_of form.now) (named parts.now.parts) steps.now }
    ensures refutes { IfOk result (IsRefutation (map clause_of form.now)) }
    ensures retraced { IfOk result (IsRetracing (map clause_of form.now) (named parts.now.parts) steps.now) }
    ensures all_needed { IfOk result AreAllNeeded }
{
    prove_steps(form, parts, steps);
    let numbers = cone_of(alloc, steps, steps.len() - 1)?;
    let numbers = numbers.as_slice();
    let mut lines = Derivation::from_vec(Vec::with_capacity(alloc, numbers.len())?);
    for number in numbers {
        let step = &steps[*number as usize];
        let line = retraced(alloc, form, parts, step, numbers, &lines)?;
        lines.push(line)?;
    }
    Ok(lines)
}

/// There is a step, and each needs earlier ones alone.
fn prove_steps(form: &Clauses, parts: &NameTable, steps: &[Step])
    requires { AreRefutingSteps (map clause_of form.now) (named parts.now.parts) steps.now }
    ensures some { 0 < length steps.now }
    ensures earlier { StepsNeedEarlier steps.now }
{}

/// The line of a step whose parents are among these lines, at their places.
fn retraced(
    alloc: Global,
    form: &Clauses,
    parts: &NameTable,
    step: &Step,
    numbers: &[u64],
    lines: &Derivation,
) -> Mem<Line>
    requires rising { IsTrue (is_rising numbers.now) }
    requires comes { (c : TreeClause)
        × ComesWithBody (map clause_of form.now) (named parts.now.parts) (with_parents (place_among numbers.now) step.now) lines.now c }
    ensures step { IfOk result (λ line. line.step ≡ with_parents (place_among numbers.now) step.now) }
    ensures clause { IfOk result (λ line. ComesWithBody (map clause_of form.now) (named parts.now.parts) line.step lines.now (clause_of line.clause)) }
{
    let step = renumbered(alloc, step, numbers)?;
    let clause = clause_by(alloc, form, parts, &step, lines)?;
    Ok(Line { step, clause })
}

/// The clause to which a step leads from these lines. The line of a formula has no clause of its own, and so the empty one.
fn clause_by(
    alloc: Global,
    form: &Clauses,
    parts: &NameTable,
    step: &Step,
    lines: &Derivation,
) -> Mem<Clause>
    requires { (c : TreeClause) × ComesWithBody (map clause_of form.now) (named parts.now.parts) step.now lines.now c }
    ensures { IfOk result (λ clause. ComesWithBody (map clause_of form.now) (named parts.now.parts) step.now lines.now (clause_of clause)) }
{
    match step {
        Step::Input(_) | Step::Negate(_) => Ok(no_clause(alloc)),
        Step::Clausify(number) => form.as_slice()[*number as usize].copy(alloc),
        Step::Component(name) => {
            let introduced = NameLit {
                positive: true,
                name: *name,
            };
            introducing_clause(alloc, parts, introduced)
        }
        Step::Opposite(name) => {
            let introduced = NameLit {
                positive: false,
                name: *name,
            };
            introducing_clause(alloc, parts, introduced)
        }
        _ => clause_by_rule(alloc, step, lines),
    }
}

/// The clause without literals and names.
fn no_clause(alloc: Global) -> Clause
    ensures { clause_of result ≡ empty_clause }
{
    Clause {
        literals: Literals::new(alloc),
        names: Names::new(alloc),
    }
}

/// The conclusion by a rule, where there is one.
fn clause_by_rule(alloc: Global, step: &Step, lines: &Derivation) -> Mem<Clause>
    requires rule { IsTrue (is_rule_step step.now) }
    requires concludes { (c : TreeClause) × (verdict step.now (line_parents lines.now) ≡ concludes c) }
    ensures { IfOk result (λ clause. verdict step.now (line_parents lines.now) ≡ concludes (clause_of clause)) }
{
    match conclusion(alloc, step, lines) {
        Ok(clause) => Ok(clause),
        Err(StepFault::NoMemory) => Err(NoMemory),
        Err(StepFault::Binding | StepFault::Rule) => unreachable!(),
    }
}

/// A step with the places among rising numbers of its parents for their numbers.
fn renumbered(alloc: Global, step: &Step, numbers: &[u64]) -> Mem<Step>
    requires { IsTrue (is_rising numbers.now) }
    ensures { IfOk result (λ made. made ≡ with_parents (place_among numbers.now) step.now) }
{
    let step = step.copy(alloc)?;
    Ok(step.map_parents(|parent| place_among(numbers, parent)))
}

/// The place of a number among rising ones: after those that are less.
fn place_among(numbers: &[u64], number: u64) -> u64
    requires { IsTrue (is_rising numbers.now) }
    ensures { result ≡ place_among numbers.now number }
{
    match numbers.binary_search(&number) {
        Ok(place) => place as u64,
        Err(place) => place as u64,
    }
}
