// A problem that no file spells.

ghost use Rattle.std.specs.Prelude.{◌≡◌, false, IfOk};
ghost use Rattle.tptp_tree.specs.declared.role.Role.TheVariants.{Axiom, Conjecture};
ghost use Rattle.pool_history.specs.Inputs.{IsLimit};
ghost use Rattle.commands.specs.AnswerShape.{IsAdmissible};
ghost use Rattle.commands.specs.Examples.{formula_in, made_formulas};

use command_words::DEFAULT_WORKERS;
use commands::prove_problem;
use literal_selection::Selection;
use plain_types::{DEFAULT_INFERENCES, Mem, Text};
use pool_core::{Options, Outcome};
use std::alloc::Global;
use tptp_tree::{Annotated, AnnotatedList, FileName, Formula, Problem, Role, TreeTerms};
use worker_team::NoGate;

/// The proposition `p` in a role.
fn proposition(alloc: Global, role: Role) -> Mem<Annotated>
    ensures { IfOk result (λ formula. formula ≡ formula_in role) }
{
    Ok(Annotated {
        name: Text::from_slice(alloc, b"a")?,
        role,
        clause: false,
        formula: Formula::Pred(Text::from_slice(alloc, b"p")?, TreeTerms::new(alloc)),
        file: FileName::from_slice(alloc, b"r")?,
        place: 0,
    })
}

/// The problem that `p` follows from `p`.
fn made_problem(alloc: Global) -> Mem<Problem>
    ensures { IfOk result (λ problem. problem.formulas ≡ made_formulas) }
{
    let mut formulas = AnnotatedList::new(alloc);
    formulas.push(proposition(alloc, Role::Axiom)?)?;
    formulas.push(proposition(alloc, Role::Conjecture)?)?;
    Ok(Problem { formulas })
}

/// It is one that the stages take.
fn made_is_admissible(problem: &Problem)
    requires made { problem.now.formulas ≡ made_formulas }
    ensures { IsAdmissible problem.now.formulas }
{}

/// The options of a run whose words name none.
fn options() -> Options
    ensures limit { IsLimit result }
{
    Options {
        select: Selection::Negative,
        split: true,
        inferences: DEFAULT_INFERENCES,
    }
}

#[test]
fn made_problems_are_refuted(rt: HostRuntime) {
    let problem = made_problem(rt.alloc()).expect(&rt, "memory");
    made_is_admissible(&problem);
    let proved = prove_problem(
        &rt,
        rt.alloc(),
        &problem,
        options(),
        DEFAULT_WORKERS,
        &NoGate,
    );
    let proved = proved.ok().expect(&rt, "a pool");
    assert!(rt; matches!(proved.outcome, Outcome::Refuted));
}
