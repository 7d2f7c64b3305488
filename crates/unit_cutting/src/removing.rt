// Lines by which one literal of a clause goes. The variables get their numbers first, in a walk that builds nothing, so what is left is
// built once, in canonical form.

ghost use Rattle.std.specs.Prelude.{◌≡◌, ◌<◌, length, IfOk};
ghost use Rattle.fol_base.specs.Literal.{clause_of};
ghost use Rattle.fol_base.specs.Rules.{resolved, merged};
ghost use Rattle.kernel_steps.specs.Names.{sorted_names};
ghost use Rattle.kernel_steps.specs.declared.step.Step.TheVariants.{Refl, Merge};
ghost use Rattle.unit_cutting.specs.Removing.{AreEqualAt, AreRenumbered, IsOwnStep, IsTrivialAt, plain_without};
ghost use Rattle.kernel_steps.specs.Lines.{own_terms};

use eq_rules::{Renumbering, number_literals, renamed_terms};
use fol_base::{Clause, LendsLiterals, Literals, Terms};
use kernel_steps::{Bound, Line, Step, merge, refl, sorted_names};
use plain_types::{Mem, Names, NoMemory};
use std::alloc::Global;
use unifier::Matched;

/// The variables of a clause, each as a term. Out of memory is also answered where there are more than there can be numbers below a `u32`.
pub(crate) fn own_terms(alloc: Global, clause: &Clause) -> Mem<Terms>
    ensures { IfOk result (λ terms. terms ≡ own_terms (clause_of clause.now)) }
{
    let Ok(count) = u32::try_from(clause.variable_bound()) else {
        return Err(NoMemory);
    };
    Matched::empty(alloc).subst(count)
}

/// The variables of a clause by new numbers, for what is left where a literal goes.
fn renumbered_without(alloc: Global, clause: &Clause, index: usize) -> Mem<Terms>
    requires { index < length (clause_of clause.now).literals }
    ensures { IfOk result (AreRenumbered (clause_of clause.now) (plain_without (clause_of clause.now) index)) }
{
    let terms = own_terms(alloc, clause)?;
    let mut numbers = Renumbering::new(alloc);
    let count = clause.literals.count();
    number_literals(&mut numbers, &clause.literals, &terms, 0, index)?;
    number_literals(&mut numbers, &clause.literals, &terms, index + 1, count)?;
    let bind = renamed_terms(alloc, &mut numbers, &terms)?;
    Ok(bind)
}

/// The line by which a literal `t != t` goes.
pub(crate) fn trivial_line(alloc: Global, clause: &Clause, parent: u64, index: usize) -> Mem<Line>
    requires { IsTrivialAt (clause_of clause.now) index }
    ensures { IfOk result (IsOwnStep (λ ls. resolved ls index) (λ bind. Refl parent index bind) (clause_of clause.now)) }
{
    let bind = renumbered_without(alloc, clause, index)?;
    let bound = Bound {
        literals: &clause.literals,
        bind: &bind,
    };
    match refl(alloc, &bound, index as u64)? {
        None => unreachable!(),
        Some(made) => {
            let clause = with_names_of(alloc, made, clause)?;
            let step = Step::Refl {
                parent,
                literal: index as u64,
                bind,
            };
            Ok(Line { step, clause })
        }
    }
}

/// The line by which the second of two equal literals goes.
pub(crate) fn equal_line(
    alloc: Global,
    clause: &Clause,
    parent: u64,
    stays: usize,
    goes: usize,
) -> Mem<Line>
    requires { AreEqualAt (clause_of clause.now) stays goes }
    ensures { IfOk result (IsOwnStep (λ ls. merged ls stays goes) (λ bind. Merge parent stays goes bind) (clause_of clause.now)) }
{
    let bind = renumbered_without(alloc, clause, goes)?;
    let bound = Bound {
        literals: &clause.literals,
        bind: &bind,
    };
    match merge(alloc, &bound, stays as u64, goes as u64)? {
        None => unreachable!(),
        Some(made) => {
            let clause = with_names_of(alloc, made, clause)?;
            let step = Step::Merge {
                parent,
                stays: stays as u64,
                goes: goes as u64,
                bind,
            };
            Ok(Line { step, clause })
        }
    }
}

/// A clause of these literals and the names of another one.
fn with_names_of(alloc: Global, literals: Literals, clause: &Clause) -> Mem<Clause>
    ensures literals { IfOk result (λ made. made.literals ≡ literals) }
    ensures names { IfOk result (λ made. made.names ≡ sorted_names clause.now.names) }
{
    let names = sorted_names(alloc, clause.names.as_slice())?;
    Ok(Clause {
        literals,
        names: Names::from_vec(names),
    })
}
