// The line of one rewriting step.

ghost use Rattle.std.specs.Prelude.{◌≡◌, ◌≤◌, ◌^◌, IfOk};
ghost use Rattle.fol_base.specs.Tree.{variable};
ghost use Rattle.fol_base.specs.Canonical.{terms_from};
ghost use Rattle.fol_base.specs.Literal.{clause_of};
ghost use Rattle.bank_clause.specs.Clause.{IsClauseOf, clause_at};
ghost use Rattle.rewriting.specs.Laws.{Becomes};
ghost use Rattle.rewriting.specs.Searching.{IsFoundOf};
ghost use Rattle.demodulate.specs.Steps.{IsLineOf, always};
ghost use Rattle.kernel_steps.specs.Lines.{own_terms};

use bank_clause::BankClause;
use eq_rules::{Renumbering, number_literals, renamed_terms};
use fol_base::{Clause, Term, Terms, renumbered};
use kernel_steps::{Bound, Line, Step, para};
use plain_types::Mem;
use rewriting::Found;
use std::alloc::Global;
use term_bank::Bank;

/// The line of a rewrite that was found in a clause, which has the number `parent`. The variables get their numbers in a walk over the
/// result and what the step binds.
pub(crate) fn rewriting_line(
    alloc: Global,
    bank: &Bank,
    unit: &BankClause,
    clause: &Clause,
    parent: u64,
    found: &Found<'_>,
) -> Mem<Line>
    requires of_bank { IsClauseOf bank.now unit.now }
    requires found { IsFoundOf (always (clause_at unit.now)) (clause_of clause.now).literals found.now }
    ensures { IfOk result (IsLineOf (clause_at unit.now) (clause_of clause.now) found.now parent) }
{
    let own = own_terms(alloc, clause.variable_bound())?;
    let made = rewritten(alloc, bank, unit, clause, &own, found)?;
    let terms = found.rewrite.terms.subst(unit.variable_bound())?;
    let mut numbers = Renumbering::new(alloc);
    number_literals(&mut numbers, &made.literals, &own, 0, made.literals.len())?;
    let first_bind = renamed_terms(alloc, &mut numbers, &terms)?;
    let second_bind = renamed_terms(alloc, &mut numbers, &own)?;
    let step = Step::Para {
        first: found.rewrite.number,
        second: parent,
        from: 0,
        from_side: found.rewrite.side,
        into: found.literal as u64,
        into_side: found.side,
        place: found.place.copy(alloc)?,
        first_bind,
        second_bind,
    };
    Ok(Line {
        step,
        clause: renumbered(alloc, &made)?,
    })
}

/// The clause rewritten by the unit.
fn rewritten(
    alloc: Global,
    bank: &Bank,
    unit: &BankClause,
    clause: &Clause,
    own: &Terms,
    found: &Found<'_>,
) -> Mem<Clause>
    requires of_bank { IsClauseOf bank.now unit.now }
    requires own { own.now ≡ own_terms (clause_of clause.now) }
    requires found { IsFoundOf (always (clause_at unit.now)) (clause_of clause.now).literals found.now }
    ensures { IfOk result (λ made. Becomes (clause_at unit.now) (clause_of clause.now) found.now (clause_of made)) }
{
    let equation = unit.lend(bank);
    let first = Bound {
        literals: &equation,
        bind: &found.rewrite.terms,
    };
    let second = Bound {
        literals: &clause.literals,
        bind: own,
    };
    let into = found.literal as u64;
    match para(
        alloc,
        &first,
        0,
        found.rewrite.side,
        &second,
        into,
        found.side,
        &found.place,
    )? {
        None => unreachable!(),
        Some(literals) => Ok(Clause {
            literals,
            names: clause.names.copy(alloc)?,
        }),
    }
}

/// The variables below a number, as terms.
fn own_terms(alloc: Global, count: u64) -> Mem<Terms>
    requires { count ≤ 2 ^ 32 }
    ensures { IfOk result (λ made. made ≡ terms_from 0 count variable) }
{
    let mut items = Vec::with_capacity(alloc, count as usize)?;
    for number in 0..count {
        items.push(Term::Var(number as u32))?;
    }
    Ok(Terms::from_vec(items))
}
