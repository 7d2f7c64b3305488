// The two lines of a cut.

ghost use Rattle.std.specs.Prelude.{◌≡◌, ◌<◌, IfOk, false, length, true};
ghost use Rattle.fol_base.specs.Lent.{lent_of};
ghost use Rattle.fol_base.specs.Literal.{clause_of};
ghost use Rattle.fol_base.specs.Numbering.{with_variables};
ghost use Rattle.fol_base.specs.Term.{tree_of};
ghost use Rattle.kernel_steps.specs.Names.{sorted_names};
ghost use Rattle.bank_clause.specs.Clause.{clause_at, IsMemberOf};
ghost use Rattle.unit_cutting.specs.Cutting.{fitting_side, open_side, opposite_side};
ghost use Rattle.unit_cutting.specs.CutSteps.{AreLinesOfCut, IsCutOf, IsFirstLineOf, before_last_variables};
ghost use Rattle.kernel_steps.specs.Lines.{own_terms};

use crate::cutting::Cut;
use crate::removing::{own_terms, trivial_line};
use crate::superposing::{Premise, superposition_line};
use bank_clause::Member;
use eq_rules::{Renumbering, number_literals, number_term};
use fol_base::{Clause, LendsLiterals, LiteralRef, Side, Term, Terms};
use kernel_steps::{Line, sorted_names};
use plain_types::{Mem, Names, NoMemory};
use std::alloc::Global;
use term_bank::Bank;

/// The lines of a cut: the superposition, and the equality resolution.
#[derive(Drop)]
pub(crate) struct CutLines {
    pub(crate) first: Line,
    pub(crate) second: Line,
}

/// The lines by which a unit cuts a literal of a clause that has a number as a parent.
pub(crate) fn cut_lines(
    alloc: Global,
    bank: &Bank,
    unit: &Member,
    clause: &Clause,
    number: u64,
    cut: &Cut<'_>,
) -> Mem<CutLines>
    requires member { IsMemberOf bank.now unit.now }
    requires cut { IsCutOf (clause_at unit.now.clause) (clause_of clause.now).literals cut.now }
    ensures { IfOk result (AreLinesOfCut unit.now (clause_of clause.now) number cut.now) }
{
    let first = first_line(alloc, bank, unit, clause, number, cut)?;
    let Some(after) = number.checked_add(1) else {
        return Err(NoMemory);
    };
    let index = if clause.literals.literal(cut.index).positive {
        0
    } else {
        cut.index
    };
    let second = trivial_line(alloc, &first.clause, after, index)?;
    Ok(CutLines { first, second })
}

/// The line in which the unit's literal and the one that it cuts make a trivial disequation. The unit's literal is superposed if it is
/// positive, else the clause's.
fn first_line(
    alloc: Global,
    bank: &Bank,
    unit: &Member,
    clause: &Clause,
    number: u64,
    cut: &Cut<'_>,
) -> Mem<Line>
    requires member { IsMemberOf bank.now unit.now }
    requires cut { IsCutOf (clause_at unit.now.clause) (clause_of clause.now).literals cut.now }
    ensures made { IfOk result (IsFirstLineOf unit.now (clause_of clause.now) number cut.now) }
    ensures names { IfOk result (λ line. line.clause.names ≡ sorted_names clause.now.names) }
{
    let unit_literals = unit.clause.lend(bank);
    let unit_terms = cut.fitting.terms.subst(unit.clause.variable_bound())?;
    let own = own_terms(alloc, clause)?;
    let names = Names::from_vec(sorted_names(alloc, clause.names.as_slice())?);
    let literal = clause.literals.literal(cut.index);
    let side = open_side(literal);
    let of_unit = Premise {
        number: u64::from(unit.number),
        literals: &unit_literals,
        terms: &unit_terms,
        index: 0,
        side: fitting_side(cut.fitting.crossed, side),
    };
    let of_clause = Premise {
        number,
        literals: &clause.literals,
        terms: &own,
        index: cut.index,
        side,
    };
    let kept = literal.other_side(side);
    let mut numbers = Renumbering::new(alloc);
    if literal.positive {
        number_first(&mut numbers, clause, &own, cut.index, kept)?;
        let line = superposition_line(alloc, &of_clause, &of_unit, &mut numbers, names)?;
        Ok(line)
    } else {
        number_in_place(&mut numbers, clause, &own, cut.index, kept)?;
        let line = superposition_line(alloc, &of_unit, &of_clause, &mut numbers, names)?;
        Ok(line)
    }
}

/// Numbers the variables of a trivial disequation, whose sides are a term, and of the literals but one after it.
fn number_first(
    numbers: &mut Renumbering,
    clause: &Clause,
    own: &Terms,
    index: usize,
    kept: &Term,
) -> Mem<()>
    requires inside { index < length (clause_of clause.now).literals }
    requires own { own.now ≡ own_terms (clause_of clause.now) }
    ensures { IfOk result (λ _. numbers.new ≡ with_variables numbers.old (before_last_variables true (clause_of clause.now) index (tree_of kept.now))) }
{
    let count = clause.literals.count();
    number_term(numbers, kept)?;
    number_term(numbers, kept)?;
    number_literals(numbers, &clause.literals, own, 0, index)?;
    number_literals(numbers, &clause.literals, own, index + 1, count)?;
    Ok(())
}

/// Numbers the variables of the literals, with a trivial disequation in the place of one.
fn number_in_place(
    numbers: &mut Renumbering,
    clause: &Clause,
    own: &Terms,
    index: usize,
    kept: &Term,
) -> Mem<()>
    requires inside { index < length (clause_of clause.now).literals }
    requires own { own.now ≡ own_terms (clause_of clause.now) }
    ensures { IfOk result (λ _. numbers.new ≡ with_variables numbers.old (before_last_variables false (clause_of clause.now) index (tree_of kept.now))) }
{
    let count = clause.literals.count();
    number_literals(numbers, &clause.literals, own, 0, index)?;
    number_term(numbers, kept)?;
    number_term(numbers, kept)?;
    number_literals(numbers, &clause.literals, own, index + 1, count)?;
    Ok(())
}

/// A side that isn't `$true`, of a literal that has one.
fn open_side(literal: LiteralRef<'_>) -> Side
    ensures { result ≡ open_side (lent_of literal.entry) }
{
    if literal.left.is_truth() {
        Side::Right
    } else {
        Side::Left
    }
}

/// The side that becomes a side of the literal that fits.
fn fitting_side(crossed: bool, side: Side) -> Side
    ensures { result ≡ fitting_side crossed side }
{
    if crossed { opposite_side(side) } else { side }
}

fn opposite_side(side: Side) -> Side
    ensures { result ≡ opposite_side side }
{
    match side {
        Side::Left => Side::Right,
        Side::Right => Side::Left,
    }
}
