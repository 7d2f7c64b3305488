// Units that cut a literal of a clause: it is the complement of an instance of the unit's literal, and goes by two lines, a superposition
// that makes it a trivial disequation, and an equality resolution.

ghost use Rattle.std.specs.Prelude.{◌≡◌, IfOk, OnErr};
ghost use Rattle.fol_base.specs.Lent.{lent_of};
ghost use Rattle.fol_base.specs.Literal.{clause_of};
ghost use Rattle.bank_clause.specs.Clause.{clause_at, IsClauseOf, IsMemberOf};
ghost use Rattle.unit_cutting.specs.Cutting.{IsCutOrNone};
ghost use Rattle.unit_cutting.specs.CutSteps.{AreCutOrNone, CutsOrNot, IsCutOfOrNone, IsCutStep, IsCutUnit};

use crate::asserted::has_asserted;
use crate::cut_lines::{CutLines, cut_lines};
use crate::matching::{Fitting, fit};
use bank_clause::{BankClause, Member};
use fol_base::{Clause, LendsLiterals, LiteralRef, are_among};
use kernel_steps::{Reduced, complement};
use plain_types::Mem;
use reduced_clause::{extend, last_number, unreduced_copy};
use std::alloc::Global;
use term_bank::Bank;

/// A literal that is cut, by its index, and how.
#[derive(Drop)]
pub(crate) struct Cut<'t> {
    pub(crate) index: usize,
    pub(crate) fitting: Fitting<'t>,
}

/// The clause without one literal that the unit cuts, by a superposition and an equality resolution. None exactly where it cuts none.
pub fn cut_unit(alloc: Global, bank: &Bank, unit: &Member, clause: &Clause) -> Mem<Option<Reduced>>
    requires { IsMemberOf bank.now unit.now }
    ensures { IfOk result (IsCutUnit unit.now (clause_of clause.now)) }
{
    let mut reduced = unreduced_copy(alloc, clause)?;
    if cut_by(alloc, bank, unit, &mut reduced)? {
        Ok(Some(reduced))
    } else {
        Ok(None)
    }
}

/// A literal that the unit cuts goes from a clause that is reduced, by two lines. False exactly where it cuts none, and then nothing has
/// changed, as after an out-of-memory error.
pub fn cut_by(alloc: Global, bank: &Bank, unit: &Member, reduced: &mut Reduced) -> Mem<bool>
    requires { IsMemberOf bank.now unit.now }
    ensures step { IfOk result (IsCutStep unit.now reduced.old reduced.new) }
    ensures err { OnErr result (reduced.new ≡ reduced.old) }
{
    let number = last_number(reduced)?;
    match find_lines(alloc, bank, unit, &reduced.clause, number)? {
        None => Ok(false),
        Some(lines) => {
            let CutLines { first, second } = lines;
            extend(alloc, reduced, Some(first), second, Some(unit.number))?;
            Ok(true)
        }
    }
}

/// The lines by which a unit cuts a literal of a clause that has a number as a parent. None exactly where it cuts none.
fn find_lines(
    alloc: Global,
    bank: &Bank,
    unit: &Member,
    clause: &Clause,
    number: u64,
) -> Mem<Option<CutLines>>
    requires { IsMemberOf bank.now unit.now }
    ensures { IfOk result (AreCutOrNone unit.now (clause_of clause.now) number) }
{
    if !has_asserted(clause.names.as_slice(), unit.clause.names()) {
        return Ok(None);
    }
    match find_cut_by(alloc, bank, unit, &clause.literals)? {
        None => Ok(None),
        Some(cut) => {
            let lines = cut_lines(alloc, bank, unit, clause, number, &cut)?;
            Ok(Some(lines))
        }
    }
}

/// Whether a unit cuts a literal of a clause of the bank.
pub fn cuts(alloc: Global, bank: &Bank, unit: &Member, clause: &BankClause) -> Mem<bool>
    requires unit { IsMemberOf bank.now unit.now }
    requires clause { IsClauseOf bank.now clause.now }
    ensures { IfOk result (CutsOrNot unit.now (clause_at clause.now)) }
{
    if !are_among(unit.clause.names(), clause.names()) {
        return Ok(false);
    }
    let literals = clause.lend(bank);
    let found = find_cut_by(alloc, bank, unit, &literals)?;
    Ok(found.is_some())
}

/// The first literal that a unit cuts, whatever the unit asserts. None exactly where it cuts none; a clause that is no unit cuts none.
fn find_cut_by<'t, L: LendsLiterals>(
    alloc: Global,
    bank: &Bank,
    unit: &Member,
    literals: &'t L,
) -> Mem<Option<Cut<'t>>>
    requires { IsMemberOf bank.now unit.now }
    ensures { IfOk result (IsCutOfOrNone (clause_at unit.now.clause) (L.meaning literals.now)) }
{
    if unit.clause.literals().len() != 1 {
        return Ok(None);
    }
    let own = unit.clause.lend(bank);
    find_cut(alloc, complement(own.literal(0)), literals)
}

/// The first literal that is an instance of a wanted one. None exactly where there is none.
fn find_cut<'t, L: LendsLiterals>(
    alloc: Global,
    wanted: LiteralRef<'_>,
    literals: &'t L,
) -> Mem<Option<Cut<'t>>>
    ensures { IfOk result (IsCutOrNone (lent_of wanted.entry) (L.meaning literals.now)) }
{
    for index in 0..literals.count() {
        if let Some(fitting) = fit(alloc, wanted, literals.literal(index))? {
            return Ok(Some(Cut { index, fitting }));
        }
    }
    Ok(None)
}
