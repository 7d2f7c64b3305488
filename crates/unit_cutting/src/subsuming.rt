// Units of a set that subsume a clause: the unit's literal becomes one of the clause's, and the clause asserts what the unit asserts.

ghost use Rattle.std.specs.Prelude.{◌≡◌, ℕ, Some, IfOk, length};
ghost use Rattle.fol_base.specs.Lent.{lent_of};
ghost use Rattle.fol_base.specs.Literal.{clause_of};
ghost use Rattle.bank_clause.specs.Clause.{IsMemberOf, clause_at};
ghost use Rattle.bank_clause.specs.declared.clause.BankClause.{BankClause};
ghost use Rattle.rewriting.specs.Units.{AreClausesOf, clause_numbered};
ghost use Rattle.unit_cutting.specs.Indexed.{HasOneLiteral};
ghost use Rattle.unit_cutting.specs.Subsuming.{BecomesOrNot, CoversOrNot, IsCoveringOrNone, IsCoveringOrNotBy, IsSubsumerOrNone};

use crate::asserted::has_asserted;
use crate::cut_search::is_positive;
use crate::index::UnitIndex;
use bank_clause::Member;
use fol_base::{Clause, LendsLiterals, LiteralRef};
use plain_types::{Mem, NameLit};
use rewriting::is_kept;
use std::alloc::Global;
use subsume::{are_alike, match_sides};
use term_bank::Bank;
use unifier::Matched;

impl UnitIndex {
    /// The number of a unit that subsumes a clause, but for the one that is left out. None exactly where no other one does.
    pub fn subsumer(
        &self,
        alloc: Global,
        bank: &Bank,
        left_out: Option<u32>,
        clause: &Clause,
    ) -> Mem<Option<u32>>
        requires { AreClausesOf bank.now self.now }
        ensures { IfOk result (IsSubsumerOrNone self.now left_out (clause_of clause.now)) }
    {
        self.each_has_one_literal();
        for index in 0..clause.literals.count() {
            let literal = clause.literals.literal(index);
            let candidates = self.candidates(literal)?;
            let names = clause.names.as_slice();
            let numbers = candidates.as_slice();
            let found = self.covering_one_of(alloc, bank, left_out, names, literal, numbers)?;
            if let Some(number) = found {
                return Ok(Some(number));
            }
        }
        Ok(None)
    }

    /// Shows that each unit has one literal. It changes nothing.
    fn each_has_one_literal(&self)
        ensures { (n : ℕ) (u : BankClause) → clause_numbered n self.now ≡ Some u → HasOneLiteral (clause_at u) }
    {
        let _ = &self.units;
    }

    /// The number of one of the units with some numbers that covers a literal of a clause with these names.
    fn covering_one_of(
        &self,
        alloc: Global,
        bank: &Bank,
        left_out: Option<u32>,
        names: &[NameLit],
        literal: LiteralRef<'_>,
        numbers: &[u64],
    ) -> Mem<Option<u32>>
        requires { AreClausesOf bank.now self.now }
        ensures { IfOk result (IsCoveringOrNone self.now left_out names.now (lent_of literal.entry) numbers.now) }
    {
        for number in numbers {
            let found = self.covering(alloc, bank, left_out, names, literal, *number)?;
            if let Some(number) = found {
                return Ok(Some(number));
            }
        }
        Ok(None)
    }

    /// The number of the unit with a number, if it covers a literal of a clause with these names.
    fn covering(
        &self,
        alloc: Global,
        bank: &Bank,
        left_out: Option<u32>,
        names: &[NameLit],
        literal: LiteralRef<'_>,
        number: u64,
    ) -> Mem<Option<u32>>
        requires { AreClausesOf bank.now self.now }
        ensures { IfOk result (IsCoveringOrNotBy self.now left_out names.now (lent_of literal.entry) number) }
    {
        let Some(unit) = self.unit(number) else {
            return Ok(None);
        };
        if !is_kept(left_out, number) {
            return Ok(None);
        }
        if covers(alloc, bank, unit, names, literal)? {
            Ok(Some(unit.number))
        } else {
            Ok(None)
        }
    }
}

/// Whether a unit covers a literal of a clause with these names. Its sign, which is the cheapest to look at, comes first.
fn covers(
    alloc: Global,
    bank: &Bank,
    unit: &Member,
    names: &[NameLit],
    literal: LiteralRef<'_>,
) -> Mem<bool>
    requires member { IsMemberOf bank.now unit.now }
    requires one { HasOneLiteral (clause_at unit.now.clause) }
    ensures { IfOk result (CoversOrNot (clause_at unit.now.clause) names.now (lent_of literal.entry)) }
{
    if is_positive(&unit.clause) != literal.positive {
        return Ok(false);
    }
    if !has_asserted(names, unit.clause.names()) {
        return Ok(false);
    }
    let own = unit.clause.lend(bank);
    becomes(alloc, own.literal(0), literal)
}

/// Whether some substitution by function terms makes a literal another one, sides in either order.
fn becomes(alloc: Global, pattern: LiteralRef<'_>, target: LiteralRef<'_>) -> Mem<bool>
    ensures { IfOk result (BecomesOrNot (lent_of pattern.entry) (lent_of target.entry)) }
{
    if !are_alike(pattern, target) {
        return Ok(false);
    }
    let nothing = Matched::empty(alloc);
    let straight = match_sides(alloc, pattern, target, &nothing)?;
    if straight.is_some() {
        return Ok(true);
    }
    let crossed = match_sides(alloc, pattern, target.exchanged(), &nothing)?;
    Ok(crossed.is_some())
}
