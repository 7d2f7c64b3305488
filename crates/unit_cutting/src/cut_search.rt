// Units of a set that cut a literal of a clause that is reduced.

ghost use Rattle.std.specs.Prelude.{◌≡◌, [], ◌∷◌, IfOk, OnErr};
ghost use Rattle.fol_base.specs.Clause.{TreeLiteral};
ghost use Rattle.bank_clause.specs.Clause.{clause_at};
ghost use Rattle.rewriting.specs.Units.{AreClausesOf};
ghost use Rattle.unit_cutting.specs.Indexed.{HasOneLiteral};
ghost use Rattle.unit_cutting.specs.Cuts.{IsCutOrNone, IsCutOrNoneOf, IsCutOrNotBy};

use crate::cut_by;
use crate::index::UnitIndex;
use bank_clause::BankClause;
use fol_base::LendsLiterals;
use kernel_steps::Reduced;
use plain_types::Mem;
use rewriting::is_kept;
use std::alloc::Global;
use term_bank::Bank;

impl UnitIndex {
    /// A literal goes that some unit cuts, but for the one that is left out. False exactly where none cuts a literal, and then nothing has
    /// changed, as after an out-of-memory error.
    pub fn cut_once(
        &self,
        alloc: Global,
        bank: &Bank,
        left_out: Option<u32>,
        reduced: &mut Reduced,
    ) -> Mem<bool>
        requires { AreClausesOf bank.now self.now }
        ensures ok { IfOk result (IsCutOrNone self.now left_out reduced.old reduced.new) }
        ensures err { OnErr result (reduced.new ≡ reduced.old) }
    {
        for index in 0..reduced.clause.literals.count() {
            let literal = reduced.clause.literals.literal(index);
            let sign = !literal.positive;
            let found = self.candidates(literal)?;
            if self.cut_by_one_of(alloc, bank, left_out, sign, found.as_slice(), reduced)? {
                return Ok(true);
            }
        }
        Ok(false)
    }

    /// The same of the units with some numbers and with one sign: those with the other one don't cut the literal for which they were found.
    fn cut_by_one_of(
        &self,
        alloc: Global,
        bank: &Bank,
        left_out: Option<u32>,
        positive: bool,
        numbers: &[u64],
        reduced: &mut Reduced,
    ) -> Mem<bool>
        requires { AreClausesOf bank.now self.now }
        ensures ok { IfOk result (IsCutOrNoneOf self.now left_out positive numbers.now reduced.old reduced.new) }
        ensures err { OnErr result (reduced.new ≡ reduced.old) }
    {
        for number in numbers {
            if self.cut_by_numbered(alloc, bank, left_out, positive, *number, reduced)? {
                return Ok(true);
            }
        }
        Ok(false)
    }

    /// The same of the unit with a number, if it has that sign.
    fn cut_by_numbered(
        &self,
        alloc: Global,
        bank: &Bank,
        left_out: Option<u32>,
        positive: bool,
        number: u64,
        reduced: &mut Reduced,
    ) -> Mem<bool>
        requires { AreClausesOf bank.now self.now }
        ensures ok { IfOk result (IsCutOrNotBy self.now left_out positive number reduced.old reduced.new) }
        ensures err { OnErr result (reduced.new ≡ reduced.old) }
    {
        let Some(unit) = self.unit(number) else {
            return Ok(false);
        };
        if !is_kept(left_out, number) {
            return Ok(false);
        }
        if is_positive(&unit.clause) != positive {
            return Ok(false);
        }
        cut_by(alloc, bank, unit, reduced)
    }
}

/// Whether the literal of a unit is positive.
pub(crate) fn is_positive(unit: &BankClause) -> bool
    requires { HasOneLiteral (clause_at unit.now) }
    ensures { (l : TreeLiteral) → (clause_at unit.now).literals ≡ l ∷ [] → l.positive ≡ result }
{
    unit.literals()[0].positive
}
