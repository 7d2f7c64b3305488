// Which unit rewrites one term, at the spot where it stands.

ghost use Rattle.std.specs.Prelude.{◌≡◌, ◌&&◌, ◌<◌, ◌*◌, ◌↔◌, IfOk, IfSome, IsTrue};
ghost use Rattle.fol_base.specs.Clause.{clause_size};
ghost use Rattle.fol_base.specs.Lent.{lent_of};
ghost use Rattle.fol_base.specs.Sides.{other_side_of, side_of};
ghost use Rattle.rewriting.specs.Descent.{Descends, DescendsTo};
ghost use Rattle.fol_base.specs.Subsumption.{assertions, is_among};
ghost use Rattle.fol_base.specs.Instance.{instance};
ghost use Rattle.fol_base.specs.Order.{tree_greater};
ghost use Rattle.unifier.specs.Matching.{by_pairs};
ghost use Rattle.rewriting.specs.Redex.{is_within};
ghost use Rattle.std.specs.Option.{option_map};
ghost use Rattle.fol_base.specs.Tree.{is_variable, tree_size};
ghost use Rattle.fol_base.specs.Term.{tree_of};
ghost use Rattle.fol_base.specs.declared.limits.TheConstants.{SIZE_LIMIT};
ghost use Rattle.bank_clause.specs.Clause.{clause_at, IsClauseOf};
ghost use Rattle.rewriting.specs.Units.{AreClausesOf, IsRecorded, has_other_variables, is_kept};
ghost use Rattle.rewriting.specs.Spots.{LimitFits, spot_of};
ghost use Rattle.rewriting.specs.Searching.{IsFoundAt, IsMatchedSide, IsTried, usable_by};

use crate::descent::Descent;
use crate::index::side_of_number;
use crate::normal_terms::NormalTerms;
use crate::searching::{Rewrite, Rewriters};
use crate::spot::Spot;
use crate::units::Unit;
use crate::usable::is_kept;
use bank_clause::BankClause;
use fol_base::{LendsLiterals, LiteralRef, Side, Term, are_among};
use plain_types::Mem;
use std::alloc::Global;
use unifier::{Matched, match_onto};

impl<'a> Rewriters<'a> {
    /// A unit that rewrites a term at the spot where it stands. None exactly where none does. The table counts the candidates.
    pub(crate) fn rewrite_at<'t>(
        &self,
        alloc: Global,
        term: &'t Term,
        spot: Spot<'_>,
        normal: &mut NormalTerms,
    ) -> Mem<Option<Rewrite<'t>>>
        requires units { AreClausesOf self.now.bank.now self.now.units.now }
        requires size { tree_size (tree_of term.now) < SIZE_LIMIT }
        requires limit { LimitFits (spot_of spot) }
        ensures found { IfOk result (IsFoundAt (usable_by self.now) (spot_of spot.entry) (tree_of term.now)) }
        ensures terms { normal.new.places ≡ normal.old.places }
    {
        let found = self.units.candidates(term)?;
        count_candidates(normal, spot, found.len());
        if found.is_empty() {
            return Ok(None);
        }
        let size = term.size();
        for entry in found.as_slice() {
            if let Some(rewrite) = self.try_entry(alloc, *entry, term, size, spot)? {
                return Ok(Some(rewrite));
            }
        }
        Ok(None)
    }

    /// The rewrite of a term, which has a size, by the side that has a number. None exactly where that side doesn't rewrite it.
    fn try_entry<'t>(
        &self,
        alloc: Global,
        entry: u64,
        term: &'t Term,
        size: u64,
        spot: Spot<'_>,
    ) -> Mem<Option<Rewrite<'t>>>
        requires units { AreClausesOf self.now.bank.now self.now.units.now }
        requires size { size ≡ tree_size (tree_of term.now) }
        requires small { size < SIZE_LIMIT }
        requires limit { LimitFits (spot_of spot) }
        ensures { IfOk result (IsTried (usable_by self.now) (spot_of spot.entry) (tree_of term.now) entry) }
    {
        let (number, side) = side_of_number(entry);
        let Some(unit) = self.usable(number) else {
            return Ok(None);
        };
        if !unit.by.has(side) {
            return Ok(None);
        }
        if is_too_large(&unit.clause, size) {
            return Ok(None);
        }
        let literals = unit.clause.lend(self.bank);
        let equation = literals.literal(0);
        match match_side(alloc, equation, side, unit.descent, term, size, spot)? {
            None => Ok(None),
            Some(terms) => Ok(Some(Rewrite {
                number,
                side,
                terms,
            })),
        }
    }

    /// The unit with a number, if it may rewrite the clause: it isn't left out, and its assertions are among those of the clause.
    fn usable(&self, number: u64) -> Option<&'a Unit>
        requires { AreClausesOf self.now.bank.now self.now.units.now }
        ensures clause { option_map (λ u. clause_at u.now.clause) result ≡ usable_by self.now number }
        ensures of_bank { IfSome result (λ u. IsClauseOf self.now.bank.now u.now.clause) }
        ensures recorded { IfSome result (λ u. IsRecorded u.now) }
    {
        let unit = self.units.unit(number)?;
        if self.may_use(number, &unit.clause) {
            Some(unit)
        } else {
            None
        }
    }

    /// Whether the clause with a number may be used: it isn't left out, and its assertions are among the clause's.
    fn may_use(&self, number: u64, clause: &BankClause) -> bool
        ensures { result ≡ (is_kept self.now.left_out number && is_among (assertions (clause_at clause.now).names) self.now.asserted.now) }
    {
        is_kept(self.left_out, number) && are_among(clause.names(), self.asserted)
    }
}

/// Counts the candidates for a term that may be remembered: one below the root of a side.
fn count_candidates(normal: &mut NormalTerms, spot: Spot<'_>, candidates: usize)
    ensures { normal.new.places ≡ normal.old.places }
{
    if !spot.is_inner() {
        return;
    }
    normal.count(candidates);
}

/// Whether a unit has more than twice as many symbols as a term of a size. Then it doesn't rewrite the term: a side that matches it has at
/// most as many, so the other side has more, and so has each instance of that one, which isn't smaller than the term.
fn is_too_large(unit: &BankClause, size: u64) -> bool
    requires { size < SIZE_LIMIT }
    ensures { IsTrue result ↔ 2 * size < clause_size (clause_at unit.now) }
{
    u64::from(unit.size()) > 2 * size
}

/// The matcher by which a side of an equation rewrites a term, which has a size, at a spot; the other side has no other
/// variables. None exactly where it doesn't.
fn match_side<'t>(
    alloc: Global,
    equation: LiteralRef<'_>,
    side: Side,
    descent: Descent,
    term: &'t Term,
    size: u64,
    spot: Spot<'_>,
) -> Mem<Option<Matched<'t>>>
    requires variables { IsTrue (has_other_variables side (lent_of equation)) }
    requires descends { Descends descent (side_of side (lent_of equation)) (other_side_of side (lent_of equation)) }
    requires size { size ≡ tree_size (tree_of term.now) }
    requires small { size < SIZE_LIMIT }
    requires limit { LimitFits (spot_of spot) }
    ensures { IfOk result (IsMatchedSide (lent_of equation.entry) side (spot_of spot.entry) (tree_of term.now)) }
{
    let pattern = equation.side(side);
    if is_atom_variable(spot, pattern) {
        return Ok(None);
    }
    match match_onto(alloc, pattern, term, &Matched::empty(alloc))? {
        None => Ok(None),
        Some(terms) => {
            if takes(descent, spot, term, size, equation.other_side(side), &terms) {
                Ok(Some(terms))
            } else {
                Ok(None)
            }
        }
    }
}

/// Whether an instance may take the place of a term, which has a size, at a spot: it is smaller, and within the limit.
fn takes(
    descent: Descent,
    spot: Spot<'_>,
    old: &Term,
    size: u64,
    new: &Term,
    terms: &Matched<'_>,
) -> bool
    requires size { size ≡ tree_size (tree_of old.now) }
    requires small { size < SIZE_LIMIT }
    requires limit { LimitFits (spot_of spot) }
    requires descends { DescendsTo descent (tree_of old.now) (instance (by_pairs terms.now) (tree_of new.now)) }
    ensures { result ≡ (tree_greater (tree_of old.now) (instance (by_pairs terms.now) (tree_of new.now))
        && is_within (spot_of spot.entry).limit (instance (by_pairs terms.now) (tree_of new.now))) }
{
    descent.is_smaller(new, terms, old, size) && spot.admits(new, terms)
}

/// Whether a variable would stand for an atom at a spot.
fn is_atom_variable(spot: Spot<'_>, pattern: &Term) -> bool
    ensures { result ≡ (is_variable (tree_of pattern.now) && (spot_of spot.entry).is_atom) }
{
    is_variable(pattern) && spot.is_atom
}

/// Whether a term is a variable.
fn is_variable(term: &Term) -> bool
    ensures { result ≡ is_variable (tree_of term.now) }
{
    matches!(term, Term::Var(_))
}
