// The search for a redex: in a term from the inside out, in a clause from left to right.

ghost use Rattle.std.specs.Prelude.{◌≡◌, ◌<◌, ℕ, IfOk, map, sum_by, MatchOption, None, Option};
ghost use Rattle.fol_base.specs.Tree.{tree_size, trees_size, trees_of};
ghost use Rattle.fol_base.specs.Term.{tree_of};
ghost use Rattle.fol_base.specs.Clause.{TreeClause, literal_size};
ghost use Rattle.fol_base.specs.Lent.{lent_of};
ghost use Rattle.fol_base.specs.declared.limits.TheConstants.{SIZE_LIMIT};
ghost use Rattle.rewriting.specs.Units.{AreClausesOf};
ghost use Rattle.rewriting.specs.Redex.{AreNormal, IsNormal, inner};
ghost use Rattle.rewriting.specs.Searching.{IsFoundIn, IsFoundInSome, IsFoundOf, IsFoundOfLiteral, IsFoundOfSide, usable_by};
ghost use Rattle.rewriting.specs.Spots.{LimitFits, spot_of};
ghost use Rattle.rewriting.specs.NormalTerms.{RemembersNormal};

use crate::normal_terms::NormalTerms;
use crate::spot::Spot;
use crate::units::Units;
use fol_base::{LendsLiterals, LiteralRef, Position, Side, Term};
use plain_types::Mem;
use std::alloc::Global;
use term_bank::Bank;
use unifier::Matched;

/// The units that may rewrite a clause: those that aren't left out, and whose assertions are among the clause's.
#[derive(Clone, Copy)]
pub struct Rewriters<'a> {
    pub units: &'a Units,
    pub bank: &'a Bank,
    /// The numbers of the names that the clause asserts.
    pub asserted: &'a [u32],
    /// The number of a unit that isn't used, as that of the clause itself.
    pub left_out: Option<u32>,
}

/// A unit that rewrites a term, the side that matches it, and what the unit's variables become.
#[derive(Drop)]
pub struct Rewrite<'t> {
    pub number: u64,
    pub side: Side,
    pub terms: Matched<'t>,
}

/// A rewrite with the place of its term in a clause.
#[derive(Drop)]
pub struct Found<'t> {
    pub literal: usize,
    pub side: Side,
    pub place: Position,
    pub rewrite: Rewrite<'t>,
}

impl<'a> Rewriters<'a> {
    /// A redex of a clause; which one is not told. None exactly where the clause has none.
    pub fn find<'t, L: LendsLiterals>(
        &self,
        alloc: Global,
        literals: &'t L,
        normal: &mut NormalTerms,
    ) -> Mem<Option<Found<'t>>>
        requires units { AreClausesOf self.now.bank.now self.now.units.now }
        requires size { sum_by literal_size (L.meaning literals.now) < SIZE_LIMIT }
        requires remembers { RemembersNormal (usable_by self.now) normal.old }
        ensures found { IfOk result (λ found. MatchOption found (AreNormal (usable_by self.now) (L.meaning literals.now))
            (IsFoundOf (usable_by self.now) (L.meaning literals.now))) }
        ensures remembers { RemembersNormal (usable_by self.now) normal.new }
    {
        for index in 0..literals.count() {
            let literal = literals.literal(index);
            if let Some(found) = self.find_in_literal(alloc, literal, index, normal)? {
                return Ok(Some(found));
            }
        }
        Ok(None)
    }

    /// A redex of a literal, which has an index.
    fn find_in_literal<'t>(
        &self,
        alloc: Global,
        literal: LiteralRef<'t>,
        index: usize,
        normal: &mut NormalTerms,
    ) -> Mem<Option<Found<'t>>>
        requires units { AreClausesOf self.now.bank.now self.now.units.now }
        requires size { literal_size (lent_of literal) < SIZE_LIMIT }
        requires remembers { RemembersNormal (usable_by self.now) normal.old }
        ensures found { IfOk result (IsFoundOfLiteral (usable_by self.now) (lent_of literal.entry) index) }
        ensures remembers { RemembersNormal (usable_by self.now) normal.new }
    {
        match self.find_in_side(alloc, literal, index, Side::Left, normal)? {
            Some(found) => Ok(Some(found)),
            None => {
                let found = self.find_in_side(alloc, literal, index, Side::Right, normal)?;
                Ok(found)
            }
        }
    }

    /// A redex of a side of a literal, which has an index.
    fn find_in_side<'t>(
        &self,
        alloc: Global,
        literal: LiteralRef<'t>,
        index: usize,
        side: Side,
        normal: &mut NormalTerms,
    ) -> Mem<Option<Found<'t>>>
        requires units { AreClausesOf self.now.bank.now self.now.units.now }
        requires size { literal_size (lent_of literal) < SIZE_LIMIT }
        requires remembers { RemembersNormal (usable_by self.now) normal.old }
        ensures found { IfOk result (IsFoundOfSide (usable_by self.now) (lent_of literal.entry) index side) }
        ensures remembers { RemembersNormal (usable_by self.now) normal.new }
    {
        let mut path = Vec::new(alloc);
        let spot = Spot::root(literal, side);
        match self.find_in_term(alloc, literal.side(side), spot, &mut path, normal)? {
            None => Ok(None),
            Some(rewrite) => Ok(Some(Found {
                literal: index,
                side,
                place: Position::from_vec(path),
                rewrite,
            })),
        }
    }

    /// A redex of a term that stands at a spot; its place is added to the path. Where there is none, the path is as before.
    #[cycle(find_in_term)]
    fn find_in_term<'t>(
        &self,
        alloc: Global,
        term: &'t Term,
        spot: Spot<'_>,
        path: &mut Vec<u64>,
        normal: &mut NormalTerms,
    ) -> Mem<Option<Rewrite<'t>>>
        requires units { AreClausesOf self.now.bank.now self.now.units.now }
        requires size { tree_size (tree_of term.now) < SIZE_LIMIT }
        requires limit { LimitFits (spot_of spot) }
        requires remembers { RemembersNormal (usable_by self.now) normal.old }
        ensures found { IfOk result (IsFoundIn (usable_by self.now) (spot_of spot.entry) (tree_of term.now) path.old.items path.new.items) }
        ensures remembers { RemembersNormal (usable_by self.now) normal.new }
    {
        match term {
            Term::Var(_) => Ok(None),
            Term::App(_, arguments) => {
                let place = normal.place_of(term);
                if normal.knows(place, term) {
                    return Ok(None);
                }
                if let Some(rewrite) = self.find_in_terms(
                    alloc,
                    arguments.as_slice(),
                    path,
                    normal,
                )? {
                    return Ok(Some(rewrite));
                }
                let rewrite = self.rewrite_at(alloc, term, spot, normal)?;
                remember(normal, place, term, spot, &rewrite)?;
                Ok(rewrite)
            }
        }
    }

    /// Searches the arguments of a term: the number of the argument comes first.
    #[cycle(find_in_term)]
    fn find_in_terms<'t>(
        &self,
        alloc: Global,
        terms: &'t [Term],
        path: &mut Vec<u64>,
        normal: &mut NormalTerms,
    ) -> Mem<Option<Rewrite<'t>>>
        requires units { AreClausesOf self.now.bank.now self.now.units.now }
        requires size { trees_size (trees_of (map tree_of terms.now)) < SIZE_LIMIT }
        requires remembers { RemembersNormal (usable_by self.now) normal.old }
        ensures found { IfOk result (IsFoundInSome (usable_by self.now) (map tree_of terms.now) path.old.items path.new.items) }
        ensures remembers { RemembersNormal (usable_by self.now) normal.new }
    {
        for index in 0..terms.len() {
            path.push(index as u64)?;
            if let Some(rewrite) = self.find_in_term(
                alloc,
                &terms[index],
                Spot::inner(),
                path,
                normal,
            )? {
                return Ok(Some(rewrite));
            }
            path.pop();
        }
        Ok(None)
    }
}

/// Remembers a term that was searched at a spot below the root of a side, where nothing was found.
fn remember(
    normal: &mut NormalTerms,
    place: Option<usize>,
    term: &Term,
    spot: Spot<'_>,
    found: &Option<Rewrite<'_>>,
) -> Mem<()>
    ensures { (clauses : ℕ → Option TreeClause) → RemembersNormal clauses normal.old
        → (found.now ≡ None → spot_of spot.entry ≡ inner → IsNormal clauses inner (tree_of term.now)) → RemembersNormal clauses normal.new }
{
    if found.is_some() {
        return Ok(());
    }
    if !spot.is_inner() {
        return Ok(());
    }
    normal.put(place, term)
}
