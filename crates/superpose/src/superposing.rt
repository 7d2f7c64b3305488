// Superposition from one site into another: the side of an equation is unified with the term at a place, and the order is asked under the
// unifier before anything is built.

ghost use Rattle.std.specs.Prelude.{◌≡◌, ◌↔◌, ◌<◌, ◌≤◌, ◌+◌, ◌*◌, true, List, None, Some, length, slice_get, sum_by, IfOk};
ghost use Rattle.fol_base.specs.Instance.{substitution};
ghost use Rattle.fol_base.specs.Clause.{TreeLiteral, clause_size, literal_size};
ghost use Rattle.fol_base.specs.declared.clause.Side.TheVariants.{Left, Right};
ghost use Rattle.fol_base.specs.Ground.{literals_instance};
ghost use Rattle.fol_base.specs.Term.{tree_of};
ghost use Rattle.fol_base.specs.Lent.{lent_of};
ghost use Rattle.fol_base.specs.Selection.{SelectionMode};
ghost use Rattle.literal_selection.specs.Mode.{mode_of};
ghost use Rattle.bank_clause.specs.Clause.{clause_at, IsMemberOf};
ghost use Rattle.superpose.specs.Settled.{AreSettled, IsSettled};
ghost use Rattle.superpose.specs.Sites.{AreSitesOf};
ghost use Rattle.superpose.specs.Superposing.{
  AreSites,
  EntersAt,
  IsSuperposition,
  StartsAt,
  SuperposesBy,
  enters_under,
  starts_under,
  others_coincide,
  are_alike,
  is_heavy,
  size_under,
  IsHeavyUnder,
};

use crate::concluding::conclude_superposition;
use crate::overweight::allowed_by_sizes;
use crate::sites::{LiteralPlace, Premise, Sites};
use bank_clause::{BankClause, BankLiterals};
use eq_rules::{LiteralSide, Made, is_not_below};
use fol_base::{
    LendsLiterals, LiteralRef, MOST_SYMBOLS, SIZE_LIMIT, Side, Term, Terms, at, same_instance,
};
use kbo_order::COMPARED_SIZE_LIMIT;
use literal_selection::eligible_under;
use plain_types::{Mem, NoMemory};
use std::alloc::Global;
use term_bank::Bank;
use unifier::{Bindings, unify};

/// The superposition from a site of the first clause into one of the second, by the sites' indices: what becomes of the inference of that
/// name. None exactly where there is none. `Heavy` exactly where the conclusion, or a clause under the unifier, has over `MOST_SYMBOLS`
/// symbols. Out of memory is also answered where such a clause, which has to be looked at, has `SIZE_LIMIT` symbols or more.
pub fn superposition(
    alloc: Global,
    bank: &Bank,
    first: &Premise<'_>,
    from: usize,
    second: &Premise<'_>,
    into: usize,
) -> Mem<Option<Made>>
    requires first_member { IsMemberOf bank.now first.now.member.now }
    requires first_sites { AreSitesOf (clause_at first.now.member.now.clause) first.now.sites.now }
    requires second_member { IsMemberOf bank.now second.now.member.now }
    requires second_sites { AreSitesOf (clause_at second.now.member.now.clause) second.now.sites.now }
    requires same_mode { first.now.sites.now.mode ≡ second.now.sites.now.mode }
    requires from_inside { from < length first.now.sites.now.from.items }
    requires into_inside { into < length second.now.sites.now.into.items }
    ensures { IfOk result (λ made. (s : LiteralSide) (t : LiteralPlace)
        → slice_get first.now.sites.now.from.items from ≡ Some s → slice_get second.now.sites.now.into.items into ≡ Some t
        → IsSuperposition (mode_of first.now.sites.now.mode) first.now.member.now s second.now.member.now t made) }
{
    let start = first.sites.from[from];
    let target = &second.sites.into[into];
    superposition_at(alloc, bank, first, start, second, target)
}

/// The superposition from a side into a place that may be sites.
pub fn superposition_at(
    alloc: Global,
    bank: &Bank,
    first: &Premise<'_>,
    from: LiteralSide,
    second: &Premise<'_>,
    into: &LiteralPlace,
) -> Mem<Option<Made>>
    requires first_member { IsMemberOf bank.now first.now.member.now }
    requires second_member { IsMemberOf bank.now second.now.member.now }
    requires first_settled { AreSettled (clause_at first.now.member.now.clause).literals first.now.sites.now.choice first.now.sites.now.settled.items }
    requires second_settled { AreSettled (clause_at second.now.member.now.clause).literals second.now.sites.now.choice second.now.sites.now.settled.items }
    requires starts { StartsAt (clause_at first.now.member.now.clause).literals from }
    requires enters { EntersAt (clause_at second.now.member.now.clause).literals into.now }
    ensures { IfOk result (λ made. (mode : SelectionMode)
        → AreSites mode (clause_at first.now.member.now.clause) from (clause_at second.now.member.now.clause) into.now second.now.sites.now.choice
        → IsSuperposition mode first.now.member.now from second.now.member.now into.now made) }
{
    let first_literals = first.member.clause.lend(bank);
    let second_literals = second.member.clause.lend(bank);
    let equation = first_literals.literal(from.literal);
    let target = second_literals.literal(into.at.literal);
    let Some(old) = at(target.side(into.at.side), &into.place) else {
        unreachable!();
    };
    if !are_alike(equation, from, target, into, old) {
        return Ok(None);
    }
    match unify(alloc, equation.side(from.side), old, true)? {
        None => Ok(None),
        Some(unifier) => superposition_by(alloc, bank, first, from, second, into, &unifier),
    }
}

/// Whether a side and the term at a place are of one kind: an atom's other side is `$true`, and below the root function terms stand.
fn are_alike(
    equation: LiteralRef<'_>,
    from: LiteralSide,
    target: LiteralRef<'_>,
    into: &LiteralPlace,
    old: &Term,
) -> bool
    ensures { result ≡ are_alike from into.now (lent_of equation.entry) (lent_of target.entry) (tree_of old.now) }
{
    let is_atom = equation.other_side(from.side).is_truth();
    let is_atom_here = into.place.is_empty() && target.other_side(into.at.side).is_truth();
    !old.is_truth() && is_atom == is_atom_here
}

/// The result of the superposition by a unifier of the side and the term at the place. The sizes under the unifier are told only where
/// the clauses' own sizes don't show that they are small. Where a clause is too large it isn't built if sizes and the clauses alone tell what the
/// order says.
fn superposition_by(
    alloc: Global,
    bank: &Bank,
    first: &Premise<'_>,
    from: LiteralSide,
    second: &Premise<'_>,
    into: &LiteralPlace,
    unifier: &Bindings,
) -> Mem<Option<Made>>
    requires first_member { IsMemberOf bank.now first.now.member.now }
    requires second_member { IsMemberOf bank.now second.now.member.now }
    requires first_settled { AreSettled (clause_at first.now.member.now.clause).literals first.now.sites.now.choice first.now.sites.now.settled.items }
    requires second_settled { AreSettled (clause_at second.now.member.now.clause).literals second.now.sites.now.choice second.now.sites.now.settled.items }
    requires unified { SuperposesBy unifier.now
        (clause_at first.now.member.now.clause) from (clause_at second.now.member.now.clause) into.now }
    ensures { IfOk result (λ made. (mode : SelectionMode)
        → AreSites mode (clause_at first.now.member.now.clause) from (clause_at second.now.member.now.clause) into.now second.now.sites.now.choice
        → IsSuperposition mode first.now.member.now from second.now.member.now into.now made) }
{
    let left = &first.member.clause;
    let right = &second.member.clause;
    let literals = left.lend(bank);
    let equation = literals.literal(from.literal);
    let unified_size = unifier.term_size(Side::Left, equation.side(from.side))?;
    if are_surely_small(left, right, unified_size) {
        return ordered_superposition(alloc, bank, first, from, second, into, unifier, false);
    }
    let left_size = unifier.instance_size(bank, Side::Left, left.literals())?;
    let right_size = unifier.instance_size(bank, Side::Right, right.literals())?;
    if left_size.max(right_size) > MOST_SYMBOLS {
        match allowed_by_sizes(bank, first, from, second, into, unifier)? {
            Some(true) => return Ok(Some(Made::Heavy)),
            Some(false) => return Ok(None),
            None => {}
        }
    }
    if left_size >= SIZE_LIMIT || right_size >= SIZE_LIMIT {
        return Err(NoMemory);
    }
    let heavy = is_heavy(left_size, right_size, unified_size);
    ordered_superposition(alloc, bank, first, from, second, into, unifier, heavy)
}

/// Whether the sizes of two clauses show that they have, with what is inferred from them, at most `MOST_SYMBOLS` symbols under a unifier of
/// terms that become one of `unified_size` symbols: no variable becomes a larger term than that.
fn are_surely_small(left: &BankClause, right: &BankClause, unified_size: u64) -> bool
    ensures { (result ≡ true) ↔ (unified_size * (clause_size (clause_at left.now) + clause_size (clause_at right.now)) ≤ MOST_SYMBOLS) }
{
    let size = u64::from(left.size()) + u64::from(right.size());
    unified_size.saturating_mul(size) <= MOST_SYMBOLS
}

/// Whether one of two clauses of these sizes, or their conclusion by a side of `unified_size` symbols, has over
/// `MOST_SYMBOLS` symbols.
fn is_heavy(left_size: u64, right_size: u64, unified_size: u64) -> bool
    requires left { left_size < SIZE_LIMIT }
    requires right { right_size < SIZE_LIMIT }
    requires unified { 2 * unified_size ≤ left_size + right_size }
    ensures { result ≡ is_heavy left_size right_size unified_size }
{
    let made_size = left_size + right_size - 2 * unified_size;
    left_size.max(right_size).max(made_size) > MOST_SYMBOLS
}

/// The result of the superposition by a unifier under which the clauses are small enough for the order to be asked, where it is known
/// whether they, or the conclusion, have over `MOST_SYMBOLS` symbols.
fn ordered_superposition(
    alloc: Global,
    bank: &Bank,
    first: &Premise<'_>,
    from: LiteralSide,
    second: &Premise<'_>,
    into: &LiteralPlace,
    unifier: &Bindings,
    heavy: bool,
) -> Mem<Option<Made>>
    requires first_member { IsMemberOf bank.now first.now.member.now }
    requires second_member { IsMemberOf bank.now second.now.member.now }
    requires first_settled { AreSettled (clause_at first.now.member.now.clause).literals first.now.sites.now.choice first.now.sites.now.settled.items }
    requires second_settled { AreSettled (clause_at second.now.member.now.clause).literals second.now.sites.now.choice second.now.sites.now.settled.items }
    requires unified { SuperposesBy unifier.now
        (clause_at first.now.member.now.clause) from (clause_at second.now.member.now.clause) into.now }
    requires left_small { size_under unifier.now Left (clause_at first.now.member.now.clause) < SIZE_LIMIT }
    requires right_small { size_under unifier.now Right (clause_at second.now.member.now.clause) < SIZE_LIMIT }
    requires heavy { IsHeavyUnder unifier.now (clause_at first.now.member.now.clause) from (clause_at second.now.member.now.clause) heavy }
    ensures { IfOk result (λ made. (mode : SelectionMode)
        → AreSites mode (clause_at first.now.member.now.clause) from (clause_at second.now.member.now.clause) into.now second.now.sites.now.choice
        → IsSuperposition mode first.now.member.now from second.now.member.now into.now made) }
{
    let left = &first.member.clause;
    let right = &second.member.clause;
    let left_bound = left.variable_bound();
    let right_bound = right.variable_bound();
    let left_terms = unifier.terms(Side::Left, left_bound)?;
    let left_literals = left.lend(bank);
    if !starts_under(first.sites, &left_literals, from, &left_terms) {
        return Ok(None);
    }
    let right_terms = unifier.terms(Side::Right, right_bound)?;
    let right_literals = right.lend(bank);
    if !enters_under(
        second.sites,
        &left_literals,
        from,
        &left_terms,
        &right_literals,
        into,
        &right_terms,
    ) {
        return Ok(None);
    }
    if heavy {
        return Ok(Some(Made::Heavy));
    }
    let made = conclude_superposition(
        alloc,
        bank,
        first.member,
        from,
        &left_terms,
        second.member,
        into,
        &right_terms,
    )?;
    Ok(Some(made))
}

/// Whether a side from which superposition can start is in order under every substitution.
pub fn starts_settled(sites: &Sites, from: LiteralSide) -> bool
    requires { from.literal < length sites.now.settled.items }
    ensures { (ls : List TreeLiteral) → AreSettled ls sites.now.choice sites.now.settled.items → result ≡ true → IsSettled ls None from }
{
    sites.choice.is_none() && sites.is_settled(from)
}

/// Whether the order allows that superposition starts from a side, under terms: the side isn't below the other one, and its literal is
/// strictly eligible.
fn starts_under(
    sites: &Sites,
    literals: &BankLiterals<'_>,
    from: LiteralSide,
    terms: &Terms,
) -> bool
    requires settled { AreSettled literals.now sites.now.choice sites.now.settled.items }
    requires inside { from.literal < length literals.now }
    requires size { sum_by literal_size (literals_instance (substitution terms.now) literals.now) < COMPARED_SIZE_LIMIT }
    ensures { result ≡ starts_under literals.now from (substitution terms.now) }
{
    if starts_settled(sites, from) {
        return true;
    }
    let equation = literals.literal(from.literal);
    is_not_below(equation, from.side, terms)
        && eligible_under(literals, terms, from.literal, None, true)
}

/// Whether the order allows that superposition goes into a place, under terms: the other sides don't become one term at the root of a
/// positive literal, the side isn't below the other one, and its literal is eligible.
fn enters_under(
    sites: &Sites,
    first: &BankLiterals<'_>,
    from: LiteralSide,
    first_terms: &Terms,
    second: &BankLiterals<'_>,
    into: &LiteralPlace,
    second_terms: &Terms,
) -> bool
    requires settled { AreSettled second.now sites.now.choice sites.now.settled.items }
    requires from_inside { from.literal < length first.now }
    requires into_inside { into.now.at.literal < length second.now }
    requires size { sum_by literal_size (literals_instance (substitution second_terms.now) second.now) < COMPARED_SIZE_LIMIT }
    ensures { result ≡ enters_under first.now from second.now into.now sites.now.choice
        (substitution first_terms.now) (substitution second_terms.now) }
{
    let equation = first.literal(from.literal);
    let target = second.literal(into.at.literal);
    if others_coincide(equation, from, first_terms, target, into, second_terms) {
        return false;
    }
    if sites.is_settled(into.at) {
        return true;
    }
    is_not_below(target, into.at.side, second_terms)
        && eligible_under(
            second,
            second_terms,
            into.at.literal,
            sites.choice,
            target.positive,
        )
}

/// Whether the place is the root of a positive literal, and the other sides become one term.
fn others_coincide(
    equation: LiteralRef<'_>,
    from: LiteralSide,
    equation_terms: &Terms,
    target: LiteralRef<'_>,
    into: &LiteralPlace,
    target_terms: &Terms,
) -> bool
    ensures { result ≡ others_coincide from into.now
        (substitution equation_terms.now) (substitution target_terms.now) (lent_of equation.entry) (lent_of target.entry) }
{
    target.positive
        && into.place.is_empty()
        && same_instance(
            equation.other_side(from.side),
            equation_terms,
            target.other_side(into.at.side),
            target_terms,
        )
}
