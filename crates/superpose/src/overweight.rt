// Superpositions that make a premise too large: what sizes and the clauses alone tell of the order under the unifier, with no term of such a
// size built.

ghost use Rattle.std.specs.Prelude.{◌≡◌, ◌<◌, ◌&&◌, true, length, IfOk, IfSome};
ghost use Rattle.fol_base.specs.Clause.{LiteralVariablesBelow};
ghost use Rattle.fol_base.specs.Instance.{instance};
ghost use Rattle.fol_base.specs.Lent.{lent_of};
ghost use Rattle.fol_base.specs.Term.{tree_of};
ghost use Rattle.fol_base.specs.Tree.{VariablesBelow, tree_eq};
ghost use Rattle.fol_base.specs.declared.clause.Side.TheVariants.{Left, Right};
ghost use Rattle.bank_clause.specs.Clause.{clause_at, IsMemberOf};
ghost use Rattle.unifier.specs.Renaming.{fits};
ghost use Rattle.unifier.specs.SolvedForm.{substitution_of};
ghost use Rattle.superpose.specs.Settled.{AreSettled, IsInOrder};
ghost use Rattle.superpose.specs.Superposing.{SuperposesBy, allows, is_root, others_coincide, starts_under};

use crate::sites::{LiteralPlace, Premise, Sites};
use crate::superposing::starts_settled;
use bank_clause::BankLiterals;
use eq_rules::{LiteralSide, is_larger_side, outsizes_others};
use fol_base::{LendsLiterals, LiteralRef, MOST_SYMBOLS, SIZE_LIMIT, Side, Term, same_term};
use plain_types::Mem;
use term_bank::Bank;
use unifier::Bindings;

/// Whether the order allows a superposition by a unifier, as far as it is told by the clauses alone and by sizes. Each term that is built for it
/// has at most `MOST_SYMBOLS` symbols.
pub fn allowed_by_sizes(
    bank: &Bank,
    first: &Premise<'_>,
    from: LiteralSide,
    second: &Premise<'_>,
    into: &LiteralPlace,
    unifier: &Bindings,
) -> Mem<Option<bool>>
    requires first_member { IsMemberOf bank.now first.now.member.now }
    requires second_member { IsMemberOf bank.now second.now.member.now }
    requires first_settled { AreSettled (clause_at first.now.member.now.clause).literals first.now.sites.now.choice first.now.sites.now.settled.items }
    requires second_settled { AreSettled (clause_at second.now.member.now.clause).literals second.now.sites.now.choice second.now.sites.now.settled.items }
    requires unified { SuperposesBy unifier.now
        (clause_at first.now.member.now.clause) from (clause_at second.now.member.now.clause) into.now }
    ensures { IfOk result (λ told. IfSome told (λ allowed. allows (clause_at first.now.member.now.clause).literals from
        (clause_at second.now.member.now.clause).literals into.now second.now.sites.now.choice
        (substitution_of unifier.now Left) (substitution_of unifier.now Right) ≡ allowed)) }
{
    let first_literals = first.member.clause.lend(bank);
    let second_literals = second.member.clause.lend(bank);
    let equation = first_literals.literal(from.literal);
    let target = second_literals.literal(into.at.literal);
    let is_first_few = u64::from(first.member.clause.variable_bound()) < SIZE_LIMIT;
    prove!(is_first_few);
    let is_second_few = u64::from(second.member.clause.variable_bound()) < SIZE_LIMIT;
    prove!(is_second_few);
    match others_coincide_by_sizes(unifier, equation, from, target, into)? {
        None => Ok(None),
        Some(true) => Ok(Some(false)),
        Some(false) => {
            let starts = starts_by_sizes(first.sites, &first_literals, from, unifier)?;
            if !starts {
                return Ok(None);
            }
            let enters = enters_by_sizes(second.sites, &second_literals, into.at, unifier)?;
            if enters { Ok(Some(true)) } else { Ok(None) }
        }
    }
}

/// Whether the clause alone or sizes tell that the order allows a superposition to start from a side under a unifier.
fn starts_by_sizes(
    sites: &Sites,
    literals: &BankLiterals<'_>,
    from: LiteralSide,
    unifier: &Bindings,
) -> Mem<bool>
    requires settled { AreSettled literals.now sites.now.choice sites.now.settled.items }
    requires inside { from.literal < length literals.now }
    ensures { IfOk result (λ sure. sure ≡ true → starts_under literals.now from (substitution_of unifier.now Left) ≡ true) }
{
    if starts_settled(sites, from) {
        return Ok(true);
    }
    let equation = literals.literal(from.literal);
    let larger = is_larger_side(unifier, Side::Left, equation, from.side)?;
    if larger {
        outsizes_others(unifier, Side::Left, literals, from.literal, from.literal)
    } else {
        Ok(false)
    }
}

/// Whether the clause alone or sizes tell that a side into which a superposition goes isn't below the other one, and its literal is eligible, under a
/// unifier.
fn enters_by_sizes(
    sites: &Sites,
    literals: &BankLiterals<'_>,
    at: LiteralSide,
    unifier: &Bindings,
) -> Mem<bool>
    requires settled { AreSettled literals.now sites.now.choice sites.now.settled.items }
    requires inside { at.literal < length literals.now }
    ensures { IfOk result (λ sure. sure ≡ true → IsInOrder literals.now sites.now.choice (substitution_of unifier.now Right) at) }
{
    if sites.is_settled(at) {
        return Ok(true);
    }
    let target = literals.literal(at.literal);
    let larger = is_larger_side(unifier, Side::Right, target, at.side)?;
    if !larger {
        return Ok(false);
    }
    match sites.choice {
        Some(chosen) => Ok(chosen == at.literal),
        None => outsizes_others(unifier, Side::Right, literals, at.literal, at.literal),
    }
}

/// Whether the place is the root of a positive literal where the other sides become one term, as far as sizes tell it.
fn others_coincide_by_sizes(
    unifier: &Bindings,
    equation: LiteralRef<'_>,
    from: LiteralSide,
    target: LiteralRef<'_>,
    into: &LiteralPlace,
) -> Mem<Option<bool>>
    requires fits { fits unifier.now SIZE_LIMIT SIZE_LIMIT ≡ true }
    requires from_below { LiteralVariablesBelow SIZE_LIMIT (lent_of equation) }
    requires into_below { LiteralVariablesBelow SIZE_LIMIT (lent_of target) }
    ensures { IfOk result (λ told. IfSome told (λ coincide. others_coincide from into.now
        (substitution_of unifier.now Left) (substitution_of unifier.now Right) (lent_of equation.entry) (lent_of target.entry) ≡ coincide)) }
{
    if !is_positive_root(target, into) {
        return Ok(Some(false));
    }
    let from_other = equation.other_side(from.side);
    let into_other = target.other_side(into.at.side);
    same_by_sizes(unifier, from_other, into_other)
}

/// Whether the place is the root of a positive literal.
fn is_positive_root(target: LiteralRef<'_>, into: &LiteralPlace) -> bool
    ensures { result ≡ ((lent_of target.entry).positive && is_root into.now.place) }
{
    target.positive && into.place.is_empty()
}

/// Whether a term of the left side and one of the right side become one term, as far as sizes tell it: terms of different sizes don't, and small
/// ones are built and compared.
fn same_by_sizes(unifier: &Bindings, left: &Term, right: &Term) -> Mem<Option<bool>>
    requires fits { fits unifier.now SIZE_LIMIT SIZE_LIMIT ≡ true }
    requires left_below { VariablesBelow SIZE_LIMIT (tree_of left.now) }
    requires right_below { VariablesBelow SIZE_LIMIT (tree_of right.now) }
    ensures { IfOk result (λ told. IfSome told (λ same. tree_eq
        (instance (substitution_of unifier.now Left) (tree_of left.now)) (instance (substitution_of unifier.now Right) (tree_of right.now)) ≡ same)) }
{
    let left_size = unifier.term_size(Side::Left, left)?;
    let right_size = unifier.term_size(Side::Right, right)?;
    if left_size != right_size {
        return Ok(Some(false));
    }
    if left_size > MOST_SYMBOLS {
        return Ok(None);
    }
    let left_term = unifier.apply(Side::Left, left)?;
    let right_term = unifier.apply(Side::Right, right)?;
    Ok(Some(same_term(&left_term, &right_term)))
}
