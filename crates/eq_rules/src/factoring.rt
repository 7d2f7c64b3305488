// Equality factoring: of two positive literals with sides that unify, the first becomes the disequation of their other sides.

ghost use Rattle.std.specs.Prelude.{◌≡◌, ◌+◌, ◌*◌, ◌<◌, None, true, length, IfOk, IfSome};
ghost use Rattle.fol_base.specs.Clause.{literal_instance, literal_size};
ghost use Rattle.fol_base.specs.Lent.{lent_of};
ghost use Rattle.fol_base.specs.Selection.{SelectionMode, chosen};
ghost use Rattle.fol_base.specs.declared.clause.Side.TheVariants.{Left};
ghost use Rattle.kernel_steps.specs.Inference.{other_side_not_above};
ghost use Rattle.literal_selection.specs.Mode.{mode_of};
ghost use Rattle.bank_clause.specs.Clause.{clause_at, IsMemberOf};
ghost use Rattle.unifier.specs.SolvedForm.{substitution_of};
ghost use Rattle.eq_rules.specs.Inferences.{AreInferencesOf, AreInferencesUpTo, is_factoring};
ghost use Rattle.eq_rules.specs.Trying.{IsTriedOf};
ghost use Rattle.eq_rules.specs.Factoring.{
  AreFactoringsBefore,
  FactorsBy,
  HasFactoredSide,
  IsLargest,
  allows,
  are_alike,
  factor_key,
  may_become,
  number_of,
};

use crate::concluding::{FactorPlace, LiteralSide, conclude_factoring};
use crate::inference::{Inference, Inferences, Made, is_enough};
use crate::outsizing::{is_greater_by_size, is_larger_side, outsizes_others};
use crate::resolving::choice_of;
use bank_clause::{BankLiterals, Member};
use fol_base::{
    LendsLiterals, LendsTerms, LiteralRef, MOST_SYMBOLS, SIZE_LIMIT, Side, instance_size,
    same_instance,
};
use kbo_order::{COMPARED_SIZE_LIMIT, Unbound, greater_under};
use kernel_steps::Key;
use literal_selection::{Selection, eligible, eligible_under};
use plain_types::{Mem, NoMemory};
use std::alloc::Global;
use term_bank::Bank;
use unifier::{Bindings, unify};

/// Every equality factoring of a clause, each once: `Heavy` exactly where the clause under the unifier, or the conclusion, has over
/// `MOST_SYMBOLS` symbols. Out of memory is also answered where that instance, which has to be looked at, has `SIZE_LIMIT` symbols or more.
pub fn factorings(alloc: Global, bank: &Bank, given: &Member, mode: Selection) -> Mem<Inferences>
    requires { IsMemberOf bank.now given.now }
    ensures { IfOk result (AreInferencesOf (mode_of mode) given.now is_factoring) }
{
    factorings_up_to(alloc, bank, given, mode, None)
}

/// As `factorings`, in the same order, but it stops once as many are there as are enough. So a clause of hundreds of literals, which has
/// as many factorings as it has pairs of them, doesn't take memory for more than are asked for.
pub fn factorings_up_to(
    alloc: Global,
    bank: &Bank,
    given: &Member,
    mode: Selection,
    most: Option<usize>,
) -> Mem<Inferences>
    requires { IsMemberOf bank.now given.now }
    ensures { IfOk result (AreInferencesUpTo most (mode_of mode) given.now is_factoring) }
{
    let mut found = Vec::new(alloc);
    if choice_of(bank, given, mode).is_some() {
        return Ok(Inferences::from_vec(found));
    }
    let sides = 2 * given.clause.literals().len();
    for number in 0..sides {
        factor_side(alloc, bank, given, number, most, &mut found)?;
        if is_enough(most, found.len()) {
            return Ok(Inferences::from_vec(found));
        }
    }
    Ok(Inferences::from_vec(found))
}

/// Adds the factorings by one side of a literal, which becomes a disequation, until there are enough: by its number, as the sides are counted.
fn factor_side(
    alloc: Global,
    bank: &Bank,
    given: &Member,
    number: usize,
    most: Option<usize>,
    found: &mut Vec<Inference>,
) -> Mem<()>
    requires member { IsMemberOf bank.now given.now }
    requires inside { number < 2 * length (clause_at given.now.clause).literals }
    ensures { IfOk result (λ _. (mode : SelectionMode) → chosen mode (clause_at given.now.clause).literals ≡ None
        → AreFactoringsBefore mode given.now number 0 found.old.items
        → HasFactoredSide most mode given.now number found.new.items) }
{
    let becomes = side_at(number);
    if !may_become(bank, given, becomes) {
        return Ok(());
    }
    let sides = 2 * given.clause.literals().len();
    for other in 0..sides {
        let place = FactorPlace {
            becomes,
            other: side_at(other),
        };
        factor_place(alloc, bank, given, place, found)?;
        if is_enough(most, found.len()) {
            return Ok(());
        }
    }
    Ok(())
}

/// Adds the factoring by two sides, if there is one.
fn factor_place(
    alloc: Global,
    bank: &Bank,
    given: &Member,
    place: FactorPlace,
    found: &mut Vec<Inference>,
) -> Mem<()>
    requires member { IsMemberOf bank.now given.now }
    requires becomes_inside { place.becomes.literal < length (clause_at given.now.clause).literals }
    requires other_inside { place.other.literal < length (clause_at given.now.clause).literals }
    ensures { IfOk result (λ _. (mode : SelectionMode) → chosen mode (clause_at given.now.clause).literals ≡ None
        → AreFactoringsBefore mode given.now (number_of place.becomes) (number_of place.other) found.old.items
        → AreFactoringsBefore mode given.now (number_of place.becomes) (number_of place.other + 1) found.new.items) }
{
    if let Some(result) = factoring(alloc, bank, given, place)? {
        let key = Key::Factor {
            clause: given.number,
            becomes: place.becomes.literal as u64,
            becomes_side: place.becomes.side,
            other: place.other.literal as u64,
            other_side: place.other.side,
        };
        found.push(Inference { key, result })?;
    }
    Ok(())
}

/// The side of a number: the left side of literal i has the number 2i, its right side the next one.
fn side_at(number: usize) -> LiteralSide
    ensures { number_of result ≡ number }
{
    let side = if number % 2 == 0 {
        Side::Left
    } else {
        Side::Right
    };
    LiteralSide {
        literal: number / 2,
        side,
    }
}

/// Whether a literal may become a disequation by a side, under some unifier: it is positive and eligible, and the other side isn't
/// above that side. What fails here fails under every unifier.
fn may_become(bank: &Bank, given: &Member, becomes: LiteralSide) -> bool
    requires member { IsMemberOf bank.now given.now }
    requires inside { becomes.literal < length (clause_at given.now.clause).literals }
    ensures { result ≡ may_become (clause_at given.now.clause).literals becomes.literal becomes.side }
{
    let is_small = u64::from(given.clause.size()) < COMPARED_SIZE_LIMIT;
    prove!(is_small);
    let literals = given.clause.lend(bank);
    let literal = literals.literal(becomes.literal);
    literal.positive
        && is_not_below(literal, becomes.side, &Unbound)
        && eligible(&literals, becomes.literal, None, false)
}

/// Whether the other side of a literal isn't greater than or equal to a side, under terms.
pub fn is_not_below<S: LendsTerms>(literal: LiteralRef<'_>, side: Side, bind: &S) -> bool
    requires { literal_size (literal_instance (S.meaning bind.now) (lent_of literal)) < COMPARED_SIZE_LIMIT }
    ensures { result ≡ other_side_not_above (S.meaning bind.now) side (lent_of literal.entry) }
{
    let chosen = literal.side(side);
    let other = literal.other_side(side);
    !greater_under(other, bind, chosen, bind) && !same_instance(other, bind, chosen, bind)
}

/// The result of the factoring by two sides of a clause where nothing is selected. None where there is none.
fn factoring(alloc: Global, bank: &Bank, given: &Member, place: FactorPlace) -> Mem<Option<Made>>
    requires member { IsMemberOf bank.now given.now }
    requires becomes_inside { place.becomes.literal < length (clause_at given.now.clause).literals }
    requires other_inside { place.other.literal < length (clause_at given.now.clause).literals }
    ensures { IfOk result (λ made. (mode : SelectionMode) → chosen mode (clause_at given.now.clause).literals ≡ None
        → IsTriedOf mode given.now (factor_key given.now.number place) made) }
{
    if place.becomes.literal == place.other.literal {
        return Ok(None);
    }
    let literals = given.clause.lend(bank);
    let becomes = literals.literal(place.becomes.literal);
    let other = literals.literal(place.other.literal);
    if !are_alike(becomes, place.becomes.side, other, place.other.side) {
        return Ok(None);
    }
    let left = becomes.side(place.becomes.side);
    let right = other.side(place.other.side);
    match unify(alloc, left, right, false)? {
        None => Ok(None),
        Some(unifier) => factoring_by(alloc, bank, given, place, &unifier),
    }
}

/// Whether two literals are positive and two sides of them are of one kind, neither of them `$true`: an atom's other side is `$true`.
fn are_alike(
    first: LiteralRef<'_>,
    first_side: Side,
    second: LiteralRef<'_>,
    second_side: Side,
) -> bool
    ensures { result ≡ are_alike (lent_of first.entry) first_side (lent_of second.entry) second_side }
{
    first.positive
        && second.positive
        && !first.side(first_side).is_truth()
        && !second.side(second_side).is_truth()
        && first.other_side(first_side).is_truth() == second.other_side(second_side).is_truth()
}

/// Whether the order allows the factoring by two sides under a unifier of them, as far as sizes tell it. The unified sides cancel out, so of the two
/// literals the greater other side decides.
fn allowed_by_sizes(
    bank: &Bank,
    given: &Member,
    place: FactorPlace,
    unifier: &Bindings,
) -> Mem<Option<bool>>
    requires member { IsMemberOf bank.now given.now }
    requires unified { FactorsBy unifier.now (clause_at given.now.clause) place }
    ensures { IfOk result (λ told. IfSome told
        (λ allowed. allows (substitution_of unifier.now Left) (clause_at given.now.clause).literals place ≡ allowed)) }
{
    let literals = given.clause.lend(bank);
    let becomes = literals.literal(place.becomes.literal);
    let other = literals.literal(place.other.literal);
    let is_few = u64::from(given.clause.variable_bound()) < SIZE_LIMIT;
    prove!(is_few);
    let coming = other.other_side(place.other.side);
    let staying = becomes.other_side(place.becomes.side);
    match is_greater_by_size(unifier, Side::Left, coming, staying)? {
        None => Ok(None),
        Some(true) => Ok(Some(false)),
        Some(false) => {
            let largest = is_surely_largest(unifier, &literals, place)?;
            if largest { Ok(Some(true)) } else { Ok(None) }
        }
    }
}

/// Whether the side by which a literal becomes a disequation has more symbols under a unifier than its other side, and its literal's larger side more
/// than those of all literals but the two.
fn is_surely_largest(
    unifier: &Bindings,
    literals: &BankLiterals<'_>,
    place: FactorPlace,
) -> Mem<bool>
    requires { place.becomes.literal < length literals.now }
    ensures { IfOk result (λ largest. largest ≡ true → IsLargest (substitution_of unifier.now Left) literals.now place) }
{
    let becomes = literals.literal(place.becomes.literal);
    let larger = is_larger_side(unifier, Side::Left, becomes, place.becomes.side)?;
    if larger {
        outsizes_others(
            unifier,
            Side::Left,
            literals,
            place.becomes.literal,
            place.other.literal,
        )
    } else {
        Ok(false)
    }
}

/// The result of the factoring by two sides and a unifier of them. Where sizes tell what the order says, an instance that is too large isn't built.
fn factoring_by(
    alloc: Global,
    bank: &Bank,
    given: &Member,
    place: FactorPlace,
    unifier: &Bindings,
) -> Mem<Option<Made>>
    requires member { IsMemberOf bank.now given.now }
    requires unified { FactorsBy unifier.now (clause_at given.now.clause) place }
    ensures { IfOk result (λ made. (mode : SelectionMode) → chosen mode (clause_at given.now.clause).literals ≡ None
        → IsTriedOf mode given.now (factor_key given.now.number place) made) }
{
    let clause = &given.clause;
    let size = unifier.instance_size(bank, Side::Left, clause.literals())?;
    let is_overweight = size > MOST_SYMBOLS;
    if is_overweight {
        match allowed_by_sizes(bank, given, place, unifier)? {
            Some(true) => return Ok(Some(Made::Heavy)),
            Some(false) => return Ok(None),
            None => {}
        }
    }
    if size >= SIZE_LIMIT {
        return Err(NoMemory);
    }
    let terms = unifier.terms(Side::Left, clause.variable_bound())?;
    let literals = clause.lend(bank);
    let becomes = literals.literal(place.becomes.literal);
    if !is_not_below(becomes, place.becomes.side, &terms) {
        return Ok(None);
    }
    if !eligible_under(&literals, &terms, place.becomes.literal, None, false) {
        return Ok(None);
    }
    if size > MOST_SYMBOLS {
        return Ok(Some(Made::Heavy));
    }
    let other = literals.literal(place.other.literal);
    let goes = instance_size(becomes.side(place.becomes.side), &terms);
    let comes = instance_size(other.other_side(place.other.side), &terms);
    if size - goes + comes > MOST_SYMBOLS {
        return Ok(Some(Made::Heavy));
    }
    Ok(Some(conclude_factoring(alloc, bank, given, &terms, place)?))
}
