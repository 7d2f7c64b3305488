// Equality resolution: a negative literal whose sides unify is dropped.

ghost use Rattle.std.specs.Prelude.{◌≡◌, ◌<◌, true, false, length, IfOk};
ghost use Rattle.fol_base.specs.Ground.{literals_instance};
ghost use Rattle.fol_base.specs.Selection.{SelectionMode, chosen, eligible};
ghost use Rattle.fol_base.specs.declared.clause.Side.TheVariants.{Left};
ghost use Rattle.kernel_steps.specs.declared.key.Key.TheVariants.{Refl};
ghost use Rattle.literal_selection.specs.Mode.{mode_of};
ghost use Rattle.bank_clause.specs.Clause.{clause_at, IsMemberOf};
ghost use Rattle.unifier.specs.SolvedForm.{substitution_of};
ghost use Rattle.eq_rules.specs.Inferences.{AreInferencesOf, AreInferencesUpTo, is_resolution};
ghost use Rattle.eq_rules.specs.Concluding.{other_chosen};
ghost use Rattle.eq_rules.specs.Trying.{IsTriedOf};
ghost use Rattle.eq_rules.specs.Unified.{ResolvesBy};

use crate::concluding::conclude_resolution;
use crate::inference::{Inference, Inferences, Made, is_enough};
use crate::outsizing::outsizes_others;
use bank_clause::Member;
use fol_base::{LendsLiterals, MOST_SYMBOLS, SIZE_LIMIT, Side};
use kbo_order::COMPARED_SIZE_LIMIT;
use kernel_steps::Key;
use literal_selection::{Selection, eligible_under, selected};
use plain_types::{Mem, NoMemory};
use std::alloc::Global;
use term_bank::Bank;
use unifier::{Bindings, unify};

/// Every equality resolution of a clause, each once: `Heavy` exactly where the clause under the unifier has over `MOST_SYMBOLS`
/// symbols. Out of memory is also answered where that instance, which has to be looked at, has `SIZE_LIMIT` symbols or more.
pub fn resolutions(alloc: Global, bank: &Bank, given: &Member, mode: Selection) -> Mem<Inferences>
    requires { IsMemberOf bank.now given.now }
    ensures { IfOk result (AreInferencesOf (mode_of mode) given.now is_resolution) }
{
    resolutions_up_to(alloc, bank, given, mode, None)
}

/// As `resolutions`, in the same order, but it stops once as many are there as are enough.
pub fn resolutions_up_to(
    alloc: Global,
    bank: &Bank,
    given: &Member,
    mode: Selection,
    most: Option<usize>,
) -> Mem<Inferences>
    requires { IsMemberOf bank.now given.now }
    ensures { IfOk result (AreInferencesUpTo most (mode_of mode) given.now is_resolution) }
{
    let choice = choice_of(bank, given, mode);
    let count = given.clause.literals().len();
    let mut found = Vec::new(alloc);
    for index in 0..count {
        if is_enough(most, found.len()) {
            return Ok(Inferences::from_vec(found));
        }
        if let Some(result) = resolution(alloc, bank, given, choice, index)? {
            let key = Key::Refl {
                clause: given.number,
                literal: index as u64,
            };
            found.push(Inference { key, result })?;
        }
    }
    Ok(Inferences::from_vec(found))
}

/// The literal that is chosen in a clause.
pub fn choice_of(bank: &Bank, given: &Member, mode: Selection) -> Option<usize>
    requires { IsMemberOf bank.now given.now }
    ensures { result ≡ chosen (mode_of mode) (clause_at given.now.clause).literals }
{
    let is_small = u64::from(given.clause.size()) < COMPARED_SIZE_LIMIT;
    prove!(is_small);
    selected(&given.clause.lend(bank), mode)
}

/// The result of the resolution of a literal. None where there is none.
fn resolution(
    alloc: Global,
    bank: &Bank,
    given: &Member,
    choice: Option<usize>,
    index: usize,
) -> Mem<Option<Made>>
    requires member { IsMemberOf bank.now given.now }
    requires inside { index < length (clause_at given.now.clause).literals }
    ensures { IfOk result (λ made. (mode : SelectionMode) → choice ≡ chosen mode (clause_at given.now.clause).literals
        → IsTriedOf mode given.now (Refl given.now.number index) made) }
{
    if is_other_chosen(choice, index) {
        return Ok(None);
    }
    let literals = given.clause.lend(bank);
    let literal = literals.literal(index);
    if literal.positive {
        return Ok(None);
    }
    match unify(alloc, literal.left, literal.right, false)? {
        None => Ok(None),
        Some(unifier) => resolution_by(alloc, bank, given, choice, index, &unifier),
    }
}

/// Whether a literal is the chosen one, or sizes tell that it is eligible under a unifier.
fn is_eligible_by_size(
    bank: &Bank,
    given: &Member,
    choice: Option<usize>,
    index: usize,
    unifier: &Bindings,
) -> Mem<bool>
    requires member { IsMemberOf bank.now given.now }
    requires inside { index < length (clause_at given.now.clause).literals }
    requires not_other { other_chosen choice index ≡ false }
    ensures { IfOk result (λ sure. sure ≡ true
        → eligible (literals_instance (substitution_of unifier.now Left) (clause_at given.now.clause).literals) index choice false ≡ true) }
{
    if choice.is_some() {
        return Ok(true);
    }
    outsizes_others(unifier, Side::Left, &given.clause.lend(bank), index, index)
}

/// Whether another literal is chosen.
fn is_other_chosen(choice: Option<usize>, index: usize) -> bool
    ensures { result ≡ other_chosen choice index }
{
    match choice {
        Some(chosen) => index != chosen,
        None => false,
    }
}

/// The result of the resolution of a literal by a unifier of its sides. Where the literal is chosen, or sizes tell that no other one is
/// greater, an instance that is too large isn't built.
fn resolution_by(
    alloc: Global,
    bank: &Bank,
    given: &Member,
    choice: Option<usize>,
    index: usize,
    unifier: &Bindings,
) -> Mem<Option<Made>>
    requires member { IsMemberOf bank.now given.now }
    requires not_other { other_chosen choice index ≡ false }
    requires unified { ResolvesBy unifier.now (clause_at given.now.clause) index }
    ensures { IfOk result (λ made. (mode : SelectionMode) → choice ≡ chosen mode (clause_at given.now.clause).literals
        → IsTriedOf mode given.now (Refl given.now.number index) made) }
{
    let clause = &given.clause;
    let size = unifier.instance_size(bank, Side::Left, clause.literals())?;
    if size > MOST_SYMBOLS {
        let sure = is_eligible_by_size(bank, given, choice, index, unifier)?;
        if sure {
            return Ok(Some(Made::Heavy));
        }
    }
    if size >= SIZE_LIMIT {
        return Err(NoMemory);
    }
    let terms = unifier.terms(Side::Left, clause.variable_bound())?;
    if !eligible_under(&clause.lend(bank), &terms, index, choice, false) {
        return Ok(None);
    }
    if size > MOST_SYMBOLS {
        return Ok(Some(Made::Heavy));
    }
    Ok(Some(conclude_resolution(alloc, bank, given, &terms, index)?))
}
