// The steps of the rules with one premise, and their conclusions.

ghost use Rattle.std.specs.Prelude.{◌≡◌, ◌<◌, true, length, flat_map, IfOk};
ghost use Rattle.std.specs.Option.{is_some};
ghost use Rattle.fol_base.specs.Instance.{substitution};
ghost use Rattle.fol_base.specs.Clause.{clause_variables, literal_variables};
ghost use Rattle.fol_base.specs.Numbering.{with_variables};
ghost use Rattle.fol_base.specs.Canonical.{bound_of};
ghost use Rattle.fol_base.specs.Ground.{literals_instance};
ghost use Rattle.fol_base.specs.Rules.{resolved, factored};
ghost use Rattle.kernel_steps.specs.Names.{sorted_names};
ghost use Rattle.bank_clause.specs.Clause.{clause_at, IsMemberOf};
ghost use Rattle.eq_rules.specs.Steps.{IsResolutionStep, IsFactoringStep, factored_plain};

use crate::inference::Made;
use crate::renaming::{number_instance, number_literals, renamed_terms};
use crate::renumbering::Renumbering;
use bank_clause::{BankClause, Member};
use fol_base::{Clause, LendsLiterals, Side, Terms};
use kernel_steps::{Bound, Step, factor, refl, sorted_names};
use plain_types::{Mem, NameLit, Names};
use std::alloc::Global;
use term_bank::Bank;

/// A side of a literal of a clause.
#[derive(Clone, Copy)]
pub struct LiteralSide {
    pub literal: usize,
    pub side: Side,
}

/// Two sides of a clause, which equality factoring unifies.
#[derive(Clone, Copy)]
pub struct FactorPlace {
    /// The side of the literal that becomes a disequation.
    pub becomes: LiteralSide,
    pub other: LiteralSide,
}

/// The step of the equality resolution of a literal under terms that make its sides equal, and its conclusion. The variables get their
/// numbers first, in a walk that builds nothing, so the conclusion is built once.
pub fn conclude_resolution(
    alloc: Global,
    bank: &Bank,
    given: &Member,
    terms: &Terms,
    index: usize,
) -> Mem<Made>
    requires member { IsMemberOf bank.now given.now }
    requires inside { index < length (clause_at given.now.clause).literals }
    requires covers { length terms.now ≡ bound_of (clause_variables (clause_at given.now.clause)) }
    requires applies { is_some
        (resolved (literals_instance (substitution terms.now) (clause_at given.now.clause).literals) index) ≡ true }
    ensures { IfOk result (IsResolutionStep given.now.number (clause_at given.now.clause) index terms.now) }
{
    let literals = given.clause.lend(bank);
    let mut numbers = Renumbering::new(alloc);
    number_literals(&mut numbers, &literals, terms, 0, index)?;
    number_literals(&mut numbers, &literals, terms, index + 1, literals.count())?;
    let bind = renamed_terms(alloc, &mut numbers, terms)?;
    let parent = Bound {
        literals: &literals,
        bind: &bind,
    };
    match refl(alloc, &parent, index as u64)? {
        None => unreachable!(),
        Some(made) => {
            let clause = Clause {
                literals: made,
                names: names_of(alloc, &given.clause)?,
            };
            let step = Step::Refl {
                parent: u64::from(given.number),
                literal: index as u64,
                bind,
            };
            Ok(Made::Conclusion(step, clause))
        }
    }
}

/// The step of the equality factoring by two sides under terms that make them equal, and its conclusion, as for resolution.
pub fn conclude_factoring(
    alloc: Global,
    bank: &Bank,
    given: &Member,
    terms: &Terms,
    place: FactorPlace,
) -> Mem<Made>
    requires member { IsMemberOf bank.now given.now }
    requires becomes_inside { place.becomes.literal < length (clause_at given.now.clause).literals }
    requires other_inside { place.other.literal < length (clause_at given.now.clause).literals }
    requires covers { length terms.now ≡ bound_of (clause_variables (clause_at given.now.clause)) }
    requires applies { is_some (factored (literals_instance (substitution terms.now) (clause_at given.now.clause).literals)
        place.becomes.literal place.becomes.side place.other.literal place.other.side) ≡ true }
    ensures { IfOk result (IsFactoringStep given.now.number (clause_at given.now.clause)
        place.becomes.literal place.becomes.side place.other.literal place.other.side terms.now) }
{
    let literals = given.clause.lend(bank);
    let mut numbers = Renumbering::new(alloc);
    number_factored(&mut numbers, &literals, terms, place)?;
    let bind = renamed_terms(alloc, &mut numbers, terms)?;
    let parent = Bound {
        literals: &literals,
        bind: &bind,
    };
    let becomes = place.becomes.literal as u64;
    let other = place.other.literal as u64;
    match factor(
        alloc,
        &parent,
        becomes,
        place.becomes.side,
        other,
        place.other.side,
    )? {
        None => unreachable!(),
        Some(made) => {
            let clause = Clause {
                literals: made,
                names: names_of(alloc, &given.clause)?,
            };
            let step = Step::Factor {
                parent: u64::from(given.number),
                becomes,
                becomes_side: place.becomes.side,
                other,
                other_side: place.other.side,
                bind,
            };
            Ok(Made::Conclusion(step, clause))
        }
    }
}

/// Numbers the variables of a factoring's conclusion: of the literals, with the disequation in the place of the one that becomes it.
fn number_factored<L: LendsLiterals>(
    numbers: &mut Renumbering,
    literals: &L,
    terms: &Terms,
    place: FactorPlace,
) -> Mem<()>
    requires becomes_inside { place.becomes.literal < length (L.meaning literals.now) }
    requires other_inside { place.other.literal < length (L.meaning literals.now) }
    ensures { IfOk result (λ _. numbers.new ≡ with_variables numbers.old (flat_map literal_variables
        (factored_plain (L.meaning literals.now) (substitution terms.now) place))) }
{
    let count = literals.count();
    let becomes = place.becomes.literal;
    let first = literals.literal(becomes).other_side(place.becomes.side);
    let second = literals
        .literal(place.other.literal)
        .other_side(place.other.side);
    number_literals(numbers, literals, terms, 0, becomes)?;
    number_instance(numbers, first, terms)?;
    number_instance(numbers, second, terms)?;
    number_literals(numbers, literals, terms, becomes + 1, count)
}

/// The names of a conclusion from this premise alone.
fn names_of(alloc: Global, clause: &BankClause) -> Mem<Names>
    ensures { IfOk result (λ names. names ≡ sorted_names (clause_at clause.now).names) }
{
    let mut asserted = Vec::with_capacity(alloc, clause.names().len())?;
    for name in clause.names() {
        asserted.push(NameLit {
            positive: false,
            name: *name,
        })?;
    }
    Ok(Names::from_vec(sorted_names(alloc, asserted.as_slice())?))
}
