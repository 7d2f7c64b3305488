// How many Skolem symbols the work on a problem makes, which is where the numbers of the naming symbols begin.

ghost use Rattle.std.specs.Prelude.{◌≡◌, ◌+◌, true, false, not, map, IfOk, if◌then◌else◌};
ghost use Rattle.tptp_tree.specs.Formula.{formulas_of};
ghost use Rattle.tptp_tree.specs.Shape.{formula_of};
ghost use Rattle.signature.specs.Form.{skolem_count, all_skolem_count};
ghost use Rattle.signature.specs.Environment.{closed};
ghost use Rattle.tptp_tree.specs.Entries.{is_conjecture};
ghost use Rattle.clausal_form.specs.Progress.{counted_skolem};

use crate::closing::different_free_names;
use crate::fault::expands_too_far;
use fol_base::MOST_FORM_SYMBOLS;
use plain_types::{Mem, NoMemory};
use std::alloc::Global;
use tptp_tree::{Annotated, Formula};

/// The Skolem symbols of the work on a formula, and of that on its negation.
#[derive(Clone, Copy)]
struct SkolemCount {
    positive: u64,
    negative: u64,
}

/// The Skolem symbols of a problem's formulas, up to the first that is too large when it is written out. The count stops at the limit on
/// a form: where there are more, no form is made.
pub(crate) fn count_skolem_symbols(alloc: Global, formulas: &[Annotated]) -> Mem<u64>
    ensures { IfOk result (λ total. total ≡ counted_skolem formulas.now) }
{
    let mut total = 0;
    for annotated in formulas {
        if expands_too_far(&annotated.formula) {
            return Ok(total);
        }
        total = sum(total, formula_skolem_symbols(alloc, annotated)?)?.min(MOST_FORM_SYMBOLS);
    }
    Ok(total)
}

/// The Skolem symbols of a formula, of the conjecture those of its negation.
fn formula_skolem_symbols(alloc: Global, annotated: &Annotated) -> Mem<u64>
    ensures { IfOk result (λ count. count ≡ skolem_count (closed annotated.now) (not (is_conjecture annotated.now.role))) }
{
    let count = skolem_counts(&annotated.formula)?;
    if !annotated.role.is_conjecture() {
        return Ok(count.positive);
    }
    if !annotated.clause {
        return Ok(count.negative);
    }
    let names = different_free_names(alloc, &annotated.formula)?;
    let total = sum(names.len() as u64, count.negative)?;
    Ok(total)
}

/// The Skolem symbols of a formula under both signs. A formula that doesn't expand too far has far fewer than a u64 counts.
#[cycle(skolem_counts)]
fn skolem_counts(formula: &Formula) -> Mem<SkolemCount>
    ensures positive { IfOk result (λ count. count.positive ≡ skolem_count (formula_of formula.now) true) }
    ensures negative { IfOk result (λ count. count.negative ≡ skolem_count (formula_of formula.now) false) }
{
    match formula {
        Formula::True
        | Formula::False
        | Formula::Pred(_, _)
        | Formula::Equal(_, _)
        | Formula::NotEqual(_, _) => Ok(SkolemCount {
            positive: 0,
            negative: 0,
        }),
        Formula::Not(body) => Ok(turned(skolem_counts(body.get())?)),
        Formula::And(formulas) | Formula::Or(formulas) => all_skolem_counts(formulas.as_slice()),
        Formula::Implies(left, right) => {
            let first = turned(skolem_counts(left.get())?);
            both(first, skolem_counts(right.get())?)
        }
        Formula::Implied(left, right) => {
            let first = skolem_counts(left.get())?;
            both(first, turned(skolem_counts(right.get())?))
        }
        Formula::Nor(left, right) | Formula::Nand(left, right) => {
            let first = turned(skolem_counts(left.get())?);
            both(first, turned(skolem_counts(right.get())?))
        }
        Formula::Iff(left, right) | Formula::Xor(left, right) => {
            let first = doubled(skolem_counts(left.get())?)?;
            both(first, doubled(skolem_counts(right.get())?)?)
        }
        Formula::All(names, body) => quantified(
            names.len() as u64,
            false,
            skolem_counts(body.get())?,
        ),
        Formula::Ex(names, body) => quantified(
            names.len() as u64,
            true,
            skolem_counts(body.get())?,
        ),
    }
}

/// The sums over formulas.
#[cycle(skolem_counts)]
fn all_skolem_counts(formulas: &[Formula]) -> Mem<SkolemCount>
    ensures positive { IfOk result (λ count. count.positive ≡ all_skolem_count (formulas_of (map formula_of formulas.now)) true) }
    ensures negative { IfOk result (λ count. count.negative ≡ all_skolem_count (formulas_of (map formula_of formulas.now)) false) }
{
    let mut total = SkolemCount {
        positive: 0,
        negative: 0,
    };
    for formula in formulas {
        total = both(total, skolem_counts(formula)?)?;
    }
    Ok(total)
}

/// The counts of the negation.
fn turned(count: SkolemCount) -> SkolemCount
    ensures positive { result.positive ≡ count.negative }
    ensures negative { result.negative ≡ count.positive }
{
    SkolemCount {
        positive: count.negative,
        negative: count.positive,
    }
}

/// The counts of two formulas together.
fn both(first: SkolemCount, second: SkolemCount) -> Mem<SkolemCount>
    ensures positive { IfOk result (λ count. count.positive ≡ first.positive + second.positive) }
    ensures negative { IfOk result (λ count. count.negative ≡ first.negative + second.negative) }
{
    Ok(SkolemCount {
        positive: sum(first.positive, second.positive)?,
        negative: sum(first.negative, second.negative)?,
    })
}

/// The counts of a formula that is worked under both signs.
fn doubled(count: SkolemCount) -> Mem<SkolemCount>
    ensures positive { IfOk result (λ made. made.positive ≡ count.positive + count.negative) }
    ensures negative { IfOk result (λ made. made.negative ≡ count.positive + count.negative) }
{
    let total = sum(count.positive, count.negative)?;
    Ok(SkolemCount {
        positive: total,
        negative: total,
    })
}

/// The counts under a quantifier of `names` names, which become Skolem terms under + (`positive`) or under -.
fn quantified(names: u64, positive: bool, count: SkolemCount) -> Mem<SkolemCount>
    ensures positive { IfOk result (λ made. made.positive ≡ (if positive then names else 0) + count.positive) }
    ensures negative { IfOk result (λ made. made.negative ≡ (if positive then 0 else names) + count.negative) }
{
    if positive {
        return Ok(SkolemCount {
            positive: sum(names, count.positive)?,
            negative: count.negative,
        });
    }
    Ok(SkolemCount {
        positive: count.positive,
        negative: sum(names, count.negative)?,
    })
}

fn sum(first: u64, second: u64) -> Mem<u64>
    ensures { IfOk result (λ total. total ≡ first + second) }
{
    first.checked_add(second).ok_or(NoMemory)
}
