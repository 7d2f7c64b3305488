// Why a problem has no clausal form here.

ghost use Rattle.std.specs.Prelude.{◌≡◌, ◌+◌, nat_lt, IfOk, IfErr, Some, None};
ghost use Rattle.tptp_tree.specs.Shape.{formula_of};
ghost use Rattle.formula_nnf.specs.Expanded.{expanded_count};
ghost use Rattle.clausal_form.specs.Fault.{limit_fault};
ghost use Rattle.clausal_form.specs.Cause.{IsCauseOr};
ghost use Rattle.clausal_form.specs.declared.fault.TheConstants.{MOST_EXPANDED};

use crate::measure::Measure;
use fol_base::{MOST_FORM_SYMBOLS, MOST_SYMBOLS};
use formula_nnf::expanded;
use plain_types::{NoMemory, Text};
use std::alloc::Global;
use tptp_tree::{Annotated, Formula};

/// The most atoms and quantified variables of a formula after its equivalences are written out.
pub const MOST_EXPANDED: u64 = 1_000_000;

/// The limit that a formula passes: of several the first in this order.
#[derive(Clone, Copy, Debug, PartialEq, Eq)]
pub enum FormCause {
    /// Over `MOST_EXPANDED` atoms and quantified variables, after equivalences are written out.
    Expansion,
    /// A clause of over `MOST_SYMBOLS` symbols, which may also be one that defines a name.
    TooHeavy,
    /// Over `MOST_FORM_SYMBOLS` symbols, clauses and Skolem symbols, counted together up to and with this formula.
    TotalLimit,
}

/// Why a problem has no clausal form here: out of memory, or the first formula that passes a limit, by its name.
#[derive(Drop)]
pub enum FormFault {
    NoMemory,
    Refused(FormCause, Text),
}

impl From<NoMemory> for FormFault {
    ghost use Rattle.std.specs.Prelude.{◌≡◌};
    ghost use Rattle.clausal_form.specs.declared.fault.FormFault.TheVariants.{NoMemory as no_memory};

    ghost from_gives = { λ _ e. e ≡ no_memory };

    fn from(_error: NoMemory) -> FormFault {
        FormFault::NoMemory
    }
}

/// The fault of a formula for that cause.
pub(crate) fn refused(alloc: Global, cause: FormCause, annotated: &Annotated) -> FormFault
    ensures { IsCauseOr cause annotated.now.name result }
{
    match annotated.name.copy(alloc) {
        Ok(name) => FormFault::Refused(cause, name),
        Err(_) => FormFault::NoMemory,
    }
}

/// Whether a formula has over `MOST_EXPANDED` atoms and quantified variables after its equivalences are written out.
pub(crate) fn expands_too_far(formula: &Formula) -> bool
    ensures { result ≡ nat_lt MOST_EXPANDED (expanded_count (formula_of formula.now)) }
{
    expanded(formula) > MOST_EXPANDED
}

/// The symbols and clauses so far with those of a formula, if these pass no limit. `skolem` is the number of Skolem symbols made by then.
pub(crate) fn counted_with(measure: Measure, counted: u64, skolem: u32) -> Result<u64, FormCause>
    ensures within { IfOk result (λ _. limit_fault measure.largest (counted + measure.clauses + measure.symbols + skolem) ≡ None) }
    ensures total { IfOk result (λ total. total ≡ counted + measure.clauses + measure.symbols) }
    ensures beyond { IfErr result (λ cause. limit_fault measure.largest (counted + measure.clauses + measure.symbols + skolem) ≡ Some cause) }
{
    if measure.largest > MOST_SYMBOLS {
        return Err(FormCause::TooHeavy);
    }
    let total = counted
        .saturating_add(measure.clauses)
        .saturating_add(measure.symbols);
    if total.saturating_add(u64::from(skolem)) > MOST_FORM_SYMBOLS {
        return Err(FormCause::TotalLimit);
    }
    Ok(total)
}
