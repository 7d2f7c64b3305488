// The negation normal form of a formula.

ghost use Rattle.std.specs.Prelude.{◌≡◌, IfOk, map};
ghost use Rattle.tptp_tree.specs.Formula.{formulas_of, quantified, for_all, equivalent, connected};
ghost use Rattle.tptp_tree.specs.Shape.{formula_of};
ghost use Rattle.formula_nnf.specs.Shape.{nnf_tree};
ghost use Rattle.formula_nnf.specs.NormalForm.{normal_form, normal_forms, constant_form, list_form, pair_form, quantifier_form};

use crate::form::{Nnf, NnfBox, Nnfs};
use plain_types::{Mem, Texts};
use std::alloc::Global;
use tptp_tree::{Formula, FormulaBox};

/// The negation normal form of a formula (`positive`) or of its negation, in the formula's order. A part of an equivalence stands
/// twice, so a formula should be counted with `expanded` first.
#[cycle(nnf)]
pub fn nnf<'a>(alloc: Global, formula: &'a Formula, positive: bool) -> Mem<Nnf<'a>>
    ensures { IfOk result (λ form. nnf_tree form ≡ normal_form (formula_of formula.now) positive) }
{
    match formula {
        Formula::True => Ok(constant(positive)),
        Formula::False => Ok(constant(!positive)),
        Formula::Pred(name, arguments) => Ok(Nnf::Pred(positive, name, arguments)),
        Formula::Equal(left, right) => Ok(Nnf::Equal(positive, left, right)),
        Formula::NotEqual(left, right) => Ok(Nnf::Equal(!positive, left, right)),
        Formula::Not(body) => nnf(alloc, body.get(), !positive),
        Formula::And(formulas) => Ok(list(positive, nnfs(alloc, formulas.as_slice(), positive)?)),
        Formula::Or(formulas) => Ok(list(!positive, nnfs(alloc, formulas.as_slice(), positive)?)),
        Formula::Implies(left, right) => joined(alloc, !positive, left, !positive, right, positive),
        Formula::Implied(left, right) => joined(alloc, !positive, left, positive, right, !positive),
        Formula::Nor(left, right) => joined(alloc, positive, left, !positive, right, !positive),
        Formula::Nand(left, right) => joined(alloc, !positive, left, !positive, right, !positive),
        Formula::Iff(left, right) => doubled(alloc, left, right, positive),
        Formula::Xor(left, right) => doubled(alloc, left, right, !positive),
        Formula::All(names, body) => quantified(alloc, positive, names, body, positive),
        Formula::Ex(names, body) => quantified(alloc, !positive, names, body, positive),
    }
}

/// The normal forms of formulas.
#[cycle(nnf)]
fn nnfs<'a>(alloc: Global, formulas: &'a [Formula], positive: bool) -> Mem<Nnfs<'a>>
    ensures { IfOk result (λ forms. formulas_of forms ≡ normal_forms (formulas_of (map formula_of formulas.now)) positive) }
{
    let mut forms = Nnfs::new(alloc);
    for formula in formulas {
        forms.push(nnf(alloc, formula, positive)?)?;
    }
    Ok(forms)
}

/// The conjunction (`all`) or disjunction of two formulas' normal forms.
#[cycle(nnf)]
fn joined<'a>(
    alloc: Global,
    all: bool,
    left: &'a FormulaBox,
    left_positive: bool,
    right: &'a FormulaBox,
    right_positive: bool,
) -> Mem<Nnf<'a>>
    ensures { IfOk result (λ form. nnf_tree form ≡ pair_form all (normal_form left.now left_positive) (normal_form right.now right_positive)) }
{
    let left_form = nnf(alloc, left.get(), left_positive)?;
    let right_form = nnf(alloc, right.get(), right_positive)?;
    pair(alloc, all, left_form, right_form)
}

/// The two disjunctions of an equivalence.
#[cycle(nnf)]
fn doubled<'a>(
    alloc: Global,
    left: &'a FormulaBox,
    right: &'a FormulaBox,
    positive: bool,
) -> Mem<Nnf<'a>>
    ensures { IfOk result (λ form. nnf_tree form ≡ normal_form (connected equivalent left.now right.now) positive) }
{
    let first = joined(alloc, false, left, !positive, right, true)?;
    let second = joined(alloc, false, left, positive, right, false)?;
    pair(alloc, true, first, second)
}

/// A formula's normal form under `!` (`all`) or `?`.
#[cycle(nnf)]
fn quantified<'a>(
    alloc: Global,
    all: bool,
    names: &'a Texts,
    body: &'a FormulaBox,
    positive: bool,
) -> Mem<Nnf<'a>>
    ensures { IfOk result (λ form. nnf_tree form ≡ quantified (quantifier_form all for_all) names.now (normal_form body.now positive)) }
{
    let form = nnf(alloc, body.get(), positive)?;
    let body = NnfBox::new(alloc, form)?;
    Ok(quantified_form(all, names, body))
}

/// `$true` or `$false`.
fn constant<'a>(positive: bool) -> Nnf<'a>
    ensures { nnf_tree result ≡ constant_form positive }
{
    if positive { Nnf::True } else { Nnf::False }
}

/// The conjunction (`all`) or disjunction of forms.
fn list<'a>(all: bool, forms: Nnfs<'a>) -> Nnf<'a>
    ensures { nnf_tree result ≡ list_form all (formulas_of forms.entry) }
{
    if all { Nnf::And(forms) } else { Nnf::Or(forms) }
}

/// The conjunction (`all`) or disjunction of two forms.
fn pair<'a>(alloc: Global, all: bool, left: Nnf<'a>, right: Nnf<'a>) -> Mem<Nnf<'a>>
    ensures { IfOk result (λ form. nnf_tree form ≡ pair_form all (nnf_tree left.entry) (nnf_tree right.entry)) }
{
    let mut forms = Nnfs::new(alloc);
    forms.push(left)?;
    forms.push(right)?;
    Ok(list(all, forms))
}

/// A boxed form under `!` (`all`) or `?`.
pub fn quantified_form<'a>(all: bool, names: &'a Texts, body: NnfBox<'a>) -> Nnf<'a>
    ensures { nnf_tree result ≡ quantified (quantifier_form all for_all) names.now body.entry }
{
    if all {
        Nnf::All(names, body)
    } else {
        Nnf::Ex(names, body)
    }
}
