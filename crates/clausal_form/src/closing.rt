// The normal form of a formula of a problem.

ghost use Rattle.std.specs.Prelude.{◌≡◌, ◌++◌, not, map, IfOk, bytes_eq};
ghost use Rattle.std.specs.List.{list_any};
ghost use Rattle.tptp_tree.specs.Entries.{is_conjecture};
ghost use Rattle.tptp_tree.specs.Formula.{formulas_of};
ghost use Rattle.tptp_tree.specs.Shape.{formula_of, term_of};
ghost use Rattle.tptp_tree.specs.Term.{terms_of};
ghost use Rattle.signature.specs.Environment.{closed, under_for_all, different_names, free_names, all_free_names, term_names, terms_names, without_names};
ghost use Rattle.formula_nnf.specs.NormalForm.{normal_form};
ghost use Rattle.formula_nnf.specs.Shape.{nnf_tree};

use formula_nnf::{Nnf, NnfBox, nnf, quantified_form};
use indexmap::IndexSet;
use name_hash::NameHash;
use plain_types::{Mem, Text, Texts};
use skolem::VariableRef;
use std::alloc::Global;
use tptp_tree::{Annotated, Formula, TreeTerm};

/// The names that are universally quantified before a formula is worked: the variables of a `cnf` formula, none of a `fof` formula.
pub(crate) fn closing_names(alloc: Global, annotated: &Annotated) -> Mem<Texts>
    ensures { IfOk result (λ names. under_for_all names (formula_of annotated.now.formula) ≡ closed annotated.now) }
{
    if annotated.clause {
        different_free_names(alloc, &annotated.formula)
    } else {
        Ok(Texts::new(alloc))
    }
}

/// The normal form of a formula under its closing names, of the conjecture that of its negation.
pub(crate) fn closed_form<'a>(
    alloc: Global,
    annotated: &'a Annotated,
    names: &'a Texts,
) -> Mem<Nnf<'a>>
    requires { under_for_all names.now (formula_of annotated.now.formula) ≡ closed annotated.now }
    ensures { IfOk result (λ form. nnf_tree form ≡ normal_form (closed annotated.now) (not (is_conjecture annotated.now.role))) }
{
    let positive = !annotated.role.is_conjecture();
    let form = nnf(alloc, &annotated.formula, positive)?;
    if names.is_empty() {
        return Ok(form);
    }
    let body = NnfBox::new(alloc, form)?;
    Ok(quantified_form(positive, names, body))
}

/// The different names of a formula's free variables, in the order of their first places.
pub(crate) fn different_free_names(alloc: Global, formula: &Formula) -> Mem<Texts>
    ensures { IfOk result (λ names. names ≡ different_names (free_names (formula_of formula.now))) }
{
    let mut free = Texts::new(alloc);
    push_free_names(alloc, formula, &mut free)?;
    let names = different(alloc, free.as_slice())?;
    Ok(names)
}

/// The different names of a list, in the order of their first places.
fn different(alloc: Global, names: &[Text]) -> Mem<Texts>
    ensures { IfOk result (λ found. found ≡ different_names names.now) }
{
    let mut met = IndexSet::with_hasher(alloc, NameHash::new());
    let mut found = Texts::new(alloc);
    for name in names {
        let key = VariableRef {
            text: name.as_slice(),
        };
        let is_new = met.insert(key)?;
        if !is_new {
            continue;
        }
        found.push(name.copy(alloc)?)?;
    }
    Ok(found)
}

/// Whether a name is one of those.
fn is_among(name: &Text, names: &[Text]) -> bool
    ensures { result ≡ list_any (bytes_eq name.now) names.now }
{
    for other in names {
        if name.as_slice() == other.as_slice() {
            return true;
        }
    }
    false
}

/// Adds the names of a formula's free variables, with repetitions.
#[cycle(push_free_names)]
fn push_free_names(alloc: Global, formula: &Formula, names: &mut Texts) -> Mem<()>
    ensures { IfOk result (λ _. names.new ≡ names.old ++ free_names (formula_of formula.now)) }
{
    match formula {
        Formula::True | Formula::False => Ok(()),
        Formula::Pred(_, arguments) => push_all_term_names(alloc, arguments.as_slice(), names),
        Formula::Equal(left, right) | Formula::NotEqual(left, right) => {
            push_term_names(alloc, left, names)?;
            push_term_names(alloc, right, names)
        }
        Formula::Not(body) => push_free_names(alloc, body.get(), names),
        Formula::And(formulas) | Formula::Or(formulas) => {
            push_all_free_names(alloc, formulas.as_slice(), names)
        }
        Formula::Implies(left, right)
        | Formula::Implied(left, right)
        | Formula::Iff(left, right)
        | Formula::Xor(left, right)
        | Formula::Nor(left, right)
        | Formula::Nand(left, right) => {
            push_free_names(alloc, left.get(), names)?;
            push_free_names(alloc, right.get(), names)
        }
        Formula::All(bound, body) | Formula::Ex(bound, body) => {
            let mut inner = Texts::new(alloc);
            push_free_names(alloc, body.get(), &mut inner)?;
            push_without(alloc, bound.as_slice(), inner.as_slice(), names)
        }
    }
}

/// Adds those of formulas.
#[cycle(push_free_names)]
fn push_all_free_names(alloc: Global, formulas: &[Formula], names: &mut Texts) -> Mem<()>
    ensures { IfOk result (λ _. names.new ≡ names.old ++ all_free_names (formulas_of (map formula_of formulas.now))) }
{
    for formula in formulas {
        push_free_names(alloc, formula, names)?;
    }
    Ok(())
}

/// Adds those names that aren't bound.
fn push_without(alloc: Global, bound: &[Text], found: &[Text], names: &mut Texts) -> Mem<()>
    ensures { IfOk result (λ _. names.new ≡ names.old ++ without_names bound.now found.now) }
{
    for name in found {
        if !is_among(name, bound) {
            names.push(name.copy(alloc)?)?;
        }
    }
    Ok(())
}

/// Adds the names of a term's variables.
#[cycle(push_term_names)]
fn push_term_names(alloc: Global, term: &TreeTerm, names: &mut Texts) -> Mem<()>
    ensures { IfOk result (λ _. names.new ≡ names.old ++ term_names (term_of term.now)) }
{
    match term {
        TreeTerm::Var(name) => names.push(name.copy(alloc)?),
        TreeTerm::App(_, arguments) => push_all_term_names(alloc, arguments.as_slice(), names),
    }
}

/// Adds those of terms.
#[cycle(push_term_names)]
fn push_all_term_names(alloc: Global, terms: &[TreeTerm], names: &mut Texts) -> Mem<()>
    ensures { IfOk result (λ _. names.new ≡ names.old ++ terms_names (terms_of (map term_of terms.now))) }
{
    for term in terms {
        push_term_names(alloc, term, names)?;
    }
    Ok(())
}
