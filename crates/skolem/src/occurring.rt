// The variables that occur in the terms of a form's free variables. A walk over the form notes the place of the binding at each occurrence of
// a name, and not what its term has: a Skolem term of many arguments may occur often.

ghost use Rattle.std.specs.Prelude.{◌≡◌, ◌++◌, map, length, take, IfOk};
ghost use Rattle.tptp_tree.specs.Term.{terms_of};
ghost use Rattle.tptp_tree.specs.Shape.{term_of};
ghost use Rattle.tptp_tree.specs.Formula.{formulas_of};
ghost use Rattle.fol_base.specs.Tree.{tree_variables};
ghost use Rattle.signature.specs.Environment.{term_names, terms_names, term_in_force};
ghost use Rattle.formula_nnf.specs.Shape.{nnf_tree};
ghost use Rattle.skolem.specs.Progress.{environment_of, occurring_in, with_closed, occurring, all_occurring, outer_variables, AreClosedFrom};

use crate::bindings::Bindings;
use crate::bound_term::BoundTerm;
use formula_nnf::{Nnf, NnfBox};
use plain_types::{Mem, NoMemory, Text};
use std::alloc::Global;
use tptp_tree::TreeTerm;

/// Adds the places, among the first `outer` bindings, of a form's names, with repetitions. The bindings after those are of names that are
/// bound in the form.
#[cycle(push_occurring)]
fn push_occurring(
    alloc: Global,
    form: &Nnf<'_>,
    outer: usize,
    bindings: &mut Bindings,
    places: &mut Vec<u32>,
) -> Mem<()>
    requires inner { AreClosedFrom outer bindings.old }
    ensures found { IfOk result (λ _. outer_variables outer bindings.old places.new.items
        ≡ outer_variables outer bindings.old places.old.items ++ occurring (nnf_tree form.now) (environment_of bindings.old)) }
    ensures bindings { IfOk result (λ _. bindings.new ≡ bindings.old) }
{
    match form {
        Nnf::True | Nnf::False => Ok(()),
        Nnf::Pred(_, _, arguments) => push_in_terms(arguments.as_slice(), outer, bindings, places),
        Nnf::Equal(_, left, right) => {
            push_in_term(left, outer, bindings, places)?;
            push_in_term(right, outer, bindings, places)
        }
        Nnf::And(forms) | Nnf::Or(forms) => {
            push_all_occurring(alloc, forms.as_slice(), outer, bindings, places)
        }
        Nnf::All(names, body) | Nnf::Ex(names, body) => {
            push_occurring_under(alloc, names.as_slice(), body, outer, bindings, places)
        }
    }
}

/// Adds those of forms.
#[cycle(push_occurring)]
fn push_all_occurring(
    alloc: Global,
    forms: &[Nnf<'_>],
    outer: usize,
    bindings: &mut Bindings,
    places: &mut Vec<u32>,
) -> Mem<()>
    requires inner { AreClosedFrom outer bindings.old }
    ensures found { IfOk result (λ _. outer_variables outer bindings.old places.new.items
        ≡ outer_variables outer bindings.old places.old.items ++ all_occurring (formulas_of (map nnf_tree forms.now)) (environment_of bindings.old)) }
    ensures bindings { IfOk result (λ _. bindings.new ≡ bindings.old) }
{
    for form in forms {
        push_occurring(alloc, form, outer, bindings, places)?;
    }
    Ok(())
}

/// Adds those of a quantified form, given by its names and its body.
#[cycle(push_occurring)]
pub(crate) fn push_occurring_under(
    alloc: Global,
    names: &[Text],
    body: &NnfBox<'_>,
    outer: usize,
    bindings: &mut Bindings,
    places: &mut Vec<u32>,
) -> Mem<()>
    requires inner { AreClosedFrom outer bindings.old }
    ensures found { IfOk result (λ _. outer_variables outer bindings.old places.new.items
        ≡ outer_variables outer bindings.old places.old.items ++ occurring body.now (with_closed names.now (environment_of bindings.old))) }
    ensures bindings { IfOk result (λ _. bindings.new ≡ bindings.old) }
{
    let before = bindings.len();
    close_names(alloc, names, bindings)?;
    push_occurring(alloc, body.get(), outer, bindings, places)?;
    bindings.truncate(before);
    Ok(())
}

/// Binds each name to a term without variables, so that it adds none.
fn close_names(alloc: Global, names: &[Text], bindings: &mut Bindings) -> Mem<()>
    ensures closed { IfOk result (λ _. environment_of bindings.new ≡ with_closed names.now (environment_of bindings.old)) }
    ensures before { IfOk result (λ _. take (length bindings.old) bindings.new ≡ bindings.old) }
    ensures inner { IfOk result (λ _. AreClosedFrom (length bindings.old) bindings.new) }
{
    for name in names {
        bindings.push(alloc, name, BoundTerm::Closed)?;
    }
    Ok(())
}

/// Adds the places of a term's names.
#[cycle(push_in_term)]
fn push_in_term(
    term: &TreeTerm,
    outer: usize,
    bindings: &Bindings,
    places: &mut Vec<u32>,
) -> Mem<()>
    requires inner { AreClosedFrom outer bindings.now }
    ensures { IfOk result (λ _. outer_variables outer bindings.now places.new.items
        ≡ outer_variables outer bindings.now places.old.items ++ occurring_in (environment_of bindings.now) (term_names (term_of term.now))) }
{
    match term {
        TreeTerm::Var(name) => push_of_name(name, outer, bindings, places),
        TreeTerm::App(_, arguments) => push_in_terms(arguments.as_slice(), outer, bindings, places),
    }
}

/// Adds those of terms.
#[cycle(push_in_term)]
fn push_in_terms(
    terms: &[TreeTerm],
    outer: usize,
    bindings: &Bindings,
    places: &mut Vec<u32>,
) -> Mem<()>
    requires inner { AreClosedFrom outer bindings.now }
    ensures { IfOk result (λ _. outer_variables outer bindings.now places.new.items
        ≡ outer_variables outer bindings.now places.old.items ++ occurring_in (environment_of bindings.now) (terms_names (terms_of (map term_of terms.now)))) }
{
    for term in terms {
        push_in_term(term, outer, bindings, places)?;
    }
    Ok(())
}

/// Adds the place of a name that is bound outside.
fn push_of_name(name: &Text, outer: usize, bindings: &Bindings, places: &mut Vec<u32>) -> Mem<()>
    requires inner { AreClosedFrom outer bindings.now }
    ensures { IfOk result (λ _. outer_variables outer bindings.now places.new.items
        ≡ outer_variables outer bindings.now places.old.items ++ tree_variables (term_in_force (environment_of bindings.now) name.now)) }
{
    let place = bindings.place(name);
    if place > outer {
        return Ok(());
    }
    places.push(u32::try_from(place).map_err(|_| NoMemory)?)?;
    Ok(())
}
