// Terms of a formula with terms for their variables: what stands for the variables is found first, and the terms are made later, if at all.

ghost use Rattle.std.specs.Prelude.{◌≡◌, ◌+◌, ◌-◌, ◌^◌, [], ◌∷◌, ◌++◌, min, map, length, drop, get_or, IfOk};
ghost use Rattle.tptp_tree.specs.Term.{terms_of};
ghost use Rattle.tptp_tree.specs.Shape.{term_of};
ghost use Rattle.fol_base.specs.Tree.{variable, tree_size, trees_of};
ghost use Rattle.fol_base.specs.Term.{tree_of};
ghost use Rattle.signature.specs.Occurrences.{term_symbols, terms_symbols};
ghost use Rattle.signature.specs.Environment.{term_names, terms_names, term_in_force};
ghost use Rattle.skolem.specs.BoundTerm.{bound_tree};
ghost use Rattle.skolem.specs.Literal.{terms_in_force, filled, filled_terms, size_under, sizes_under};
ghost use Rattle.skolem.specs.Skolemized.{AreKnown};
ghost use Rattle.skolem.specs.Progress.{environment_of};

use crate::bindings::{Bindings, NO_VARIABLE_IN_FORCE};
use crate::bound_term::BoundTerm;
use crate::terms::number_in;
use fol_base::{Term, Terms};
use plain_types::{Mem, Text};
use signature::{Signature, SymbolKind};
use std::alloc::Global;
use tptp_tree::TreeTerm;

/// The terms to which the variables of some terms are bound, in the order in which these stand there, and the size that the terms have
/// with them, stopping at u64's last value.
#[derive(Drop)]
pub(crate) struct BoundTerms {
    pub terms: Vec<BoundTerm>,
    pub size: u64,
}

/// Adds what a term's variables are bound to, and its size.
#[cycle(push_bound)]
pub(crate) fn push_bound(bindings: &Bindings, term: &TreeTerm, bound: &mut BoundTerms) -> Mem<()>
    ensures terms { IfOk result (λ _. map bound_tree bound.new.terms.items
        ≡ map bound_tree bound.old.terms.items ++ terms_in_force (environment_of bindings.now) (term_names (term_of term.now))) }
    ensures size { IfOk result (λ _. bound.new.size
        ≡ min (bound.old.size + size_under (environment_of bindings.now) (term_of term.now)) (2 ^ 64 - 1)) }
{
    match term {
        TreeTerm::Var(name) => push_bound_variable(bindings, name, bound),
        TreeTerm::App(_, arguments) => {
            bound.size = bound.size.saturating_add(1);
            push_all_bound(bindings, arguments.as_slice(), bound)
        }
    }
}

/// Fills several terms.
#[cycle(push_bound)]
pub(crate) fn push_all_bound(
    bindings: &Bindings,
    terms: &[TreeTerm],
    bound: &mut BoundTerms,
) -> Mem<()>
    ensures terms { IfOk result (λ _. map bound_tree bound.new.terms.items
        ≡ map bound_tree bound.old.terms.items ++ terms_in_force (environment_of bindings.now) (terms_names (terms_of (map term_of terms.now)))) }
    ensures size { IfOk result (λ _. bound.new.size
        ≡ min (bound.old.size + sizes_under (environment_of bindings.now) (terms_of (map term_of terms.now))) (2 ^ 64 - 1)) }
{
    for term in terms {
        push_bound(bindings, term, bound)?;
    }
    Ok(())
}

/// Adds what a variable is bound to.
fn push_bound_variable(bindings: &Bindings, name: &Text, bound: &mut BoundTerms) -> Mem<()>
    ensures terms { IfOk result (λ _. map bound_tree bound.new.terms.items
        ≡ map bound_tree bound.old.terms.items ++ term_in_force (environment_of bindings.now) name.now ∷ []) }
    ensures size { IfOk result (λ _. bound.new.size
        ≡ min (bound.old.size + tree_size (term_in_force (environment_of bindings.now) name.now)) (2 ^ 64 - 1)) }
{
    let term = bindings.term_in_force(name)?;
    let size = bound.size.saturating_add(term.size());
    bound.terms.push(term)?;
    bound.size = size;
    Ok(())
}

/// The term, the first of those terms standing for its first variable, and so on; and those that are left for other terms.
#[cycle(filled)]
pub(crate) fn filled<'b>(
    alloc: Global,
    signature: &Signature,
    term: &TreeTerm,
    terms: &'b [BoundTerm],
) -> Mem<(Term, &'b [BoundTerm])>
    requires known { AreKnown signature.now (term_symbols (term_of term.now)) }
    ensures tree { IfOk result (λ r. tree_of r.0 ≡ filled signature.now (term_of term.now) (map bound_tree terms.now)) }
    ensures left { IfOk result (λ r. map bound_tree r.1.now ≡ drop (length (term_names (term_of term.now))) (map bound_tree terms.now)) }
{
    match term {
        TreeTerm::Var(_) => first_term(alloc, terms),
        TreeTerm::App(name, arguments) => {
            let number = number_in(
                signature,
                SymbolKind::Function,
                name.as_slice(),
                arguments.as_slice().len(),
            )?;
            let (arguments, left) = filled_terms(alloc, signature, arguments.as_slice(), terms)?;
            Ok((Term::App(number, arguments), left))
        }
    }
}

/// The sizes of several terms together.
#[cycle(filled)]
pub(crate) fn filled_terms<'b>(
    alloc: Global,
    signature: &Signature,
    terms: &[TreeTerm],
    bound: &'b [BoundTerm],
) -> Mem<(Terms, &'b [BoundTerm])>
    requires known { AreKnown signature.now (terms_symbols (terms_of (map term_of terms.now))) }
    ensures trees { IfOk result (λ r.
        trees_of r.0 ≡ filled_terms signature.now (terms_of (map term_of terms.now)) (map bound_tree bound.now)) }
    ensures left { IfOk result (λ r. map bound_tree r.1.now
        ≡ drop (length (terms_names (terms_of (map term_of terms.now)))) (map bound_tree bound.now)) }
{
    let mut trees = Terms::new(alloc);
    let mut left = bound;
    for term in terms {
        let (tree, rest) = filled(alloc, signature, term, left)?;
        trees.push(tree)?;
        left = rest;
    }
    Ok((trees, left))
}

/// The first of some terms, and the others. Where there is none, a variable.
fn first_term<'b>(alloc: Global, terms: &'b [BoundTerm]) -> Mem<(Term, &'b [BoundTerm])>
    ensures tree { IfOk result (λ r. tree_of r.0 ≡ get_or (map bound_tree terms.now) 0 (variable 0)) }
    ensures left { IfOk result (λ r. map bound_tree r.1.now ≡ drop 1 (map bound_tree terms.now)) }
{
    match terms.split_first() {
        Some((first, rest)) => Ok((first.to_term(alloc)?, rest)),
        None => Ok((Term::Var(NO_VARIABLE_IN_FORCE), terms)),
    }
}
