// Questions about instances that are answered without building them.

ghost use Rattle.std.specs.Prelude.{◌≡◌, ◌-◌, ◌^◌, min, map};
ghost use Rattle.fol_base.specs.Tree.{tree_eq, trees_eq, tree_size, trees_size, trees_of};
ghost use Rattle.fol_base.specs.Term.{tree_of};
ghost use Rattle.fol_base.specs.Instance.{instance, instances};

use crate::equality::same_term;
use crate::lending::LendsTerms;
use crate::term::Term;

/// The size of the instance of a term, stopping at u64's last value.
#[cycle(instance_size)]
pub fn instance_size<S: LendsTerms>(term: &Term, subst: &S) -> u64
    ensures { result ≡ min (tree_size (instance (S.meaning subst.now) (tree_of term.now))) (2 ^ 64 - 1) }
{
    match term {
        Term::Var(variable) => match subst.term(*variable) {
            Some(put) => put.size(),
            None => 1,
        },
        Term::App(_, arguments) => instance_sizes(arguments.as_slice(), subst).saturating_add(1),
    }
}

#[cycle(instance_size)]
fn instance_sizes<S: LendsTerms>(terms: &[Term], subst: &S) -> u64
    ensures { result ≡ min (trees_size (instances (S.meaning subst.now) (trees_of (map tree_of terms.now)))) (2 ^ 64 - 1) }
{
    let mut total: u64 = 0;
    for term in terms {
        total = total.saturating_add(instance_size(term, subst));
    }
    total
}

/// Whether the instance of a term is the tree `target`.
#[cycle(is_instance)]
pub fn is_instance<S: LendsTerms>(term: &Term, subst: &S, target: &Term) -> bool
    ensures { result ≡ tree_eq (instance (S.meaning subst.now) (tree_of term.now)) (tree_of target.now) }
{
    match term {
        Term::Var(variable) => match subst.term(*variable) {
            Some(put) => same_term(put, target),
            None => same_term(term, target),
        },
        Term::App(first, ones) => match target {
            Term::Var(_) => false,
            Term::App(second, others) => {
                *first == *second && are_instances(ones.as_slice(), subst, others.as_slice())
            }
        },
    }
}

#[cycle(is_instance)]
fn are_instances<S: LendsTerms>(terms: &[Term], subst: &S, targets: &[Term]) -> bool
    ensures { result ≡ trees_eq (instances (S.meaning subst.now) (trees_of (map tree_of terms.now))) (trees_of (map tree_of targets.now)) }
{
    if terms.len() != targets.len() {
        return false;
    }
    for index in 0..terms.len() {
        if !is_instance(&terms[index], subst, &targets[index]) {
            return false;
        }
    }
    true
}

/// Whether the instances of two terms, each under its own substitution, are one tree.
#[cycle(same_instance)]
pub fn same_instance<S: LendsTerms, T: LendsTerms>(
    left: &Term,
    left_subst: &S,
    right: &Term,
    right_subst: &T,
) -> bool
    ensures { result ≡ tree_eq
        (instance (S.meaning left_subst.now) (tree_of left.now))
        (instance (T.meaning right_subst.now) (tree_of right.now)) }
{
    match left {
        Term::Var(variable) => match left_subst.term(*variable) {
            Some(put) => is_instance(right, right_subst, put),
            None => is_instance(right, right_subst, left),
        },
        Term::App(first, ones) => match right {
            Term::Var(variable) => match right_subst.term(*variable) {
                Some(put) => is_instance(left, left_subst, put),
                None => false,
            },
            Term::App(second, others) => {
                *first == *second
                    && same_instances(ones.as_slice(), left_subst, others.as_slice(), right_subst)
            }
        },
    }
}

#[cycle(same_instance)]
fn same_instances<S: LendsTerms, T: LendsTerms>(
    left: &[Term],
    left_subst: &S,
    right: &[Term],
    right_subst: &T,
) -> bool
    ensures { result ≡ trees_eq
        (instances (S.meaning left_subst.now) (trees_of (map tree_of left.now)))
        (instances (T.meaning right_subst.now) (trees_of (map tree_of right.now))) }
{
    if left.len() != right.len() {
        return false;
    }
    for index in 0..left.len() {
        if !same_instance(&left[index], left_subst, &right[index], right_subst) {
            return false;
        }
    }
    true
}
