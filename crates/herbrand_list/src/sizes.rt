// The sizes of instances, told without building them: an instance can be far larger than the terms that it is made of.

ghost use Rattle.std.specs.Prelude.{◌≡◌, ◌+◌, ◌-◌, ◌^◌, min, map, slice_index_or, IfOk};
ghost use Rattle.fol_base.specs.Tree.{tree_size, trees_size, trees_of};
ghost use Rattle.fol_base.specs.Term.{tree_of};
ghost use Rattle.fol_base.specs.Instance.{Substitution, instance, instances};
ghost use Rattle.fol_base.specs.Ground.{literals_instance};
ghost use Rattle.fol_base.specs.Literal.{literal_of};
ghost use Rattle.herbrand_list.specs.GroundList.{ground_size};
ghost use Rattle.herbrand_list.specs.Worked.{stopped_size, AreSizes};

use fol_base::{Literal, Term};
use plain_types::Mem;
use std::alloc::Global;

/// The sizes of terms, each stopping at u64's last value.
pub(crate) fn sizes_of(alloc: Global, terms: &[Term]) -> Mem<Vec<u64>>
    ensures { IfOk result (λ sizes. sizes.items ≡ map stopped_size (map tree_of terms.now)) }
{
    let mut sizes = Vec::with_capacity(alloc, terms.len())?;
    for term in terms {
        sizes.push(term.size())?;
    }
    Ok(sizes)
}

/// The sizes of the instances of terms, by the sizes of what stands for their variables.
pub(crate) fn bound_sizes(alloc: Global, sizes: &[u64], terms: &[Term]) -> Mem<Vec<u64>>
    ensures { IfOk result (λ made. (σ : Substitution) → AreSizes σ sizes.now
        → made.items ≡ map stopped_size (map (instance σ) (map tree_of terms.now))) }
{
    let mut made = Vec::with_capacity(alloc, terms.len())?;
    for term in terms {
        made.push(bound_size(sizes, term))?;
    }
    Ok(made)
}

/// The size of the instance of literals, stopping at u64's last value.
pub(crate) fn literals_size(sizes: &[u64], literals: &[Literal]) -> u64
    ensures { (σ : Substitution) → AreSizes σ sizes.now
        → result ≡ min (ground_size (literals_instance σ (map literal_of literals.now))) (2 ^ 64 - 1) }
{
    let mut total: u64 = 0;
    for literal in literals {
        total = total.saturating_add(literal_size(sizes, literal));
    }
    total
}

/// The size of the instance of a literal, stopping at u64's last value.
fn literal_size(sizes: &[u64], literal: &Literal) -> u64
    ensures { (σ : Substitution) → AreSizes σ sizes.now
        → result ≡ min (tree_size (instance σ (literal_of literal.now).left) + tree_size (instance σ (literal_of literal.now).right)) (2 ^ 64 - 1) }
{
    let left = bound_size(sizes, &literal.left);
    left.saturating_add(bound_size(sizes, &literal.right))
}

/// The size of the instance of a term, stopping at u64's last value.
#[cycle(bound_size)]
fn bound_size(sizes: &[u64], term: &Term) -> u64
    ensures { (σ : Substitution) → AreSizes σ sizes.now → result ≡ min (tree_size (instance σ (tree_of term.now))) (2 ^ 64 - 1) }
{
    match term {
        Term::Var(variable) => variable_size(sizes, *variable),
        Term::App(_, arguments) => all_bound_size(sizes, arguments.as_slice()).saturating_add(1),
    }
}

/// The size of the instances of terms together, stopping at u64's last value.
#[cycle(bound_size)]
fn all_bound_size(sizes: &[u64], terms: &[Term]) -> u64
    ensures { (σ : Substitution) → AreSizes σ sizes.now
        → result ≡ min (trees_size (instances σ (trees_of (map tree_of terms.now)))) (2 ^ 64 - 1) }
{
    let mut total: u64 = 0;
    for term in terms {
        total = total.saturating_add(bound_size(sizes, term));
    }
    total
}

/// The size of what stands for a variable.
fn variable_size(sizes: &[u64], variable: u32) -> u64
    ensures { result ≡ slice_index_or sizes.now variable 1 }
{
    match sizes.get(variable as usize) {
        Some(size) => *size,
        None => 1,
    }
}
