// The assertions of a clause: its literals hold only under the names that stand negative in it, by their numbers.

ghost use Rattle.std.specs.Prelude.{◌≡◌, ◌==◌, IfOk, filter, map, not};
ghost use Rattle.std.specs.List.{list_any};
ghost use Rattle.fol_base.specs.Subsumption.{assertions, is_among};

use plain_types::{Mem, NameLit};
use std::alloc::Global;

/// The numbers of the names that a clause asserts: the negative ones, in their order.
pub fn asserted_numbers(alloc: Global, names: &[NameLit]) -> Mem<Vec<u32>>
    ensures { IfOk result (λ asserted. asserted.items ≡ assertions names.now) }
{
    let asserted = negative_numbers(alloc, names)?;
    Ok(asserted)
}

/// The numbers of the negative names.
fn negative_numbers(alloc: Global, names: &[NameLit]) -> Mem<Vec<u32>>
    ensures { IfOk result (λ numbers. numbers.items ≡ map (λ n. n.name) (filter (λ n. not n.positive) names.now)) }
{
    let numbers = names
        .iter()
        .filter(|name| !name.positive)
        .map(|name| name.name)
        .collect(alloc)?;
    Ok(numbers)
}

/// Whether all numbers of a list are in another one. Quadratic: lists of few names or variables.
pub fn are_among(numbers: &[u32], others: &[u32]) -> bool
    ensures { result ≡ is_among numbers.now others.now }
{
    numbers.iter().all(|number| is_among(*number, others))
}

fn is_among(number: u32, others: &[u32]) -> bool
    ensures { result ≡ list_any (λ m. number == m) others.now }
{
    others.iter().any(|other| number == *other)
}
