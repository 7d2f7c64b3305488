// The variables in the terms at places. Of the Skolem terms that occur in a body the innermost mostly has the arguments of the others among its
// own, since a `?` further out whose variable occurs in the body has that variable free in the inner `?` too. So each `?` notes a binding that
// it covers, and what is known to be covered isn't gathered again.

ghost use Rattle.std.specs.Prelude.{◌≡◌, ℕ, ◌+◌, ◌==◌, ◌||◌, length, IfOk};
ghost use Rattle.std.specs.List.{list_any};
ghost use Rattle.skolem.specs.Bindings.{Covers};
ghost use Rattle.skolem.specs.Progress.{place_variables, variables_at};

use crate::bindings::Bindings;
use crate::progress::made_in_order;
use plain_types::{Mem, NoMemory};
use std::alloc::Global;

/// Variables that were gathered from places, the innermost place first. The two places are counted from 1, and the variables at both are among
/// these; 0 is no place.
#[derive(Drop)]
pub(crate) struct Gathered {
    pub variables: Vec<u32>,
    /// The innermost place with a Skolem term.
    pub covers: usize,
    /// The next place that is known to be covered.
    pub covered: usize,
}

/// Gathers the variables of the terms at those places, where each place counts once. The list of places is sorted for it.
pub(crate) fn variables_at(
    alloc: Global,
    bindings: &Bindings,
    places: &mut Vec<u32>,
) -> Mem<Gathered>
    ensures found { IfOk result (λ found. (v : ℕ)
        → list_any (λ w. v == w) found.variables.items ≡ list_any (λ w. v == w) (variables_at bindings.now places.old.items)) }
    ensures covers { IfOk result (λ found. Covers bindings.now found.covers found.variables.items) }
{
    let different = made_in_order(alloc, place_count(bindings)?, places)?;
    let mut found = Gathered {
        variables: Vec::new(alloc),
        covers: 0,
        covered: 0,
    };
    for index in (0..different.len()).rev() {
        gather(bindings, different.as_slice()[index], &mut found)?;
    }
    Ok(found)
}

/// Gathers the variables at a place, but not where they are known to be among those that were gathered.
fn gather(bindings: &Bindings, place: u32, found: &mut Gathered) -> Mem<()>
    requires covers { Covers bindings.now found.old.covers found.old.variables.items }
    requires covered { Covers bindings.now found.old.covered found.old.variables.items }
    ensures found { IfOk result (λ _. (v : ℕ) → list_any (λ w. v == w) found.new.variables.items
        ≡ (list_any (λ w. v == w) found.old.variables.items || list_any (λ w. v == w) (place_variables bindings.now place))) }
    ensures covers { IfOk result (λ _. Covers bindings.now found.new.covers found.new.variables.items) }
    ensures covered { IfOk result (λ _. Covers bindings.now found.new.covered found.new.variables.items) }
{
    let here = place as usize;
    found.covered = bindings.covered_within(found.covered, here);
    if here > 0 && found.covered == here {
        return Ok(());
    }
    bindings.push_variables_at(place, &mut found.variables)?;
    if bindings.is_skolem(here) {
        found.covered = here;
        if found.covers == 0 {
            found.covers = here;
        }
    }
    Ok(())
}

/// How many places there are, that of no binding included.
fn place_count(bindings: &Bindings) -> Mem<u32>
    ensures { IfOk result (λ count. count ≡ length bindings.now + 1) }
{
    let last = u32::try_from(bindings.len()).map_err(|_| NoMemory)?;
    last.checked_add(1).ok_or(NoMemory)
}
