// The finest parts of a clause that share no variables.

ghost use Rattle.std.specs.Prelude.{◌≡◌, ℕ, ◌+◌, ◌<◌, ◌++◌, ◌∷◌, [], List, map, length, slice_index, slice_index_or, slice_set, IfOk, OnOk};
ghost use Rattle.fol_base.specs.Clause.{literal_variables};
ghost use Rattle.fol_base.specs.Literal.{clause_of, literal_of};
ghost use Rattle.split_parts.specs.Components.{IsComponents};
ghost use Rattle.split_parts.specs.Forest.{variables_at, Falls, IsColouring, IsGrouped, IsJoined, IsLinked};

use crate::forest::join;
use fol_base::{Clause, Literal, push_variables};
use plain_types::{Mem, Numbers, Parts};
use std::alloc::Global;
use std::collections::HashMap;

/// The components of a clause: the places of its literals in the finest parts that share no variables, in the order of their first
/// literals.
pub fn components(alloc: Global, clause: &Clause) -> Mem<Parts>
    ensures { IfOk result (λ parts. IsComponents (clause_of clause.now).literals parts) }
{
    let literals = clause.literals.as_slice();
    if literals.len() < 2 {
        return at_most_one_part(alloc, literals);
    }
    let links = linked(alloc, literals)?;
    let parts = grouped(alloc, links.as_slice())?;
    Ok(Parts::from_vec(parts))
}

/// The component of a clause of one literal; the empty clause has none.
fn at_most_one_part(alloc: Global, literals: &[Literal]) -> Mem<Parts>
    requires { length literals.now < 2 }
    ensures { IfOk result (λ parts. IsComponents (map literal_of literals.now) parts) }
{
    if literals.is_empty() {
        return Ok(Parts::new(alloc));
    }
    let mut parts = Parts::new(alloc);
    parts.push(Numbers::from_slice(alloc, &[0])?)?;
    Ok(parts)
}

/// The classes of literals that are connected by variables.
fn linked(alloc: Global, literals: &[Literal]) -> Mem<Vec<usize>>
    ensures len { IfOk result (λ links. length links.items ≡ length literals.now) }
    ensures falls { IfOk result (λ links. Falls links.items) }
    ensures linked { IfOk result (λ links. IsLinked (map literal_of literals.now) links.items) }
{
    let mut links = own_classes(alloc, literals.len())?;
    let mut places = HashMap::new(alloc);
    // The variables of one literal at a time, so that there is one list for all.
    let mut variables = Vec::new(alloc);
    for place in 0..literals.len() {
        join_literal(&mut links, &mut places, &mut variables, literals, place)?;
    }
    Ok(links)
}

/// Each place in a class of its own.
fn own_classes(alloc: Global, count: usize) -> Mem<Vec<usize>>
    ensures len { IfOk result (λ links. length links.items ≡ count) }
    ensures own { IfOk result (λ links. (j : ℕ) → j < count → slice_index links.items j ≡ j) }
{
    let mut links = Vec::with_capacity(alloc, count)?;
    for place in 0..count {
        links.push(place)?;
    }
    Ok(links)
}

/// Joins the class of a literal with those of the literals before it with which it shares a variable.
fn join_literal(
    links: &mut [usize],
    places: &mut HashMap<u32, usize>,
    variables: &mut Vec<u32>,
    literals: &[Literal],
    place: usize,
) -> Mem<()>
    requires len { length links.old ≡ length literals.now }
    requires within { place < length literals.now }
    requires falls { Falls links.old }
    requires joined { IsJoined (map literal_of literals.now) place 0 links.old places.old }
    ensures falls { OnOk result (Falls links.new) }
    ensures joined { OnOk result (IsJoined (map literal_of literals.now) (place + 1) 0 links.new places.new) }
{
    read_variables(&literals[place], variables)?;
    for variable in variables.iter() {
        match places.get(variable).copied() {
            Some(first) => join(links, first, place),
            None => {
                places.insert(*variable, place)?;
            }
        }
    }
    Ok(())
}

/// Makes the list that of the variables of a literal, with repetitions.
fn read_variables(literal: &Literal, variables: &mut Vec<u32>) -> Mem<()>
    ensures { OnOk result (variables.new.items ≡ literal_variables (literal_of literal.now)) }
{
    variables.clear();
    push_variables(&literal.left, variables)?;
    push_variables(&literal.right, variables)
}

/// The places by their classes, in the order of their roots.
fn grouped(alloc: Global, links: &[usize]) -> Mem<Vec<Numbers>>
    requires { Falls links.now }
    ensures { IfOk result (λ parts. (colour : ℕ → ℕ) → IsColouring colour links.now
        → (slots : List ℕ) × IsGrouped colour (length links.now) slots parts.items) }
{
    let mut parts = Vec::new(alloc);
    let mut slots = Vec::with_capacity(alloc, links.len())?;
    for place in 0..links.len() {
        let root = links[place];
        if root == place {
            slots.push(parts.len())?;
            parts.push(Numbers::from_slice(alloc, &[place as u64])?)?;
        } else {
            let slot: usize = slots[root];
            slots.push(slot)?;
            add_place(&mut parts, slot, place as u64)?;
        }
    }
    Ok(parts)
}

/// Adds a place to the part of an index.
fn add_place(parts: &mut [Numbers], slot: usize, place: u64) -> Mem<()>
    requires { slot < length parts.old }
    ensures { OnOk result (parts.new ≡ slice_set parts.old slot (slice_index_or parts.old slot [] ++ place ∷ [])) }
{
    parts[slot].push(place)
}
