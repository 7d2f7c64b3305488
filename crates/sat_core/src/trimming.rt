// The log without the chains that its last one doesn't need, in a time that is linear in its length: backwards along
// the log each chain that is needed marks those that it cites, and what is marked is numbered anew.

ghost use Rattle.std.specs.Prelude.{◌≡◌, ℕ, ◌+◌, ◌<◌, ◌≤◌, ◌&&◌, ◌||◌, nat_lt, length, map, false, slice_index_or, IfOk, IsTrue};
ghost use Rattle.sat_core.specs.Answer.{IsRightLog};
ghost use Rattle.sat_core.specs.Known.{log_of};
ghost use Rattle.sat_core.specs.Trimming.{chain_at, is_cited, cites, is_trimmed, new_number, new_link, AreNeeded};

use crate::answer::{Chain, Link, Links, Log};
use crate::clauses::Clauses;
use plain_types::Mem;
use std::alloc::Global;

/// Marks the chain whose clause has a number, where it stands before an index.
fn mark(needed: &mut Vec<bool>, inputs: usize, index: usize, number: u64)
    requires { index ≤ length needed.old.items }
    ensures length { length needed.new.items ≡ length needed.old.items }
    ensures marks { (k : ℕ) → slice_index_or needed.new.items k false
        ≡ (slice_index_or needed.old.items k false || (nat_lt k index && is_cited inputs k number)) }
{
    let number = number as usize;
    if inputs <= number && number - inputs < index {
        needed[number - inputs] = true;
    }
}

/// Marks what a chain cites of those before it.
fn mark_cited(needed: &mut Vec<bool>, clauses: &Clauses<'_>, index: usize)
    requires index { index < length clauses.now.starts.items }
    requires lined { length clauses.now.starts.items ≡ length clauses.now.links }
    requires needed { index ≤ length needed.old.items }
    ensures length { length needed.new.items ≡ length needed.old.items }
    ensures marks { (k : ℕ) → slice_index_or needed.new.items k false ≡ (slice_index_or needed.old.items k false
        || (nat_lt k index && cites (length clauses.now.inputs.now) k (chain_at (log_of clauses.now) index))) }
{
    let inputs = clauses.inputs.len();
    mark(needed, inputs, index, clauses.starts[index]);
    for link in clauses.links.get(index) {
        mark(needed, inputs, index, link.number);
    }
}

/// For each chain whether the last one needs it.
fn needed_chains(alloc: Global, clauses: &Clauses<'_>) -> Mem<Vec<bool>>
    requires lined { length clauses.now.starts.items ≡ length clauses.now.links }
    ensures { IfOk result (λ needed. AreNeeded (length clauses.now.inputs.now) (log_of clauses.now) needed.items) }
{
    let count = clauses.starts.len();
    let mut needed = vec![in alloc; false; count]?;
    if count > 0 {
        needed[count - 1] = true;
    }
    let mut index = count;
    while index > 0 {
        index -= 1;
        if needed[index] {
            mark_cited(&mut needed, clauses, index);
        }
    }
    Ok(needed)
}

/// The new number of a clause.
fn new_number(numbers: &[u64], inputs: usize, number: u64) -> u64
    ensures { result ≡ new_number inputs numbers.now number }
{
    let number = number as usize;
    if number < inputs {
        return number as u64;
    }
    numbers.get(number - inputs).copied().unwrap_or(0)
}

/// A chain with the new numbers.
fn renumbered(
    alloc: Global,
    numbers: &[u64],
    inputs: usize,
    start: u64,
    links: &[Link],
) -> Mem<Chain>
    ensures start { IfOk result (λ chain. chain.start ≡ new_number inputs numbers.now start) }
    ensures links { IfOk result (λ chain. chain.links ≡ map (new_link inputs numbers.now) links.now) }
{
    let start = new_number(numbers, inputs, start);
    let mut renumbered = Vec::with_capacity(alloc, links.len())?;
    for link in links {
        let number = new_number(numbers, inputs, link.number);
        let pivot = link.pivot;
        renumbered.push(Link { pivot, number })?;
    }
    let links = Links::from_vec(renumbered);
    Ok(Chain { start, links })
}

/// The chains that the last one needs, and it, with new numbers.
pub fn trimmed(alloc: Global, clauses: &Clauses<'_>) -> Mem<Log>
    requires log { IsRightLog clauses.now.inputs.now (log_of clauses.now) }
    requires lined { length clauses.now.starts.items ≡ length clauses.now.links }
    ensures right { IfOk result (IsRightLog clauses.now.inputs.now) }
    ensures trimmed { IfOk result (λ log. IsTrue (is_trimmed (length clauses.now.inputs.now) log)) }
{
    let needed = needed_chains(alloc, clauses)?;
    let inputs = clauses.inputs.len();
    let mut numbers = Vec::with_capacity(alloc, needed.len())?;
    let mut log = Vec::new(alloc);
    for index in 0..needed.len() {
        numbers.push((inputs + log.len()) as u64)?;
        if needed[index] {
            let (start, links) = (clauses.starts[index], clauses.links.get(index));
            log.push(renumbered(alloc, numbers.as_slice(), inputs, start, links)?)?;
        }
    }
    Ok(Log::from_vec(log))
}
