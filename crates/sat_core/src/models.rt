// Truth values that are handed in, and whether they make clauses true.

ghost use Rattle.std.specs.Prelude.{◌≡◌, ℕ, ◌<◌, drop, length, IfOk};
ghost use Rattle.sat_core.specs.Clause.{clause_true, clauses_true, valuation_of};

use crate::answer::{PropClauses, Truths};
use plain_types::{Mem, NameLit};
use std::alloc::Global;

/// A value for each name below `names`: the known ones, and false for the names after these.
pub fn truths_over(alloc: Global, names: u32, known: &[bool]) -> Mem<Truths>
    ensures count { IfOk result (λ truths. length truths ≡ names) }
    ensures values { IfOk result (λ truths. (name : ℕ) → name < names → valuation_of truths name ≡ valuation_of known.now name) }
{
    let mut truths = Vec::with_capacity(alloc, names as usize)?;
    for name in 0..names {
        truths.push(value_of(known, name))?;
    }
    Ok(Truths::from_vec(truths))
}

/// Whether the values make each clause from a number on true; a name without a value is false. Where a model of the clauses before is
/// extended, only the later ones need a look.
pub fn are_true(clauses: &PropClauses, from: usize, truths: &[bool]) -> bool
    ensures { result ≡ clauses_true (valuation_of truths.now) (drop from clauses.now) }
{
    for number in from..clauses.len() {
        if !is_clause_true(clauses.get(number), truths) {
            return false;
        }
    }
    true
}

fn is_clause_true(clause: &[NameLit], truths: &[bool]) -> bool
    ensures { result ≡ clause_true (valuation_of truths.now) clause.now }
{
    for literal in clause {
        if value_of(truths, literal.name) == literal.positive {
            return true;
        }
    }
    false
}

/// The value of a name; one that has none is false.
fn value_of(truths: &[bool], name: u32) -> bool
    ensures { result ≡ valuation_of truths.now name }
{
    truths.get(name as usize).copied().unwrap_or(false)
}
