// The parts of inputs. Those of results are handed in with their batch; an input comes whole.

ghost use Rattle.std.specs.Prelude.{◌≡◌, [], map, IfOk};
ghost use Rattle.fol_base.specs.Literal.{clause_of, literal_of};
ghost use Rattle.kernel_steps.specs.Derivation.{under_names};
ghost use Rattle.kernel_steps.specs.Split.{canonical_literals, literals_at};
ghost use Rattle.pool_core.specs.Parted.{parts_at};
ghost use Rattle.pool_core.specs.Placing.{AreHandedIn};

use fol_base::{Clause, Literal, Literals, renumbered};
use plain_types::{Mem, Names, Numbers};
use split_parts::components;
use std::alloc::Global;

/// The parts of an input that is split, each canonical and without names, and none of another.
pub(crate) fn input_parts(alloc: Global, split: bool, input: &Clause) -> Mem<Vec<Clause>>
    ensures { IfOk result (λ parts. AreHandedIn split (clause_of input.now) parts.items) }
{
    // Fewer than two literals are no two parts.
    if !split || input.literals.len() < 2 {
        return Ok(Vec::new(alloc));
    }
    let parts = components(alloc, input)?;
    if parts.len() < 2 {
        return Ok(Vec::new(alloc));
    }
    parts_at(alloc, input.literals.as_slice(), parts.as_slice())
}

/// The clauses of parts of literals, by their places.
fn parts_at(alloc: Global, literals: &[Literal], parts: &[Numbers]) -> Mem<Vec<Clause>>
    ensures { IfOk result (λ clauses. map clause_of clauses.items ≡ parts_at (map literal_of literals.now) parts.now) }
{
    let mut clauses = Vec::with_capacity(alloc, parts.len())?;
    for places in parts {
        clauses.push(part_at(alloc, literals, places.as_slice())?)?;
    }
    Ok(clauses)
}

/// The clause of the literals at some places, in canonical form and without names.
fn part_at(alloc: Global, literals: &[Literal], places: &[u64]) -> Mem<Clause>
    ensures { IfOk result (λ part. clause_of part
        ≡ under_names (canonical_literals (literals_at (map literal_of literals.now) places.now)) []) }
{
    let part = Clause {
        literals: Literals::from_vec(literals_at(alloc, literals, places)?),
        names: Names::new(alloc),
    };
    renumbered(alloc, &part)
}

/// Copies of the literals at some places, of those that are there.
fn literals_at(alloc: Global, literals: &[Literal], places: &[u64]) -> Mem<Vec<Literal>>
    ensures { IfOk result (λ part. map literal_of part.items ≡ literals_at (map literal_of literals.now) places.now) }
{
    let mut part = Vec::with_capacity(alloc, places.len())?;
    for place in places {
        let index = *place as usize;
        if index < literals.len() {
            part.push(literals[index].copy(alloc)?)?;
        }
    }
    Ok(part)
}
