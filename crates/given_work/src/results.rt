// Results as they are handed back: where splitting is on and a clause falls into parts, these, so that the pool needn't make them.

ghost use Rattle.std.specs.Prelude.{◌≡◌, ◌∷◌, [], map, IfOk};
ghost use Rattle.fol_base.specs.Literal.{clause_of, literal_of};
ghost use Rattle.kernel_steps.specs.Derivation.{under_names};
ghost use Rattle.kernel_steps.specs.Split.{canonical_literals, literals_at};
ghost use Rattle.pool_history.specs.Reduction.{handed_back};
ghost use Rattle.given_work.specs.Results.{parts_at};

use fol_base::{Clause, Clauses, Literal, Literals, renumbered};
use plain_types::{Mem, Names, Numbers};
use split_parts::components;
use std::alloc::Global;

/// A result as it is handed back: where splitting is on and it falls into two parts or more, its finest parts, each canonical and without
/// names; else itself.
pub(crate) fn handed_back(alloc: Global, split: bool, clause: Clause) -> Mem<Clauses>
    ensures { IfOk result (λ clauses. map clause_of clauses ≡ handed_back split (clause_of clause)) }
{
    // Fewer than two literals are no two parts.
    if !split || clause.literals.len() < 2 {
        return one_clause(alloc, clause);
    }
    let parts = components(alloc, &clause)?;
    if parts.len() < 2 {
        return one_clause(alloc, clause);
    }
    parts_of(alloc, clause.literals.as_slice(), parts.as_slice())
}

/// The list of one clause.
fn one_clause(alloc: Global, clause: Clause) -> Mem<Clauses>
    ensures { IfOk result (λ clauses. map clause_of clauses ≡ clause_of clause ∷ []) }
{
    let mut clauses = Clauses::new(alloc);
    clauses.push(clause)?;
    Ok(clauses)
}

/// The clauses of parts of literals, by their places.
fn parts_of(alloc: Global, literals: &[Literal], parts: &[Numbers]) -> Mem<Clauses>
    ensures { IfOk result (λ clauses. map clause_of clauses ≡ parts_at (map literal_of literals.now) parts.now) }
{
    let mut clauses = Vec::with_capacity(alloc, parts.len())?;
    for places in parts {
        clauses.push(part_at(alloc, literals, places.as_slice())?)?;
    }
    Ok(Clauses::from_vec(clauses))
}

/// The clause of the literals at some places, in canonical form and without names.
fn part_at(alloc: Global, literals: &[Literal], places: &[u64]) -> Mem<Clause>
    ensures { IfOk result (λ part. clause_of part
        ≡ under_names (canonical_literals (literals_at (map literal_of literals.now) places.now)) []) }
{
    let part = Clause {
        literals: Literals::from_vec(literals_at(alloc, literals, places)?),
        names: Names::new(alloc),
    };
    renumbered(alloc, &part)
}

/// Copies of the literals at some places, of those that are there.
fn literals_at(alloc: Global, literals: &[Literal], places: &[u64]) -> Mem<Vec<Literal>>
    ensures { IfOk result (λ part. map literal_of part.items ≡ literals_at (map literal_of literals.now) places.now) }
{
    let mut part = Vec::with_capacity(alloc, places.len())?;
    for place in places {
        let index = *place as usize;
        if index < literals.len() {
            part.push(literals[index].copy(alloc)?)?;
        }
    }
    Ok(part)
}
