// What results may bring, in numbers: by these a return takes its memory.

ghost use Rattle.std.specs.Prelude.{◌≡◌, ◌+◌, IfOk};
ghost use Rattle.pool_core.specs.Demanded.{no_demand, plus};

use plain_types::{Mem, NoMemory};

/// How much results may bring.
#[derive(Clone, Copy)]
pub struct Demand {
    /// Registered clauses, and the tags that they assert.
    pub(crate) clauses: usize,
    pub(crate) tags: usize,
    /// Lines.
    pub(crate) lines: usize,
    /// New parts.
    pub(crate) parts: usize,
    /// Clauses over names, and their names.
    pub(crate) splits: usize,
    pub(crate) names: usize,
}

impl Demand {
    /// Nothing comes.
    pub(crate) fn none() -> Demand
        ensures { result ≡ no_demand }
    {
        Demand {
            clauses: 0,
            tags: 0,
            lines: 0,
            parts: 0,
            splits: 0,
            names: 0,
        }
    }

    /// What two results bring together. Past 64 bits it is told as out of memory.
    pub(crate) fn plus(self, other: Demand) -> Mem<Demand>
        ensures { IfOk result (λ both. both ≡ plus self other) }
    {
        Ok(Demand {
            clauses: sum(self.clauses, other.clauses)?,
            tags: sum(self.tags, other.tags)?,
            lines: sum(self.lines, other.lines)?,
            parts: sum(self.parts, other.parts)?,
            splits: sum(self.splits, other.splits)?,
            names: sum(self.names, other.names)?,
        })
    }
}

/// The sum of two sizes. One past 64 bits is told as out of memory.
pub(crate) fn sum(first: usize, second: usize) -> Mem<usize>
    ensures { IfOk result (λ all. all ≡ first + second) }
{
    match first.checked_add(second) {
        Some(all) => Ok(all),
        None => Err(NoMemory),
    }
}
