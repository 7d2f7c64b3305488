// Batches: the work that a worker hands back for a given clause.

use fol_base::Clauses;
use kernel_steps::{Derivation, Key};
use plain_types::{Numbers, Sequence};

/// The work on the given clause of a job. In its lines a parent below `CLAUSE_NUMBERS` is a registered clause, by its
/// number, and `CLAUSE_NUMBERS + i` is line i of the same list. The negative names in them are tags.
#[derive(Drop)]
pub struct Batch {
    pub job: u64,
    pub work: Work,
}

/// The work on the given clause.
#[derive(Drop)]
pub enum Work {
    /// It was reduced or found redundant, and goes. It is the victim.
    Gone(Removal),
    /// It met the clauses that it was told, and stays: an entry for each inference, and clauses that it removes.
    Met {
        entries: MetEntries,
        removals: Removals,
    },
}

/// Entries, in order.
pub type MetEntries = Sequence<Entry>;

/// Removals, in order.
pub type Removals = Sequence<Removal>;

/// An inference and what became of its conclusion.
#[derive(Drop)]
pub struct Entry {
    pub key: Key,
    pub fate: Fate,
}

/// A clause that goes, the other clauses that justify it, and what takes its place.
#[derive(Drop)]
pub struct Removal {
    pub victim: u32,
    pub justifiers: Numbers,
    pub fate: Fate,
}

/// The fate of a conclusion, or of a clause that is removed.
#[derive(Drop)]
pub enum Fate {
    /// The lines that lead to the result, and the result, or its parts, without names, where it is split. An entry's first line is its inference.
    Kept { lines: Derivation, results: Clauses },
    /// Nothing takes its place.
    Dropped(Redundancy),
    /// The conclusion, or a premise under the unifier, has over `MOST_SYMBOLS` symbols. Only an entry may be so.
    Heavy,
}

/// Why nothing takes a clause's place.
#[derive(Clone, Copy, Debug, PartialEq, Eq)]
pub enum Redundancy {
    /// It is a tautology, once it is reduced.
    Tautology,
    /// The clause of that number subsumes it, once it is reduced.
    Subsumed(u32),
}
