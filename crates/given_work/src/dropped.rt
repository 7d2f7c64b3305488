// The conclusions of a batch that are dropped: one that is equal to an earlier one is dropped by the same cause, and isn't reduced again.

ghost use Rattle.std.specs.Prelude.{◌≡◌, List, map, IfOk};
ghost use Rattle.fol_base.specs.Literal.{clause_of, literal_of};
ghost use Rattle.bank_clause.specs.declared.member.Member.{Member};
ghost use Rattle.given_work.specs.Dropped.{AreDropped, Knows, cause_if_same, cause_of, literals_hash};

use fol_base::{Clause, Literal, same_clause};
use indexmap::IndexMap;
use plain_types::Mem;
use pool_history::Redundancy;
use std::alloc::Global;
use term_bank::term_hash;

/// A conclusion that is dropped, and why.
#[derive(Drop)]
pub(crate) struct Dropped {
    clause: Clause,
    cause: Redundancy,
}

/// Dropped conclusions by the hashes of their literals. Of two with one hash the later is known.
#[derive(Drop)]
pub(crate) struct DroppedConclusions {
    known: IndexMap<u64, Dropped>,
}

impl DroppedConclusions {
    /// No conclusion was dropped.
    pub(crate) fn new(alloc: Global) -> DroppedConclusions
        ensures { (es us ms : List Member) → AreDropped es us ms result }
    {
        DroppedConclusions {
            known: IndexMap::new(alloc),
        }
    }

    /// Why an equal conclusion was dropped, if one is known.
    pub(crate) fn cause(&self, clause: &Clause) -> Option<Redundancy>
        ensures { result ≡ cause_of self.now (clause_of clause.now) }
    {
        match self.known.get(&literals_hash(clause.literals.as_slice())) {
            None => None,
            Some(dropped) => cause_if_same(dropped, clause),
        }
    }

    /// Notes a conclusion that is dropped.
    pub(crate) fn put(&mut self, clause: Clause, cause: Redundancy) -> Mem<()>
        ensures { IfOk result (λ _. Knows clause cause self.old self.new) }
    {
        let hash = literals_hash(clause.literals.as_slice());
        self.known.insert(hash, Dropped { clause, cause })?;
        Ok(())
    }
}

/// The cause of a dropped conclusion, if it is equal to another clause.
fn cause_if_same(dropped: &Dropped, clause: &Clause) -> Option<Redundancy>
    ensures { result ≡ cause_if_same (clause_of clause.now) dropped.now }
{
    if same_clause(clause, &dropped.clause) {
        Some(dropped.cause)
    } else {
        None
    }
}

/// A hash of literals, by their terms from left to right.
fn literals_hash(literals: &[Literal]) -> u64
    ensures { result ≡ literals_hash 0 (map literal_of literals.now) }
{
    let mut hash = 0;
    for index in 0..literals.len() {
        let literal = &literals[index];
        hash = term_hash(term_hash(hash, &literal.left), &literal.right);
    }
    hash
}
