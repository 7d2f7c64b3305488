// The entries at the end of one path.

ghost use Rattle.std.specs.Prelude.{◌≡◌, ◌↔◌, ◌≤◌, ◌<◌, [], ◌∷◌, IfOk, OnErr, MatchOption, IsTrue, false, length};
ghost use Rattle.std.specs.List.{HoldsAt};
ghost use Rattle.std.specs.List.Sorted.{IsNonDecreasingBy, IsPartitionPoint};
ghost use Rattle.fol_base.specs.Tree.{Tree, tree_variables};
ghost use Rattle.fol_base.specs.Term.{tree_of};
ghost use Rattle.disc_tree.specs.Entries.{IsWith};
ghost use Rattle.disc_tree.specs.Rows.{number_of, IsNamed, IsEntryTaken, IsNoEntry};

use crate::entry::Entry;
use fol_base::Term;
use plain_types::Mem;
use std::alloc::Global;
use std::marker::Model;

/// Entries in the order of their numbers, so that one of thousands at a path is found by halving.
#[derive(Drop)]
pub(crate) struct SortedEntries {
    entries: Vec<Entry>,
}

impl Model for SortedEntries {
    ghost use Rattle.std.specs.Prelude.{List, ℕ};
    ghost use Rattle.std.specs.Coded.{coded×, coded_ℕ, coded_list};
    ghost use Rattle.std.specs.List.Sorted.{IsNonDecreasingBy};
    ghost use Rattle.fol_base.specs.Tree.{Tree};
    ghost use Rattle.fol_base.specs.TreeCode.{tree_code};
    ghost use Rattle.disc_tree.specs.Rows.{number_of};

    ghost Value = { List (Tree × ℕ) };

    ghost coded = { coded_list (coded× tree_code coded_ℕ) };

    ghost view = { λ a. a.entries.items };

    ghost invariant = { λ a. IsNonDecreasingBy number_of a.entries.items };
}

impl SortedEntries {
    /// No entries.
    pub(crate) fn new(alloc: Global) -> SortedEntries
        ensures { result ≡ [] }
    {
        SortedEntries {
            entries: Vec::new(alloc),
        }
    }

    /// One entry, and memory for no other.
    pub(crate) fn with_one(alloc: Global, entry: Entry) -> Mem<SortedEntries>
        ensures { IfOk result (λ entries. entries ≡ entry ∷ []) }
    {
        let mut entries = Vec::with_capacity(alloc, 1)?;
        entries.push(entry)?;
        Ok(SortedEntries { entries })
    }

    pub(crate) fn as_slice(&self) -> &[Entry]
        ensures { result.now ≡ self.now }
    {
        self.entries.as_slice()
    }

    pub(crate) fn is_empty(&self) -> bool
        ensures { IsTrue result ↔ (self.now ≡ []) }
    {
        self.entries.is_empty()
    }

    /// Puts an entry into its place. After an out-of-memory error the entries are as before.
    pub(crate) fn put(&mut self, entry: Entry) -> Mem<()>
        ensures ok { IfOk result (λ _. IsWith entry self.old self.new) }
        ensures err { OnErr result (self.new ≡ self.old) }
    {
        let at = first_from(&self.entries, entry.number());
        self.entries.insert(at, entry)?;
        Ok(())
    }

    /// Takes an entry with a number and a term's variables out, and says whether there was one.
    pub(crate) fn take(&mut self, term: &Term, number: u64) -> bool
        ensures removed { IsTrue result → IsEntryTaken (tree_variables (tree_of term.now)) number self.old self.new }
        ensures absent { result ≡ false → IsNoEntry (tree_variables (tree_of term.now)) number self.old }
        ensures unchanged { result ≡ false → self.new ≡ self.old }
    {
        let Some(at) = place(&self.entries, term, number) else {
            return false;
        };
        let _ = self.entries.remove(at);
        true
    }
}

/// Where the first entry stands whose number is not below this one.
fn first_from(entries: &[Entry], number: u64) -> usize
    requires { IsNonDecreasingBy number_of entries.now }
    ensures bound { result ≤ length entries.now }
    ensures point { IsPartitionPoint (λ entry. number_of entry < number) (λ entry. number ≤ number_of entry) entries.now result }
{
    entries.partition_point(|entry| entry.number() < number)
}

/// Where an entry with a number and a term's variables stands.
fn place(entries: &[Entry], term: &Term, number: u64) -> Option<usize>
    requires { IsNonDecreasingBy number_of entries.now }
    ensures { MatchOption result (IsNoEntry (tree_variables (tree_of term.now)) number entries.now)
        (λ at. (at < length entries.now) × HoldsAt (IsNamed (tree_variables (tree_of term.now)) number) entries.now at) }
{
    for index in first_from(entries, number)..entries.len() {
        let entry = &entries[index];
        if entry.is_for(term, number) {
            return Some(index);
        }
        if entry.number() != number {
            return None;
        }
    }
    None
}
