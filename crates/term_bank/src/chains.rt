// The entries of a table, and how it finds them: those of one hash are chained, from the newest to the oldest.

ghost use Rattle.std.specs.Prelude.{◌≡◌, ℕ, ◌<◌, ◌+◌, [], ◌∷◌, ◌++◌, length, get_or, map, nat_eq, cond, Some, IfSome, OnOk, vec_len, vec_capacity};
ghost use Rattle.std.specs.Option.{option_map, unwrap_or};
ghost use Rattle.std.specs.Map.{lookup};
ghost use Rattle.indexmap.specs.IndexMap.{get, spare};
ghost use Rattle.fol_base.specs.Tree.{tree_eq};
ghost use Rattle.fol_base.specs.Term.{tree_of};
ghost use Rattle.term_bank.specs.Hash.{tree_hash};
ghost use Rattle.term_bank.specs.Bank.{number, tree_at, IsOf};
ghost use Rattle.term_bank.specs.Entry.{entry_of, AreEntriesOf};
ghost use Rattle.term_bank.specs.declared.chains.Entry.{Entry};

use crate::bank::Bank;
use crate::reference::TermRef;
use fol_base::{Term, same_term};
use indexmap::IndexMap;
use plain_types::Mem;
use std::alloc::Global;

/// Entries in the order in which they came, chained by hash.
#[derive(Drop)]
pub struct Chains {
    entries: Vec<Entry>,
    /// One more than the place of the newest entry of each hash.
    newest: IndexMap<u64, usize>,
}

/// A reference, with one more than the place of the entry before it of the same hash, or 0.
#[derive(Drop)]
pub struct Entry {
    reference: TermRef,
    older: usize,
}

impl Chains {
    /// No entries.
    pub(crate) fn new(alloc: Global) -> Chains
        ensures entries { result.entries.items ≡ [] }
        ensures newest { result.newest.entries ≡ [] }
    {
        Chains {
            entries: Vec::new(alloc),
            newest: IndexMap::new(alloc),
        }
    }

    /// The reference of a term's tree, where there is one.
    pub(crate) fn find(&self, bank: &Bank, hash: u64, term: &Term) -> Option<&TermRef>
        requires entries { AreEntriesOf bank.now self.now.entries.items self.now.newest.entries }
        requires hash { hash ≡ tree_hash 0 (tree_of term.now) }
        ensures number { option_map (λ r. number r.now) result
            ≡ lookup (tree_eq (tree_of term.now)) (map entry_of self.now.entries.items) }
        ensures of_bank { IfSome result (λ r. IsOf bank.now r.now) }
        ensures tree { IfSome result (λ r. tree_at r.now ≡ tree_of term.now) }
    {
        let mut next = self.newest_of(hash);
        while next > 0 {
            let entry = self.entry(next - 1);
            if same_term(term, bank.tree(&entry.reference)) {
                return Some(&entry.reference);
            }
            next = entry.older;
        }
        None
    }

    /// The entry at a place.
    fn entry(&self, place: usize) -> &Entry
        requires { place < length self.now.entries.items }
        ensures { (d : Entry) → result.now ≡ get_or self.now.entries.items place d }
    {
        &self.entries[place]
    }

    /// One more than the place of the newest entry of a hash, or 0.
    fn newest_of(&self, hash: u64) -> usize
        ensures { result ≡ unwrap_or (get nat_eq self.now.newest hash) 0 }
    {
        match self.newest.get(&hash) {
            Some(place) => *place,
            None => 0,
        }
    }

    /// Makes room for one more entry, and leaves the entries as they are.
    pub(crate) fn make_room(&mut self) -> Mem<()>
        ensures entries { self.new.entries.items ≡ self.old.entries.items }
        ensures newest { self.new.newest.entries ≡ self.old.newest.entries }
        ensures room { OnOk result (vec_len self.new.entries < vec_capacity self.new.entries) }
        ensures spare { OnOk result (0 < spare self.new.newest) }
    {
        self.entries.reserve(1)?;
        self.newest.reserve(1)?;
        Ok(())
    }

    /// Adds an entry at the end. There is room for it.
    pub(crate) fn learn(&mut self, hash: u64, reference: TermRef)
        requires room { vec_len self.old.entries < vec_capacity self.old.entries }
        requires spare { 0 < spare self.old.newest }
        ensures entries { self.new.entries.items ≡ self.old.entries.items ++
            record { reference = reference; older = unwrap_or (get nat_eq self.old.newest hash) 0 } ∷ [] }
        ensures newest { (h : ℕ) → get nat_eq self.new.newest h
            ≡ cond (nat_eq hash h) (Some (length self.old.entries.items + 1)) (get nat_eq self.old.newest h) }
    {
        let newest = self.entries.len() + 1;
        let older = self.newest.insert(hash, newest).unwrap().unwrap_or(0);
        self.entries.push_reserved(Entry { reference, older });
    }
}
