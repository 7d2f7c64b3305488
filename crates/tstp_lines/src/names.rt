// Tables of names.

ghost use Rattle.std.specs.Prelude.{◌≡◌, ◌≤◌, ◌<◌, ◌^◌, ◌-◌, ◌++◌, ◌∷◌, [], IfOk, OnErr, Some, is_some, length, position, take, bytes_eq, map, IsFalse};
ghost use Rattle.std.specs.List.{list_any};
ghost use Rattle.clausal_form.specs.DerivationClause.{name_number};
ghost use Rattle.tstp_lines.specs.Tables.{with_name, place_of_name};

use indexmap::IndexSet;
use name_hash::NameHash;
use plain_types::{Mem, NoMemory};
use std::alloc::Global;
use std::marker::Model;

/// The most names of a table.
const MOST_NAMES: usize = 1 << 32;

/// Names, which contracts see as their list: the number of a name is its place.
#[derive(Drop)]
pub struct NameTable {
    names: IndexSet<Vec<u8>, NameHash>,
}

impl Model for NameTable {
    ghost use Rattle.std.specs.Prelude.{◌≤◌, ◌^◌, ℕ, List, length};
    ghost use Rattle.tstp_lines.specs.Tables.{texts_of};

    ghost Value = { List (List ℕ) };

    ghost view = { λ a. texts_of a.names.keys };

    ghost invariant = { λ a. length a.names.keys ≤ 2 ^ 32 };
}

impl NameTable {
    /// The empty table. It takes no memory.
    pub fn new(alloc: Global) -> NameTable
        ensures { result ≡ [] }
    {
        NameTable {
            names: IndexSet::with_hasher(alloc, NameHash::new()),
        }
    }

    /// The number of a name; none where it isn't there.
    pub fn number(&self, name: &[u8]) -> Option<u32>
        ensures value { result ≡ name_number self.now name.now }
        ensures found { is_some result ≡ list_any (bytes_eq name.now) self.now }
    {
        let place = self.names.get_index_of(name)?;
        Some(place as u32)
    }

    /// How many names there are.
    pub fn len(&self) -> u64
        ensures value { result ≡ length self.now }
        ensures few { result ≤ 2 ^ 32 }
    {
        self.names.len() as u64
    }

    /// Adds a name that isn't there, and gives its number. After an out-of-memory error the table is as before; no more numbers are want
    /// of memory too.
    pub fn add(&mut self, alloc: Global, name: &[u8]) -> Mem<u32>
        requires new { IsFalse (list_any (bytes_eq name.now) self.old) }
        ensures number { IfOk result (λ number. number ≡ length self.old) }
        ensures added { IfOk result (λ _. self.new ≡ self.old ++ name.now ∷ []) }
        ensures unchanged { OnErr result (self.new ≡ self.old) }
    {
        if self.names.len() == MOST_NAMES {
            return Err(NoMemory);
        }
        let mut owned = Vec::new(alloc);
        owned.extend_from_slice(name)?;
        let (place, _) = self.names.insert_full(owned)?;
        Ok(place as u32)
    }

    /// The number of a name, which is added where it is new. No more numbers are answered by out of memory too.
    pub fn meet(&mut self, alloc: Global, name: &[u8]) -> Mem<u32>
        ensures names { IfOk result (λ _. self.new ≡ with_name self.old name.now) }
        ensures number { IfOk result (λ number. number ≡ place_of_name self.new name.now) }
        ensures unchanged { OnErr result (self.new ≡ self.old) }
    {
        match self.number(name) {
            Some(number) => Ok(number),
            None => self.add(alloc, name),
        }
    }

    /// Takes the last name back, where there is one.
    pub fn remove_last(&mut self)
        ensures { self.new ≡ take (length self.old - 1) self.old }
    {
        self.names.pop();
    }

    /// Takes all names back. What it costs follows the names that are there, and not the most that ever were: a line with few
    /// variables costs little after one with many.
    pub(crate) fn clear(&mut self)
        ensures { self.new ≡ [] }
    {
        self.names.truncate(0);
    }
}
