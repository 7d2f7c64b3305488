// Chains of numbers: those of one key, from the newest to the oldest.

ghost use Rattle.std.specs.Prelude.{◌≡◌, ℕ, ◌<◌, ◌≤◌, ◌+◌, [], ◌∷◌, ◌++◌, length, get_or, nat_eq, cond, Some, OnOk, vec_len, vec_capacity};
ghost use Rattle.std.specs.Option.{unwrap_or};
ghost use Rattle.indexmap.specs.IndexMap.{get, spare};

use indexmap::IndexMap;
use plain_types::Mem;
use std::alloc::Global;

/// Numbers from 0 on, each with its key, as a hash or a tag. A number stays in its chain for good.
#[derive(Drop)]
pub struct Chains {
    /// For each number one more than the one before it of the same key, or 0.
    older: Vec<usize>,
    /// One more than the newest number of each key.
    newest: IndexMap<u64, usize>,
}

impl Chains {
    /// No numbers.
    pub fn new(alloc: Global) -> Chains
        ensures older { result.older.items ≡ [] }
        ensures newest { result.newest.entries ≡ [] }
    {
        Chains {
            older: Vec::new(alloc),
            newest: IndexMap::new(alloc),
        }
    }

    /// One more than the newest number of a key, or 0.
    pub fn newest_of(&self, key: u64) -> usize
        ensures { result ≡ unwrap_or (get nat_eq self.now.newest key) 0 }
    {
        match self.newest.get(&key) {
            Some(next) => *next,
            None => 0,
        }
    }

    /// One more than the number before this one of the same key, or 0.
    pub fn older_than(&self, number: usize) -> usize
        requires { number < length self.now.older.items }
        ensures { (d : ℕ) → result ≡ get_or self.now.older.items number d }
    {
        self.older[number]
    }

    /// Makes room for `more` numbers, and leaves the chains as they are.
    pub fn reserve(&mut self, more: usize) -> Mem<()>
        ensures older { self.new.older.items ≡ self.old.older.items }
        ensures len { vec_len self.new.older ≡ vec_len self.old.older }
        ensures newest { self.new.newest.entries ≡ self.old.newest.entries }
        ensures kept { vec_capacity self.old.older ≤ vec_capacity self.new.older }
        ensures spare_kept { spare self.old.newest ≤ spare self.new.newest }
        ensures room { OnOk result (vec_len self.new.older + more ≤ vec_capacity self.new.older) }
        ensures spare { OnOk result (more ≤ spare self.new.newest) }
    {
        self.older.reserve(more)?;
        self.newest.reserve(more)?;
        Ok(())
    }

    /// The next number comes, with its key. There is room for it.
    pub fn push(&mut self, key: u64)
        requires room { vec_len self.old.older < vec_capacity self.old.older }
        requires spare { 0 < spare self.old.newest }
        ensures older { self.new.older.items ≡ self.old.older.items ++ unwrap_or (get nat_eq self.old.newest key) 0 ∷ [] }
        ensures len { vec_len self.new.older ≡ vec_len self.old.older + 1 }
        ensures room { vec_capacity self.new.older ≡ vec_capacity self.old.older }
        ensures newest { (k : ℕ) → get nat_eq self.new.newest k
            ≡ cond (nat_eq key k) (Some (length self.old.older.items + 1)) (get nat_eq self.old.newest k) }
        ensures spare { spare self.old.newest ≤ spare self.new.newest + 1 }
    {
        let newest = self.older.len() + 1;
        let older = self.newest.insert(key, newest).unwrap().unwrap_or(0);
        self.older.push_reserved(older);
    }
}
