// The assertions of the registered clauses by their tags: so the clauses that a new model wakes or sends to sleep are found without a walk
// over all.

ghost use Rattle.std.specs.Prelude.{◌≡◌, ℕ, ◌+◌, ◌<◌, ◌≤◌, ◌^◌, All, [], ◌∷◌, ◌++◌, get_or, length, map, slice_get, Some, OnOk};
ghost use Rattle.pool_core.specs.Asserting.{asserted_by, tags_in};
ghost use Rattle.clause_register.specs.Chained.{newest_below};
ghost use Rattle.pool_core.specs.declared.tag_index.Assertion.{Assertion};

use clause_register::Chains;
use plain_types::Mem;
use std::alloc::Global;
use std::marker::Model;

/// The clause of a number asserts a tag.
#[derive(Clone, Copy)]
pub struct Assertion {
    pub(crate) tag: u32,
    pub(crate) number: u32,
}

/// The assertions of the registered clauses, in the order of registration. Contracts see also how many more can come without memory.
#[derive(Drop)]
pub struct TagIndex {
    entries: Vec<Assertion>,
    /// The places of the assertions by their tags. Those of dead clauses stay.
    chains: Chains,
}

impl Model for TagIndex {
    ghost use Rattle.pool_core.specs.Asserting.{Assertions};

    ghost Value = { Assertions };

    ghost use Rattle.pool_core.specs.TagIndex.{index_of, IsTagIndex};

    ghost view = { index_of };

    ghost invariant = { IsTagIndex };
}

impl TagIndex {
    /// No assertions. It takes no memory.
    pub(crate) fn new(alloc: Global) -> TagIndex
        ensures { result.entries ≡ [] }
    {
        TagIndex {
            entries: Vec::new(alloc),
            chains: Chains::new(alloc),
        }
    }

    /// Makes room for `more` assertions, and leaves the assertions as they are.
    pub(crate) fn reserve(&mut self, more: usize) -> Mem<()>
        ensures entries { self.new.entries ≡ self.old.entries }
        ensures kept { self.old.spare ≤ self.new.spare }
        ensures room { OnOk result (more ≤ self.new.spare) }
    {
        self.entries.reserve(more)?;
        self.chains.reserve(more)?;
        Ok(())
    }

    /// The clause of a number asserts these tags. There is room for them.
    pub(crate) fn add(&mut self, tags: &[u32], number: u32)
        requires room { length tags.now ≤ self.old.spare }
        ensures added { self.new.entries ≡ self.old.entries ++ map (asserted_by number) tags.now }
        ensures room { (more : ℕ) → length tags.now + more ≤ self.old.spare → more ≤ self.new.spare }
    {
        for tag in tags {
            self.push(*tag, number);
        }
    }

    /// Adds an assertion. There is room for it.
    fn push(&mut self, tag: u32, number: u32)
        requires room { 0 < self.old.spare }
        ensures pushed { self.new.entries ≡ self.old.entries ++ asserted_by number tag ∷ [] }
        ensures room { self.old.spare ≤ self.new.spare + 1 }
    {
        self.chains.push(u64::from(tag));
        self.entries.push_reserved(Assertion { tag, number });
    }

    /// Shows that tags have 32 bits. It does nothing.
    pub(crate) fn fit(&self)
        ensures { All (λ (a : Assertion). a.tag < 2 ^ 32) self.now.entries }
    {
        let _ = &self.entries;
    }

    /// One more than the place of the newest assertion of a tag, or 0.
    pub(crate) fn newest_of(&self, tag: u32) -> usize
        ensures { result ≡ newest_below tag (tags_in self.now.entries) (length self.now.entries) }
    {
        self.chains.newest_of(u64::from(tag))
    }

    /// One more than the place of the assertion before this one of the same tag, or 0.
    pub(crate) fn older_than(&self, place: usize) -> usize
        requires { place < length self.now.entries }
        ensures { let tags = tags_in self.now.entries in result ≡ newest_below (get_or tags place 0) tags place }
    {
        self.chains.older_than(place)
    }

    /// The number of the clause that asserts, by the place of the assertion.
    pub(crate) fn number_at(&self, place: usize) -> u32
        requires { place < length self.now.entries }
        ensures { (a : Assertion) → slice_get self.now.entries place ≡ Some a → result ≡ a.number }
    {
        self.entries[place].number
    }
}
