// Propositional clauses with room for more, so that clauses can be added where no memory can be asked for any more.

ghost use Rattle.std.specs.Prelude.{◌≡◌, ◌+◌, ◌<◌, ◌≤◌, [], ◌∷◌, ◌++◌, length, IfOk, OnOk};

use crate::answer::PropClauses;
use crate::lists::{ITEMS, Lists};
use plain_types::{Mem, NameLit, NoMemory};
use std::alloc::Global;
use std::marker::Model;

/// Propositional clauses, one after another in one list as in `PropClauses`. Contracts see the clauses, how many more of them can be
/// pushed without memory, and how many literals these may have together.
#[derive(Drop)]
pub struct PropClauseBuffer {
    items: Vec<NameLit>,
    /// Where each clause ends.
    ends: Vec<u32>,
}

impl Model for PropClauseBuffer {
    ghost use Rattle.sat_core.specs.ClauseBuffer.{ClauseBuffer};
    ghost use Rattle.sat_core.specs.Ends.{AreCut};

    ghost Value = { ClauseBuffer };

    ghost use Rattle.sat_core.specs.Buffer.{buffer_of};

    ghost view = { buffer_of };

    ghost invariant = { λ a. AreCut a.items.items a.ends.items };
}

impl PropClauseBuffer {
    /// No clauses. It takes no memory.
    pub fn new(alloc: Global) -> PropClauseBuffer
        ensures { result.lists ≡ [] }
    {
        PropClauseBuffer {
            items: Vec::new(alloc),
            ends: Vec::new(alloc),
        }
    }

    /// How many clauses there are.
    pub fn len(&self) -> usize
        ensures { result ≡ length self.now.lists }
    {
        self.ends.len()
    }

    /// Makes room for more clauses and for the literals that they have together, and leaves the clauses as they are. There are places for
    /// fewer than 2^32 literals.
    pub fn reserve(&mut self, clauses: usize, literals: usize) -> Mem<()>
        ensures lists { self.new.lists ≡ self.old.lists }
        ensures kept { (self.old.spare_lists ≤ self.new.spare_lists) × (self.old.spare_items ≤ self.new.spare_items) }
        ensures room { OnOk result ((clauses ≤ self.new.spare_lists) × (literals ≤ self.new.spare_items)) }
    {
        if literals > ITEMS - self.items.len() {
            return Err(NoMemory);
        }
        self.ends.reserve(clauses)?;
        self.items.reserve(literals)?;
        Ok(())
    }

    /// Adds a clause at the end. There is room, so it takes no memory.
    pub fn push_reserved(&mut self, clause: &[NameLit])
        requires clauses { 0 < self.old.spare_lists }
        requires literals { length clause.now ≤ self.old.spare_items }
        ensures more { self.new.lists ≡ self.old.lists ++ clause.now ∷ [] }
        ensures clauses { self.old.spare_lists ≤ self.new.spare_lists + 1 }
        ensures literals { self.old.spare_items ≤ self.new.spare_items + length clause.now }
    {
        let end = self.items.len() + clause.len();
        self.items.extend_from_slice(clause).unwrap();
        self.ends.push_reserved(end as u32);
    }

    /// The clauses alone, by two copies of blocks.
    pub fn copy(&self, alloc: Global) -> Mem<PropClauses>
        ensures { IfOk result (λ clauses. clauses ≡ self.now.lists) }
    {
        Lists::copied(alloc, self.items.as_slice(), self.ends.as_slice())
    }
}
