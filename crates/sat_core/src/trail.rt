// The trail: the names that have a value, in the order in which they got it.

ghost use Rattle.std.specs.Prelude.{◌≡◌, ℕ, ◌+◌, ◌-◌, ◌<◌, ◌≤◌, [], ◌∷◌, ◌++◌, length, take, slice_set, IfOk, IsTrue};
ghost use Rattle.sat_core.specs.Trail.{IsTrail, IsNewTrail, is_true, is_false, place_of, slot_of, slot_at, cut_slot, Cuts};
ghost use Rattle.sat_core.specs.Values.{AreSlotValues};

use crate::literals::CodedLiteral;
use crate::values::Values;
use plain_types::{Mem, NameLit};
use std::alloc::Global;

/// A literal that has been made true.
#[derive(Clone, Copy)]
pub struct Assigned {
    pub literal: NameLit,
    /// The number of a clause whose other literals were false before; none for a decision.
    pub reason: Option<usize>,
}

/// Where a name stands on the trail.
#[derive(Clone, Copy)]
pub struct Slot {
    /// Its index plus one, or 0 where the name has no value.
    pub place: usize,
    /// The value that the name has, or had last, or is to have first.
    pub positive: bool,
}

/// The literals that are true, in the order in which they were made so, and for each name where it stands.
#[derive(Drop)]
pub struct Trail {
    pub entries: Vec<Assigned>,
    pub slots: Vec<Slot>,
    /// The values by literal.
    pub values: Values,
    ghost agree: { AreSlotValues values.by_code.items slots.items },
}

impl Trail {
    /// No name has a value. Of the values that are tried first, those that aren't given are false.
    pub fn new(alloc: Global, names: usize, first: &[bool]) -> Mem<Trail>
        ensures { IfOk result (λ trail. IsNewTrail names trail.entries.items trail.slots.items) }
    {
        let mut slots = Vec::with_capacity(alloc, names)?;
        for name in 0..names {
            let positive = first.get(name).copied().unwrap_or(false);
            slots.push(Slot { place: 0, positive })?;
        }
        Ok(Trail {
            entries: Vec::new(alloc),
            slots,
            values: Values::new(alloc, names)?,
        })
    }

    /// Where the literal's name stands: its index plus one, or 0 where it has no value.
    pub fn place(&self, literal: NameLit) -> usize
        requires { literal.name < length self.now.slots.items }
        ensures { result ≡ place_of self.now.slots.items literal }
    {
        self.slots[literal.name as usize].place
    }

    /// Whether the literal is true.
    pub fn is_true(&self, literal: NameLit) -> bool
        requires { literal.name < length self.now.slots.items }
        ensures { result ≡ is_true self.now.slots.items literal }
    {
        let slot = self.slots[literal.name as usize];
        slot.place > 0 && slot.positive == literal.positive
    }

    /// Whether its opposite is.
    pub fn is_false(&self, literal: NameLit) -> bool
        requires { literal.name < length self.now.slots.items }
        ensures { result ≡ is_false self.now.slots.items literal }
    {
        let slot = self.slots[literal.name as usize];
        slot.place > 0 && slot.positive != literal.positive
    }

    /// Whether the literal is true by its value; false where it has none. A hint.
    pub fn seems_true(&self, literal: CodedLiteral) -> bool {
        self.values.is_true(literal)
    }

    /// Whether the literal is false by its value; where it has none, it isn't.
    pub fn is_surely_false(&self, literal: CodedLiteral) -> bool
        ensures { IsTrue result → IsTrue (is_false self.now.slots.items literal) }
    {
        self.values.is_false(literal)
    }

    /// Makes a literal without a value true.
    pub fn push(&mut self, entry: Assigned) -> Mem<()>
        requires trail { IsTrail self.old.entries.items self.old.slots.items }
        requires named { entry.literal.name < length self.old.slots.items }
        requires free { place_of self.old.slots.items entry.literal ≡ 0 }
        ensures trail { IfOk result (λ _. IsTrail self.new.entries.items self.new.slots.items) }
        ensures entries { IfOk result (λ _. self.new.entries.items ≡ self.old.entries.items ++ entry ∷ []) }
        ensures slots { IfOk result (λ _. self.new.slots.items ≡ slice_set self.old.slots.items entry.literal.name
            (slot_of (length self.old.entries.items) entry)) }
    {
        self.entries.push(entry)?;
        self.slots[entry.literal.name as usize] = Slot {
            place: self.entries.len(),
            positive: entry.literal.positive,
        };
        self.values.make_true(entry.literal);
        Ok(())
    }

    /// Takes the last value back.
    fn pop(&mut self)
        requires trail { IsTrail self.old.entries.items self.old.slots.items }
        ensures { Cuts (length self.old.entries.items - 1) self.old.entries.items self.old.slots.items
            self.new.entries.items self.new.slots.items }
    {
        if let Some(entry) = self.entries.pop() {
            self.slots[entry.literal.name as usize].place = 0;
            self.values.take_back(entry.literal);
        }
    }

    /// Takes back all values but the first `count`.
    pub fn cut(&mut self, count: usize)
        requires trail { IsTrail self.old.entries.items self.old.slots.items }
        requires within { count ≤ length self.old.entries.items }
        ensures { Cuts count self.old.entries.items self.old.slots.items self.new.entries.items self.new.slots.items }
    {
        while self.entries.len() > count {
            self.pop();
        }
    }
}
