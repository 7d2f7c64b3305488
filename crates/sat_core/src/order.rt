// Which name is decided next: the one that stood in most conflicts of late, by a heap over activities
// (Moskewicz and others 2001; the heap as in MiniSat, Eén and Sörensson 2003). No answer rests on it.

ghost use Rattle.std.specs.Prelude.{◌≡◌, ◌+◌, ◌<◌, length, vec_len, IfSome, IfNone};
ghost use Rattle.sat_core.specs.Trail.{place_of, slot_at};

use crate::trail::{Assigned, Trail};
use plain_types::{Mem, NameLit};
use std::alloc::Global;

/// Once a conflict adds more than this, all activities are made smaller by one factor. A name of every conflict comes to `DECAY` + 1 times
/// that, which is below 2^64.
const HIGHEST: u64 = 1 << 59;

/// A conflict adds more than the one before by this part of it, so that older activities count less: about as by MiniSat's factor of 0.95.
const DECAY: u64 = 20;

/// The names that may be decided, as a heap by activity.
#[derive(Drop)]
pub struct Order {
    heap: Vec<u32>,
    /// For each name its index in the heap plus one, or 0 where it isn't there.
    places: Vec<usize>,
    activities: Vec<u64>,
    /// The amount that a conflict adds to the activities of its names.
    step: u64,
}

impl Order {
    /// All names, none of which has been active.
    pub fn new(alloc: Global, names: u32) -> Mem<Order> {
        let mut heap = Vec::with_capacity(alloc, names as usize)?;
        let mut places = Vec::with_capacity(alloc, names as usize)?;
        for name in 0..names {
            heap.push(name)?;
            places.push(name as usize + 1)?;
        }
        Ok(Order {
            heap,
            places,
            activities: vec![in alloc; 0; names as usize]?,
            step: 1 << 10,
        })
    }

    /// The next literal to be decided, of a name without a value, with the sign that it had last.
    pub fn next(&mut self, trail: &Trail) -> Option<NameLit>
        ensures named { IfSome result (λ l. l.name < length trail.now.slots.items) }
        ensures free { IfSome result (λ l. place_of trail.now.slots.items l ≡ 0) }
        ensures sign { IfSome result (λ l. l.positive ≡ (slot_at trail.now.slots.items l.name).positive) }
        ensures none { IfNone result (vec_len self.new.heap ≡ 0) }
    {
        while let Some(name) = self.pop() {
            if (name as usize) < trail.slots.len() {
                let slot = trail.slots[name as usize];
                if slot.place == 0 {
                    let positive = slot.positive;
                    return Some(NameLit { positive, name });
                }
            }
        }
        None
    }

    /// Takes the names of entries that are taken back in again.
    pub fn put_back(&mut self, entries: &[Assigned]) -> Mem<()> {
        for entry in entries {
            self.insert(entry.literal.name)?;
        }
        Ok(())
    }

    /// Makes the names of a conflict more active, and those of earlier ones less so in comparison.
    pub fn bump(&mut self, literals: &[NameLit]) {
        for literal in literals {
            self.bump_name(literal.name as usize);
        }
        self.step = self.step.saturating_add(self.step / DECAY);
        if self.step > HIGHEST {
            self.rescale();
        }
    }

    fn bump_name(&mut self, name: usize) {
        if name < self.activities.len() {
            self.activities[name] = self.activities[name].saturating_add(self.step);
        }
        let place = self.places.get(name).copied().unwrap_or(0);
        if place > 0 {
            self.sift_up(place - 1);
        }
    }

    fn rescale(&mut self) {
        for activity in self.activities.iter_mut() {
            *activity /= 1 << 40;
        }
        self.step /= 1 << 40;
    }

    fn insert(&mut self, name: u32) -> Mem<()> {
        let index = name as usize;
        if index < self.places.len() && self.places[index] == 0 {
            let last = self.heap.len();
            self.heap.push(name)?;
            self.note(last);
            self.sift_up(last);
        }
        Ok(())
    }

    /// Takes the most active name out.
    fn pop(&mut self) -> Option<u32>
        ensures fewer { IfSome result (λ _. vec_len self.new.heap + 1 ≡ vec_len self.old.heap) }
        ensures none { IfNone result (vec_len self.new.heap ≡ 0) }
    {
        if self.heap.is_empty() {
            return None;
        }
        let name = self.heap.swap_remove(0);
        if (name as usize) < self.places.len() {
            self.places[name as usize] = 0;
        }
        self.note(0);
        self.sift_down();
        Some(name)
    }

    /// Moves a name up until none above it is less active.
    fn sift_up(&mut self, from: usize)
        ensures { vec_len self.new.heap ≡ vec_len self.old.heap }
    {
        let mut index = from;
        while index > 0 {
            let parent = (index - 1) / 2;
            if !self.is_before(index, parent) {
                break;
            }
            self.swap(index, parent);
            index = parent;
        }
    }

    /// Moves the first name down until none below it is more active.
    fn sift_down(&mut self)
        ensures { vec_len self.new.heap ≡ vec_len self.old.heap }
    {
        let mut index = 0;
        while index < self.heap.len() / 2 {
            let left = 2 * index + 1;
            let child = if self.is_before(left + 1, left) {
                left + 1
            } else {
                left
            };
            if !self.is_before(child, index) {
                break;
            }
            self.swap(index, child);
            index = child;
        }
    }

    /// Whether there is a name at the first index and it is more active than that at the second.
    fn is_before(&self, first: usize, second: usize) -> bool {
        first < self.heap.len()
            && second < self.heap.len()
            && self.activity(self.heap[first]) > self.activity(self.heap[second])
    }

    fn activity(&self, name: u32) -> u64 {
        self.activities.get(name as usize).copied().unwrap_or(0)
    }

    fn swap(&mut self, first: usize, second: usize)
        ensures { vec_len self.new.heap ≡ vec_len self.old.heap }
    {
        if first < self.heap.len() && second < self.heap.len() {
            self.heap.swap(first, second);
            self.note(first);
            self.note(second);
        }
    }

    /// Notes where the name at an index stands.
    fn note(&mut self, index: usize)
        ensures { vec_len self.new.heap ≡ vec_len self.old.heap }
    {
        if index < self.heap.len() {
            let name = self.heap[index] as usize;
            if name < self.places.len() {
                self.places[name] = index + 1;
            }
        }
    }
}
