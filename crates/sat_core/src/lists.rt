// Lists that are kept one after another in one vector, so that a list takes no memory of its own, and a copy of all is two copies of blocks.

ghost use Rattle.std.specs.Prelude.{◌≡◌, ◌<◌, ◌≤◌, ◌^◌, ◌↔◌, [], ◌∷◌, ◌++◌, length, slice_index_or, IfOk, OnErr, IsTrue};
ghost use Rattle.std.specs.List.{between};
ghost use Rattle.sat_core.specs.Ends.{cut_out, AreCut};

use plain_types::{Mem, NoMemory};
use std::alloc::Global;
use std::marker::Model;

/// How many values all lists can have together.
pub(crate) const ITEMS: usize = u32::MAX as usize;

/// Lists of values. Contracts see them as lists.
#[derive(Drop)]
pub struct Lists<T> {
    items: Vec<T>,
    /// Where each list ends; it begins where the one before ends. Numbers of 32 bits make a copy of many lists cheap.
    ends: Vec<u32>,
}

impl<T> Model for Lists<T> {
    ghost use Rattle.std.specs.Prelude.{List};
    ghost use Rattle.sat_core.specs.Ends.{cut_out, AreCut};

    ghost Value = { List (List T) };

    ghost view = { λ a. cut_out a.items.items a.ends.items };

    ghost invariant = { λ a. AreCut a.items.items a.ends.items };
}

impl<T> Lists<T> {
    /// No lists.
    pub fn new(alloc: Global) -> Lists<T>
        ensures { result ≡ [] }
    {
        Lists {
            items: Vec::new(alloc),
            ends: Vec::new(alloc),
        }
    }

    /// How many there are.
    pub fn len(&self) -> usize
        ensures length { result ≡ length self.now }
        ensures small { result < 2 ^ 63 }
    {
        self.ends.len()
    }

    /// Whether there are none.
    pub fn is_empty(&self) -> bool
        ensures { IsTrue result ↔ (self.now ≡ []) }
    {
        self.len() == 0
    }

    /// A list by its number.
    pub fn get(&self, number: usize) -> &[T]
        requires { number < length self.now }
        ensures { result.now ≡ slice_index_or self.now number [] }
    {
        let start = start_of(self.ends.as_slice(), number);
        part(self.items.as_slice(), start, self.ends[number] as usize)
    }
}

impl<T: Copy> Lists<T> {
    /// Adds a list at the end. After an out-of-memory error, which lists of 2^32 values together meet too, the lists are as before.
    pub fn push(&mut self, list: &[T]) -> Mem<()>
        ensures more { IfOk result (λ _. self.new ≡ self.old ++ list.now ∷ []) }
        ensures unchanged { OnErr result (self.new ≡ self.old) }
    {
        let start = self.items.len();
        if list.len() > ITEMS - start {
            return Err(NoMemory);
        }
        self.ends.reserve(1)?;
        self.items.extend_from_slice(list)?;
        self.ends.push_reserved((start + list.len()) as u32);
        Ok(())
    }

    /// Equal lists, by two copies of blocks.
    pub fn copy(&self, alloc: Global) -> Mem<Lists<T>>
        ensures { IfOk result (λ lists. lists ≡ self.now) }
    {
        Lists::copied(alloc, self.items.as_slice(), self.ends.as_slice())
    }

    /// The lists that end at these places, by two copies of blocks.
    pub(crate) fn copied(alloc: Global, values: &[T], places: &[u32]) -> Mem<Lists<T>>
        requires { AreCut values.now places.now }
        ensures { IfOk result (λ lists. lists ≡ cut_out values.now places.now) }
    {
        let mut items = Vec::new(alloc);
        items.extend_from_slice(values)?;
        let mut ends = Vec::new(alloc);
        ends.extend_from_slice(places)?;
        Ok(Lists { items, ends })
    }
}

/// The values from a place to another.
fn part<T>(items: &[T], start: usize, end: usize) -> &[T]
    requires rise { start ≤ end }
    requires within { end ≤ length items.now }
    ensures { result.now ≡ between start end items.now }
{
    &items[start..end]
}

/// Where a list begins.
fn start_of(ends: &[u32], number: usize) -> usize
    requires { number ≤ length ends.now }
    ensures { result ≡ slice_index_or (0 ∷ ends.now) number 0 }
{
    if number == 0 {
        0
    } else {
        ends[number - 1] as usize
    }
}
