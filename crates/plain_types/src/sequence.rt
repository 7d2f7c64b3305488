// Plain lists that contracts see as lists.

ghost use Rattle.std.specs.Prelude.{◌≡◌, ◌<◌, ◌^◌, ◌↔◌, List, [], ◌∷◌, ◌++◌, length, IfOk, OnErr, IsTrue};
ghost use Rattle.std.specs.Slice.Iter.{iter_rest};
ghost use Rattle.std.specs.Iterator.Adapters.{IterYieldsInOrder, IterYieldsInReverse};

use crate::memory::Mem;
use std::alloc::Global;
use std::marker::Model;
use std::slice::Iter;

/// A list of values of one kind, over a vector.
#[derive(Drop)]
pub struct Sequence<T> {
    items: Vec<T>,
}

impl<T> Model for Sequence<T> {
    ghost Value = { List T };

    ghost view = { λ a. a.items.items };
}

/// A name of a split-off part, with its sign.
#[derive(Clone, Copy, Debug, PartialEq, Eq)]
pub struct NameLit {
    pub positive: bool,
    pub name: u32,
}

/// The bytes of a text.
pub type Text = Sequence<u8>;

/// Texts, in order.
pub type Texts = Sequence<Text>;

/// Numbers, in order.
pub type Numbers = Sequence<u64>;

/// Lists of numbers, in order.
pub type Parts = Sequence<Numbers>;

/// Signed names, in order.
pub type Names = Sequence<NameLit>;

impl<T> Sequence<T> {
    /// The empty list. It takes no memory until something is pushed.
    pub fn new(alloc: Global) -> Sequence<T>
        ensures { result ≡ [] }
    {
        Sequence {
            items: Vec::new(alloc),
        }
    }

    /// The list of a vector's elements. It takes no memory.
    pub fn from_vec(items: Vec<T>) -> Sequence<T>
        ensures { result ≡ items.items }
    {
        Sequence { items }
    }

    /// The vector of the list's elements. It takes no memory.
    pub fn into_vec(self) -> Vec<T>
        ensures { result.items ≡ self }
    {
        self.items
    }

    /// The elements, lent.
    pub fn as_slice(&self) -> &[T]
        ensures { result.now ≡ self.now }
    {
        self.items.as_slice()
    }

    /// The elements, lent one after another.
    pub fn iter(&self) -> Iter<'_, T>
        ensures rest { iter_rest result ≡ self.now }
        ensures len { length (iter_rest result) ≡ length self.now }
        ensures bound { length (iter_rest result) < 2 ^ 64 }
        ensures runs { IterYieldsInOrder T }
        ensures runs_back { IterYieldsInReverse T }
    {
        self.items.iter()
    }

    /// How many elements there are.
    pub fn len(&self) -> usize
        ensures { result ≡ length self.now }
    {
        self.items.len()
    }

    /// Whether there are none.
    pub fn is_empty(&self) -> bool
        ensures { IsTrue result ↔ (self.now ≡ []) }
    {
        self.items.is_empty()
    }
}

impl<T: Drop> Sequence<T> {
    /// Adds an element at the end. After an out-of-memory error the list is as before.
    pub fn push(&mut self, item: T) -> Mem<()>
        ensures ok { IfOk result (λ _. self.new ≡ self.old ++ item ∷ []) }
        ensures err { OnErr result (self.new ≡ self.old) }
    {
        self.items.push(item)?;
        Ok(())
    }
}

impl<T: Copy> Sequence<T> {
    /// The list of a slice's elements.
    pub fn from_slice(alloc: Global, items: &[T]) -> Mem<Sequence<T>>
        ensures { IfOk result (λ list. list ≡ items.now) }
    {
        let mut list = Vec::new(alloc);
        list.extend_from_slice(items)?;
        Ok(Sequence { items: list })
    }

    /// An equal list.
    pub fn copy(&self, alloc: Global) -> Mem<Sequence<T>>
        ensures { IfOk result (λ list. list ≡ self.now) }
    {
        Sequence::from_slice(alloc, self.as_slice())
    }
}
