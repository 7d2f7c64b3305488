// Lists of numbers, each kept once.

ghost use Rattle.std.specs.Prelude.{◌≡◌, [], IfOk, OnErr};
ghost use Rattle.congruence.specs.Keys.{with_key, place_of_key};

use indexmap::IndexSet;
use plain_types::Mem;
use std::alloc::Global;
use std::marker::Model;

/// Different lists of numbers, which contracts see as their list in order of arrival.
#[derive(Drop)]
pub struct Keys {
    keys: IndexSet<Vec<u32>>,
}

impl Model for Keys {
    ghost use Rattle.std.specs.Prelude.{ℕ, List};
    ghost use Rattle.congruence.specs.Keys.{lists_of};

    ghost Value = { List (List ℕ) };

    ghost view = { λ a. lists_of a.keys.keys };
}

impl Keys {
    /// No lists. It takes no memory.
    pub fn new(alloc: Global) -> Keys
        ensures { result ≡ [] }
    {
        Keys {
            keys: IndexSet::new(alloc),
        }
    }

    /// The place of a list, which comes last where it is new. After out of memory the lists are as before.
    pub fn meet(&mut self, key: Vec<u32>) -> Mem<usize>
        ensures keys { IfOk result (λ _. self.new ≡ with_key self.old key.items) }
        ensures place { IfOk result (λ place. place ≡ place_of_key self.old key.items) }
        ensures kept { OnErr result (self.new ≡ self.old) }
    {
        let (place, _) = self.keys.insert_full(key)?;
        Ok(place)
    }
}
