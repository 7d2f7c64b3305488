// The counted list of a pool, as contracts see it.

ghost use Rattle.std.specs.Prelude.{◌≡◌, ◌+◌, ◌<◌, ◌≤◌, ◌++◌, [], ◌∷◌, length, vec_len, vec_capacity, OnOk};
ghost use Rattle.pool_core.specs.CountedList.{keys_in};

use kernel_steps::Key;
use plain_types::Mem;
use std::alloc::Global;
use std::snapshot::Snapshot;

/// The names of the inferences that were counted, in order. Nothing asks for one of them again, and none is kept: contracts alone see more of
/// them than how many there are.
#[derive(Drop)]
pub struct CountedKeys {
    pub(crate) keys: Vec<Snapshot<Key>>,
}

impl CountedKeys {
    /// No names.
    pub(crate) fn new(alloc: Global) -> CountedKeys
        ensures { keys_in result ≡ [] }
    {
        CountedKeys {
            keys: Vec::new(alloc),
        }
    }

    /// How many inferences were counted.
    pub(crate) fn len(&self) -> usize
        ensures { result ≡ length (keys_in self.now) }
    {
        self.keys.len()
    }

    /// Makes room for `more` names, and leaves the names as they are.
    pub(crate) fn reserve(&mut self, more: usize) -> Mem<()>
        ensures keys { keys_in self.new ≡ keys_in self.old }
        ensures room { OnOk result (vec_len self.new.keys + more ≤ vec_capacity self.new.keys) }
    {
        self.keys.reserve(more)?;
        Ok(())
    }

    /// Counts an inference. There is room for it.
    pub(crate) fn push(&mut self, key: &Key)
        requires { vec_len self.old.keys < vec_capacity self.old.keys }
        ensures keys { keys_in self.new ≡ keys_in self.old ++ key.now ∷ [] }
        ensures len { vec_len self.new.keys ≡ vec_len self.old.keys + 1 }
        ensures room { vec_capacity self.new.keys ≡ vec_capacity self.old.keys }
    {
        self.keys.push_reserved(Snapshot::of(key));
    }
}
