// Variables that occur in clauses, in a list whose repetitions are dropped as it grows: literals share the arguments of a Skolem term, so there can be
// very many occurrences of few variables.

ghost use Rattle.std.specs.Prelude.{◌≡◌, [], IfOk, OnErr};
ghost use Rattle.std.specs.List.Sorted.{IsPermutation};
ghost use Rattle.skolem.specs.Outline.{AreSame};

use crate::progress::made_in_order;
use plain_types::Mem;
use std::alloc::Global;

/// The last number that no variable has, so that all are below it.
const OVER_ALL_VARIABLES: u32 = u32::MAX;

/// How long a list of variables gets before its repetitions are dropped for the first time.
pub(crate) const FIRST_ROOM: usize = 4096;

/// Variables with repetitions, and how long their list gets before these are dropped.
#[derive(Drop)]
pub struct VariableList {
    pub variables: Vec<u32>,
    pub room: usize,
}

impl VariableList {
    /// No variables. It takes no memory.
    pub fn new(alloc: Global) -> VariableList
        ensures { result.variables.items ≡ [] }
    {
        VariableList {
            variables: Vec::new(alloc),
            room: FIRST_ROOM,
        }
    }

    /// Drops the repetitions where the list is longer than its room, and gives it room for twice what is left: so a list is at most about twice as long
    /// as there are variables in it, and each is sorted a few times. After an out-of-memory error the list has all that it had, perhaps in another order.
    pub fn shorten(&mut self, alloc: Global) -> Mem<()>
        ensures same { IfOk result (λ _. AreSame self.new.variables.items self.old.variables.items) }
        ensures kept { OnErr result (IsPermutation self.old.variables.items self.new.variables.items) }
        ensures room { OnErr result (self.new.room ≡ self.old.room) }
    {
        if self.variables.len() <= self.room {
            return Ok(());
        }
        let variables = made_in_order(alloc, OVER_ALL_VARIABLES, &mut self.variables)?;
        self.room = variables.len().saturating_mul(2).max(FIRST_ROOM);
        self.variables = variables;
        Ok(())
    }
}
