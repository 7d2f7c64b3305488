// The queue of the clauses that wait and are awake. It is counted, so that room can be made for so many clauses in all.

ghost use Rattle.std.specs.Prelude.{◌≡◌, ◌<◌, ◌≤◌, ◌+◌, ◌↔◌, [], Contains, IfOk, IfSome, IsNone, IsTrue, OnOk, length, if◌then◌else◌};
ghost use Rattle.clause_queue.specs.Pairs.{numbers, with_pair, without};
ghost use Rattle.clause_queue.specs.Pick.{IsPick};

use clause_queue::{Choice, Queue};
use plain_types::{Mem, NoMemory};
use std::alloc::Global;
use std::marker::Model;

/// The clauses that wait and are awake, with their sizes. Contracts see the pairs of their numbers and sizes, and for how many more there is
/// room.
#[derive(Drop)]
pub struct ReadyQueue {
    queue: Queue,
    /// How many clauses there are.
    len: usize,
}

impl Model for ReadyQueue {
    ghost use Rattle.clause_queue.specs.Pairs.{Waiting};

    ghost Value = { Waiting };

    ghost use Rattle.pool_core.specs.Ready.{waiting_in, IsCounted};

    ghost view = { waiting_in };

    ghost invariant = { IsCounted };
}

impl ReadyQueue {
    /// The empty queue. It takes no memory yet.
    pub(crate) fn new(alloc: Global) -> Mem<ReadyQueue>
        ensures pairs { IfOk result (λ queue. queue.pairs ≡ []) }
    {
        Ok(ReadyQueue {
            queue: Queue::new(alloc)?,
            len: 0,
        })
    }

    /// Makes room for so many clauses in all, those that are there among them. After an out-of-memory error there may be some of that room.
    pub(crate) fn reserve(&mut self, clauses: usize) -> Mem<()>
        ensures pairs { self.new.pairs ≡ self.old.pairs }
        ensures kept { self.old.spare ≤ self.new.spare }
        ensures room { OnOk result (clauses ≤ length self.new.pairs + self.new.spare) }
    {
        let Ok(more) = u32::try_from(clauses.saturating_sub(self.len)) else {
            return Err(NoMemory);
        };
        self.queue.reserve(more)
    }

    /// Adds a clause. There is room for it.
    pub(crate) fn push(&mut self, number: u32, size: u32)
        requires absent { ¬ Contains (numbers self.old.pairs) number }
        requires room { 0 < self.old.spare }
        ensures pairs { self.new.pairs ≡ with_pair (number, size) self.old.pairs }
        ensures nodes { length self.new.pairs + self.new.spare ≡ length self.old.pairs + self.old.spare }
    {
        self.queue.push(number, size).unwrap();
        self.len = self.len.saturating_add(1);
    }

    /// Takes out the clause of a number, if it is there.
    pub(crate) fn remove(&mut self, number: u32)
        ensures pairs { self.new.pairs ≡ without number self.old.pairs }
        ensures nodes { length self.new.pairs + self.new.spare ≡ length self.old.pairs + self.old.spare }
    {
        self.queue.rise();
        if self.queue.remove(number) {
            self.len = self.len.saturating_sub(1);
        }
    }

    /// Whether there are none.
    pub(crate) fn is_empty(&self) -> bool
        ensures { IsTrue result ↔ (self.now.pairs ≡ []) }
    {
        self.queue.is_empty()
    }

    /// The clause that comes next by a choice, or None where there are none.
    pub(crate) fn peek(&self, choice: Choice) -> Option<u32>
        ensures picked { IfSome result (IsPick choice self.now.pairs) }
        ensures none { IsNone result ↔ (self.now.pairs ≡ []) }
    {
        self.queue.peek(choice)
    }
}
