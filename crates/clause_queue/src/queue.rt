// The queue: a search tree, and spare nodes for what is still to come.
ghost use Rattle.std.specs.Prelude.{◌≡◌, ◌≤◌, ◌<◌, ◌+◌, ◌-◌, ◌^◌, ◌↔◌, [], Contains, IsTrue, IsOk, OnOk, OnErr, IfOk, IfSome, IfNone, IsNone, max, length, vec_capacity, if◌then◌else◌};
ghost use Rattle.std.specs.List.{AllByRecursion};
ghost use Rattle.clause_queue.specs.Node.{IsBare};
ghost use Rattle.clause_queue.specs.Pairs.{with_pair, without, numbers, IsRising};
ghost use Rattle.clause_queue.specs.Pick.{IsPick};

use crate::choice::Choice;
use crate::tree::{Entry, Node, Tree};
use plain_types::Mem;
use std::alloc::Global;
use std::marker::Model;

/// The waiting clauses, seen as the pairs of their numbers and sizes in the order of the numbers,
/// and as `spare`, for how many more there is room.
#[derive(Drop)]
pub struct Queue {
    tree: Tree,
    len: usize,
    // Has room for each node of the tree, so that a node can be given back without memory.
    spare: Vec<Box<Node>>,
    alloc: Global,
}

impl Model for Queue {
    ghost use Rattle.clause_queue.specs.Pairs.{Waiting};

    ghost Value = { Waiting };

    ghost use Rattle.clause_queue.specs.Room.{waiting_of, IsKept};

    ghost view = { waiting_of };

    ghost invariant = { IsKept };
}

impl Queue {
    /// The empty queue. It takes no memory yet.
    pub fn new(alloc: Global) -> Mem<Queue>
        ensures pairs { IfOk result (λ queue. queue.pairs ≡ []) }
        ensures spare { IfOk result (λ queue. queue.spare ≡ 0) }
        ensures ok { IsOk result }
    {
        Ok(Queue {
            tree: Tree::new(),
            len: 0,
            spare: Vec::new(alloc),
            alloc,
        })
    }

    /// Makes room for `more` clauses. After an out-of-memory error there may be some of that room.
    pub fn reserve(&mut self, more: u32) -> Mem<()>
        ensures pairs { self.new.pairs ≡ self.old.pairs }
        ensures kept { self.old.spare ≤ self.new.spare }
        ensures ok { OnOk result (self.new.spare ≡ max self.old.spare more) }
    {
        let missing = (more as usize).saturating_sub(self.spare.len());
        // Room for the new nodes, and for those of the tree when they are given back.
        self.spare.reserve(self.len + missing)?;
        for _ in 0..missing {
            let node = Box::new(self.alloc, Node::bare(Entry { number: 0, size: 0 }))?;
            keep_node(&mut self.spare, node);
        }
        Ok(())
    }

    /// Adds a clause. It can be refused only where there is no room to spare, and changes nothing then.
    pub fn push(&mut self, number: u32, size: u32) -> Mem<()>
        requires absent { ¬ Contains (numbers self.old.pairs) number }
        ensures pairs { OnOk result (self.new.pairs ≡ with_pair (number, size) self.old.pairs) }
        ensures spare { OnOk result (self.new.spare ≡ self.old.spare - 1) }
        ensures room { 0 < self.old.spare → IsOk result }
        ensures err { OnErr result (self.new ≡ self.old) }
    {
        let node = spare_node(
            &mut self.spare,
            self.len,
            self.alloc,
            Entry { number, size },
        )?;
        self.tree.put(node, TOP_BIT);
        self.len += 1;
        Ok(())
    }

    /// Whether nothing waits. It takes no memory.
    pub fn is_empty(&self) -> bool
        ensures { IsTrue result ↔ (self.now.pairs ≡ []) }
    {
        self.len == 0
    }

    /// Shows that the numbers of the waiting clauses rise. It does nothing.
    pub fn rise(&self)
        ensures { IsRising self.now.pairs }
    {
        let _ = &self.tree;
    }

    /// The clause that `pick` would take out, or None where nothing waits. It takes no memory.
    pub fn peek(&self, choice: Choice) -> Option<u32>
        ensures picked { IfSome result (IsPick choice self.now.pairs) }
        ensures none { IsNone result ↔ (self.now.pairs ≡ []) }
    {
        self.tree.peek(choice)
    }

    /// Takes out a clause by its weight or its number, or answers None where nothing waits. It takes no memory.
    pub fn pick(&mut self, choice: Choice) -> Option<u32>
        ensures picked { IfSome result (IsPick choice self.old.pairs) }
        ensures pairs { IfSome result (λ number. self.new.pairs ≡ without number self.old.pairs) }
        ensures spare { IfSome result (λ _. self.new.spare ≡ self.old.spare + 1) }
        ensures none { IsNone result ↔ (self.old.pairs ≡ []) }
        ensures unchanged { IfNone result (self.new ≡ self.old) }
    {
        let node = self.tree.pick(choice)?;
        let number = node.entry.number;
        self.len -= 1;
        keep_node(&mut self.spare, node);
        Some(number)
    }

    /// Takes out the clause of a number, and answers whether it was there. It takes no memory.
    pub fn remove(&mut self, number: u32) -> bool
        ensures found { IsTrue result ↔ Contains (numbers self.old.pairs) number }
        ensures pairs { self.new.pairs ≡ without number self.old.pairs }
        ensures spare { self.new.spare ≡ self.old.spare + (if result then 1 else 0) }
    {
        let Some(node) = self.tree.take(number) else {
            return false;
        };
        self.len -= 1;
        keep_node(&mut self.spare, node);
        true
    }
}

// A spare node for an entry, or a new one with room to give it back beside `waiting` others.
fn spare_node(
    spare: &mut Vec<Box<Node>>,
    waiting: usize,
    alloc: Global,
    entry: Entry,
) -> Mem<Box<Node>>
    requires bare { AllByRecursion IsBare spare.old.items }
    requires room { waiting + length spare.old.items ≤ vec_capacity spare.old }
    requires fits { waiting + 1 < 2 ^ 64 }
    ensures node { IfOk result IsBare }
    ensures entry { IfOk result (λ node. node.value.entry ≡ entry) }
    ensures spare { OnOk result (length spare.new.items ≡ length spare.old.items - 1) }
    ensures room { OnOk result (waiting + 1 + length spare.new.items ≤ vec_capacity spare.new) }
    ensures ok { 0 < length spare.old.items → IsOk result }
    ensures bare { AllByRecursion IsBare spare.new.items }
    ensures kept { vec_capacity spare.old ≤ vec_capacity spare.new }
    ensures err { OnErr result (spare.new.items ≡ spare.old.items) }
{
    match spare.pop() {
        Some(mut node) => {
            node.entry = entry;
            Ok(node)
        }
        None => {
            spare.reserve(waiting + 1)?;
            Ok(Box::new(alloc, Node::bare(entry))?)
        }
    }
}

// Keeps a bare node for another entry, in the room that is left for it.
fn keep_node(spare: &mut Vec<Box<Node>>, node: Box<Node>)
    requires room { length spare.old.items < vec_capacity spare.old }
    requires bare { AllByRecursion IsBare spare.old.items }
    requires node { IsBare node }
    ensures spare { length spare.new.items ≡ length spare.old.items + 1 }
    ensures bare { AllByRecursion IsBare spare.new.items }
    ensures kept { vec_capacity spare.old ≤ vec_capacity spare.new }
{
    spare.push(node).unwrap();
}

// The tree divides the numbers by their highest bit first.
const TOP_BIT: u32 = 31;
