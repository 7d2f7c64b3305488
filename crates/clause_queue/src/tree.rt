// A radix priority search tree (McCreight 1985): a heap by weight, and a search tree by number.
// Each level halves the numbers that may stand below, so no walk is longer than 33 levels.
ghost use Rattle.std.specs.Prelude.{◌≡◌, ◌≢◌, ℕ, ◌<◌, ◌≤◌, ◌+◌, ◌*◌, ◌/◌, ◌^◌, ◌↔◌, [], IsTrue, IfSome, IfNone};
ghost use Rattle.std.specs.Bool.{MatchBool};
ghost use Rattle.std.specs.List.{AllByRecursion};
ghost use Rattle.clause_queue.specs.Order.{IsLighter, IsNoHeavier};
ghost use Rattle.clause_queue.specs.Pairs.{with_pair, IsAbsent};
ghost use Rattle.clause_queue.specs.Pick.{IsPick};
ghost use Rattle.clause_queue.specs.Node.{pair_of, IsBare, IsSettled, Takes, IsTopOf, Leads};

use crate::choice::Choice;
use std::marker::Model;
use std::mem;

/// A waiting clause: its number and its size in symbols.
#[derive(Clone, Copy)]
pub struct Entry {
    pub number: u32,
    pub size: u32,
}

impl Entry {
    /// Whether this entry is picked before the other by weight.
    fn is_lighter(self, other: Entry) -> bool
        ensures { MatchBool result (IsLighter (pair_of self) (pair_of other)) (IsNoHeavier (pair_of other) (pair_of self)) }
    {
        self.size < other.size || self.size == other.size && self.number < other.number
    }
}

/// A node with its entry, and the two halves of the numbers that may stand below it.
#[cycle(tree)]
#[derive(Drop)]
pub struct Node {
    pub entry: Entry,
    // Lower numbers are in the lower half.
    split: u32,
    lower: Tree,
    upper: Tree,
}

/// A place of the tree, seen as the pairs of its entries in the order of their numbers.
#[cycle(tree)]
#[derive(Drop)]
pub struct Tree {
    top: Option<Box<Node>>,
}

impl Model for Tree {
    ghost use Rattle.std.specs.Prelude.{List, ℕ, length};

    ghost Value = { List (ℕ × ℕ) };

    ghost use Rattle.clause_queue.specs.Node.{pairs_of, IsSound};

    ghost view = { λ a. pairs_of a.top };

    ghost invariant = { λ a. IsSound a.top };

    ghost size = { length };

    ghost use Rattle.std.proofs.Common.{arith, length-append};
    ghost use Rattle.clause_queue.specs.TreeFalls.{length-with_pair};

    ghost size_decreases = { λ a h. Prim.grind (arith, length-append, length-with_pair) };
}

impl Node {
    /// A node that holds nothing below it.
    pub fn bare(entry: Entry) -> Node
        ensures entry { result.entry ≡ entry }
        ensures lower { result.lower ≡ [] }
        ensures upper { result.upper ≡ [] }
    {
        Node {
            entry,
            split: 0,
            lower: Tree::new(),
            upper: Tree::new(),
        }
    }
}

impl Tree {
    pub fn new() -> Tree
        ensures { result ≡ [] }
    {
        Tree { top: None }
    }

    /// Puts in the entry of a bare node, where the numbers here agree above bit `level`.
    /// The level decides how a new node divides the numbers below it, and so the speed alone.
    pub fn put(&mut self, mut node: Box<Node>, level: u32)
        requires level { level < 32 }
        requires bare { IsBare node }
        requires absent { IsAbsent node.value.entry.number self.old }
        ensures { self.new ≡ with_pair (pair_of node.value.entry) self.old }
    {
        match &mut self.top {
            None => {
                node.split = middle(node.entry.number, level);
                self.top = Some(node);
            }
            Some(top) => {
                let top = &mut **top;
                settle(&mut top.entry, &mut node.entry);
                if node.entry.number < top.split {
                    top.lower.put(node, level.saturating_sub(1))
                } else {
                    top.upper.put(node, level.saturating_sub(1))
                }
            }
        }
    }

    /// The number of the entry that is picked. None where the tree is empty.
    pub fn peek(&self, choice: Choice) -> Option<u32>
        ensures picked { IfSome result (IsPick choice self.now) }
        ensures none { IfNone result (self.now ≡ []) }
    {
        let number = self.top.as_ref()?.entry.number;
        match choice {
            Choice::Light => Some(number),
            Choice::Old => Some(self.least_number(number)),
        }
    }

    /// Takes out the entry that is picked, in a node that is bare. None where the tree is empty.
    pub fn pick(&mut self, choice: Choice) -> Option<Box<Node>>
        ensures taken { IfSome result (λ b. Takes b self.old self.new) }
        ensures picked { IfSome result (λ b. IsPick choice self.old b.value.entry.number) }
        ensures none { IfNone result ((self.old ≡ []) × (self.new ≡ [])) }
    {
        match choice {
            Choice::Light => self.take_top(),
            Choice::Old => self.take_oldest(),
        }
    }

    /// Takes out the lightest entry, in a node that is bare. None where the tree is empty.
    pub fn take_top(&mut self) -> Option<Box<Node>>
        ensures taken { IfSome result (λ b. Takes b self.old self.new) }
        ensures lightest { IfSome result (λ b. IsTopOf (pair_of b.value.entry) self.new) }
        ensures none { IfNone result ((self.old ≡ []) × (self.new ≡ [])) }
    {
        let mut top = self.top.take()?;
        let below = if upper_leads(&top.lower, &top.upper) {
            top.upper.take_top()
        } else {
            top.lower.take_top()
        };
        match below {
            None => Some(top),
            Some(mut node) => {
                mem::swap(&mut top.entry, &mut node.entry);
                self.top = Some(top);
                Some(node)
            }
        }
    }

    /// Takes out the entry of a number, in a node that is bare. None where no entry has it.
    pub fn take(&mut self, number: u32) -> Option<Box<Node>>
        ensures taken { IfSome result (λ b. Takes b self.old self.new) }
        ensures number { IfSome result (λ b. b.value.entry.number ≡ number) }
        ensures none { IfNone result (IsAbsent number self.old × (self.new ≡ self.old)) }
    {
        match &mut self.top {
            None => None,
            Some(top) => {
                if number == top.entry.number {
                    self.take_top()
                } else if number < top.split {
                    top.lower.take(number)
                } else {
                    top.upper.take(number)
                }
            }
        }
    }

    /// Takes out the entry of the least number, in a node that is bare. None where the tree is empty.
    pub fn take_oldest(&mut self) -> Option<Box<Node>>
        ensures taken { IfSome result (λ b. Takes b self.old self.new) }
        ensures oldest { IfSome result (λ b. AllByRecursion (λ q. b.value.entry.number ≤ q.0) self.old) }
        ensures none { IfNone result ((self.old ≡ []) × (self.new ≡ [])) }
    {
        let number = self.top.as_ref()?.entry.number;
        let oldest = self.least_number(number);
        self.take(oldest)
    }

    /// The least of a number and those of the tree.
    fn least_number(&self, number: u32) -> u32
        ensures no_higher { result ≤ number }
        ensures least { AllByRecursion (λ q. result ≤ q.0) self.now }
        ensures given { IsAbsent result self.now → result ≡ number }
    {
        match &self.top {
            None => number,
            Some(top) => {
                let number = number.min(top.entry.number);
                if top.lower.is_empty() {
                    top.upper.least_number(number)
                } else {
                    top.lower.least_number(number)
                }
            }
        }
    }

    fn is_empty(&self) -> bool
        ensures { IsTrue result ↔ (self.now ≡ []) }
    {
        self.top.is_none()
    }
}

/// Exchanges two entries where the one below is the lighter.
fn settle(above: &mut Entry, below: &mut Entry)
    ensures { IsSettled (pair_of above.old) (pair_of below.old) (pair_of above.new) (pair_of below.new) }
{
    if below.is_lighter(*above) {
        mem::swap(above, below);
    }
}

/// Whether the upper side has the lightest entry of both.
fn upper_leads(lower: &Tree, upper: &Tree) -> bool
    ensures { MatchBool result (Leads upper.now lower.now) (Leads lower.now upper.now) }
{
    match (&lower.top, &upper.top) {
        (_, None) => false,
        (None, Some(_)) => true,
        (Some(low), Some(high)) => high.entry.is_lighter(low.entry),
    }
}

/// The first number of the upper half of those that agree with `number` above bit `level`.
fn middle(number: u32, level: u32) -> u32
    requires { level < 32 }
    ensures { result ≡ (number / 2 ^ level / 2 * 2 + 1) * 2 ^ level }
{
    (number >> level | 1) << level
}
