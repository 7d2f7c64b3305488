// The nodes of a tree.

ghost use Rattle.std.specs.Prelude.{◌≡◌, ◌↔◌, ◌<◌, ◌≤◌, ◌+◌, [], ◌∷◌, IfOk, IfErr, OnErr, IfSome, MatchOption, IsTrue, false, length};
ghost use Rattle.fol_base.specs.Tree.{tree_variables};
ghost use Rattle.fol_base.specs.Term.{tree_of};
ghost use Rattle.disc_tree.specs.Entries.{IsWith};
ghost use Rattle.disc_tree.specs.Path.{path_of_all};
ghost use Rattle.disc_tree.specs.Work.{trees_left};
ghost use Rattle.disc_tree.specs.Rows.{rows, rows_at, weight, IsSound, IsAt, IsGap, IsChildAt, Rise, IsTaken, IsNone};
ghost use Rattle.disc_tree.specs.Children.{children_of, rows_below, tail_rows};

use crate::entry::Entry;
use crate::label::Label;
use crate::sorted::SortedEntries;
use crate::steps::Steps;
use crate::tail::Tail;
use crate::work::{Rest, arguments_of};
use fol_base::Term;
use plain_types::Mem;
use std::alloc::Global;
use std::marker::Model;
use std::mem;
use std::sync::ledger::Ledger;

/// The entries and children below a common beginning of paths: the entries whose path ends here, and the children, in the order of their labels.
#[derive(Drop)]
#[cycle(nodes)]
pub(crate) struct Node {
    entries: SortedEntries,
    branches: Vec<Branch>,
}

/// A child with its label.
#[derive(Drop)]
#[cycle(nodes)]
struct Branch {
    label: Label,
    below: Below,
}

/// The part of the tree below a child's label: a node, or a tail where only one path goes on.
#[derive(Drop)]
#[cycle(nodes)]
pub(crate) enum Below {
    Branching(Node),
    Single(Tail),
}

impl Model for Node {
    ghost use Rattle.std.specs.Prelude.{List, ℕ, ◌++◌};
    ghost use Rattle.std.specs.Coded.{coded×, coded_ℕ, coded_list};
    ghost use Rattle.fol_base.specs.Tree.{Tree};
    ghost use Rattle.fol_base.specs.TreeCode.{tree_code};
    ghost use Rattle.disc_tree.specs.declared.label.Label.{Label};
    ghost use Rattle.disc_tree.specs.LabelCode.{label_code};

    ghost Value = { List (Tree × ℕ) × List (Label × List (List Label × (Tree × ℕ))) };

    ghost coded = { coded× (coded_list (coded× tree_code coded_ℕ)) (coded_list (coded× label_code (coded_list (coded× (coded_list label_code) (coded× tree_code coded_ℕ))))) };

    ghost use Rattle.disc_tree.specs.Rows.{rows, weight, IsSound};
    ghost use Rattle.disc_tree.specs.Children.{children_of};

    ghost view = { λ a. (a.entries, children_of a.branches.items) };

    ghost invariant = { λ a. IsSound (children_of a.branches.items) };

    ghost size = { λ v. weight (rows v) };

    ghost use Rattle.std.proofs.Common.{arith};
    ghost use Rattle.disc_tree.specs.Falls.{most-deep-rows-≤};

    ghost size_decreases = { λ a h. Prim.omega (arith, most-deep-rows-≤ a.entries a.branches.items h.none_is_empty) };
}

impl Node {
    /// A node without entries.
    pub(crate) fn new(alloc: Global) -> Node
        ensures { result ≡ ([], []) }
    {
        Node {
            entries: SortedEntries::new(alloc),
            branches: Vec::new(alloc),
        }
    }

    /// The entries whose path ends here, at one step.
    pub(crate) fn entries<L: Ledger>(&self, steps: &mut Steps<L>) -> &[Entry]
        ensures entries { result.now ≡ self.now.0 }
        ensures step { steps.new ≡ steps.old + 1 }
    {
        steps.tick();
        self.entries.as_slice()
    }

    /// The part of the tree below the child with a label, at one step.
    pub(crate) fn child<L: Ledger>(&self, label: Label, steps: &mut Steps<L>) -> Option<&Below>
        ensures child { MatchOption result (rows_at label self.now.1 ≡ [])
            (λ child. rows_below child.now ≡ rows_at label self.now.1) }
        ensures smaller { IfSome result (λ child. weight (rows_below child.now) < weight (rows self.now)) }
        ensures some { IfSome result (λ child. 1 ≤ length (rows_below child.now)) }
        ensures order { Rise self.now.1 }
        ensures step { steps.new ≡ steps.old + 1 }
    {
        steps.tick();
        match slot(&self.branches, label) {
            Ok(at) => Some(&self.branches[at].below),
            Err(_) => None,
        }
    }

    /// How many children there are, at one step.
    pub(crate) fn width<L: Ledger>(&self, steps: &mut Steps<L>) -> usize
        ensures width { result ≡ length self.now.1 }
        ensures step { steps.new ≡ steps.old + 1 }
    {
        steps.tick();
        self.branches.len()
    }

    /// The label of the child at a place in the order of labels, and what lies below it, at one step.
    pub(crate) fn child_at<L: Ledger>(&self, index: usize, steps: &mut Steps<L>) -> (Label, &Below)
        requires { index < length self.now.1 }
        ensures child { IsChildAt result.0 (rows_below result.1.now) self.now.1 index }
        ensures some { 1 ≤ length (rows_below result.1.now) }
        ensures smaller { weight (rows_below result.1.now) < weight (rows self.now) }
        ensures step { steps.new ≡ steps.old + 1 }
    {
        steps.tick();
        let branch = &self.branches[index];
        (branch.label, &branch.below)
    }

    /// Whether no entry is here or below.
    fn is_empty(&self) -> bool
        ensures { IsTrue result ↔ (rows self.now ≡ []) }
    {
        self.entries.is_empty() && self.branches.is_empty()
    }

    /// Puts an entry at the end of the path of what is left. After an out-of-memory error the node is as before.
    #[cycle(insert)]
    pub(crate) fn insert(&mut self, alloc: Global, rest: &Rest<'_>, entry: Entry) -> Mem<()>
        ensures ok { IfOk result (λ _. IsWith (path_of_all (trees_left rest.now), entry) (rows self.old) (rows self.new)) }
        ensures err { OnErr result (self.new ≡ self.old) }
    {
        let Rest::Then(first, more, below) = rest else {
            return self.entries.put(entry);
        };
        let after = Rest::of(more, below);
        let next = Rest::of(arguments_of(first), &after);
        let label = Label::of(first);
        match slot(&self.branches, label) {
            Ok(at) => {
                self.branches[at].below.add(alloc, &next, entry)?;
                Ok(())
            }
            Err(at) => {
                let tail = Tail::of(alloc, &next, entry)?;
                let below = Below::Single(tail);
                self.branches.insert(at, Branch { label, below })?;
                Ok(())
            }
        }
    }

    /// A node with the rows of a tail, whose labels and entries it takes. After an out-of-memory error the tail is as before.
    fn of_tail(alloc: Global, tail: &mut Tail) -> Mem<Node>
        requires { 1 ≤ length (tail_rows tail.old) }
        ensures ok { IfOk result (λ node. rows node ≡ tail_rows tail.old) }
        ensures err { OnErr result (tail.new ≡ tail.old) }
    {
        let mut branches = Vec::with_capacity(alloc, 1)?;
        let (mut labels, entries) = tail.take_parts(alloc);
        if labels.is_empty() {
            return Ok(Node { entries, branches });
        }
        let label = labels.remove(0);
        let below = Below::Single(Tail::of_parts(labels, entries));
        branches.push(Branch { label, below })?;
        Ok(Node {
            entries: SortedEntries::new(alloc),
            branches,
        })
    }

    /// Takes away the entry with a number and a term's variables, at the end of the path of what is left, and the branches that are empty
    /// without it. It says whether the entry was there.
    #[cycle(remove)]
    pub(crate) fn remove(&mut self, rest: &Rest<'_>, term: &Term, number: u64) -> bool
        ensures removed { IsTrue result → IsTaken (path_of_all (trees_left rest.now)) (tree_variables (tree_of term.now)) number
            (rows self.old) (rows self.new) }
        ensures absent { result ≡ false → IsNone (path_of_all (trees_left rest.now)) (tree_variables (tree_of term.now)) number
            (rows self.old) }
        ensures unchanged { result ≡ false → self.new ≡ self.old }
    {
        let Rest::Then(first, more, below) = rest else {
            return self.entries.take(term, number);
        };
        let after = Rest::of(more, below);
        let next = Rest::of(arguments_of(first), &after);
        let Ok(at) = slot(&self.branches, Label::of(first)) else {
            return false;
        };
        if !self.branches[at].below.take_away(&next, term, number) {
            return false;
        }
        if self.branches[at].below.is_empty() {
            mem::drop(self.branches.remove(at));
        }
        true
    }
}

impl Below {
    /// Whether no entry is here.
    fn is_empty(&self) -> bool
        ensures { IsTrue result ↔ (rows_below self.now ≡ []) }
    {
        match self {
            Below::Branching(node) => node.is_empty(),
            Below::Single(tail) => tail.is_empty(),
        }
    }

    /// Puts an entry at the end of the path of what is left. A tail on which it doesn't end becomes a node. After an out-of-memory error the rows are
    /// as before.
    #[cycle(insert)]
    fn add(&mut self, alloc: Global, rest: &Rest<'_>, entry: Entry) -> Mem<()>
        requires { 1 ≤ length (rows_below self.old) }
        ensures ok { IfOk result (λ _. IsWith (path_of_all (trees_left rest.now), entry) (rows_below self.old) (rows_below self.new)) }
        ensures err { OnErr result (rows_below self.new ≡ rows_below self.old) }
    {
        match self {
            Below::Branching(node) => node.insert(alloc, rest, entry),
            Below::Single(tail) => {
                if tail.is_at(rest) {
                    return tail.put(entry);
                }
                let mut node = Node::of_tail(alloc, tail)?;
                let result = node.insert(alloc, rest, entry);
                *self = Below::Branching(node);
                result
            }
        }
    }

    /// Takes away the entry with a number and a term's variables, at the end of the path of what is left. It says whether it was there.
    #[cycle(remove)]
    fn take_away(&mut self, rest: &Rest<'_>, term: &Term, number: u64) -> bool
        ensures removed { IsTrue result → IsTaken (path_of_all (trees_left rest.now)) (tree_variables (tree_of term.now)) number
            (rows_below self.old) (rows_below self.new) }
        ensures absent { result ≡ false → IsNone (path_of_all (trees_left rest.now)) (tree_variables (tree_of term.now)) number
            (rows_below self.old) }
        ensures unchanged { result ≡ false → self.new ≡ self.old }
    {
        match self {
            Below::Branching(node) => node.remove(rest, term, number),
            Below::Single(tail) => tail.remove(rest, term, number),
        }
    }
}

/// Where the child with a label stands, or would go, by halving.
fn slot(branches: &[Branch], label: Label) -> Result<usize, usize>
    requires { Rise (children_of branches.now) }
    ensures found { IfOk result (IsAt label (children_of branches.now)) }
    ensures absent { IfErr result (IsGap label (children_of branches.now)) }
{
    let mut low = 0;
    let mut high = branches.len();
    while low < high {
        let middle = low + (high - low) / 2;
        if branches[middle].label.comes_before(label) {
            low = middle + 1;
        } else {
            high = middle;
        }
    }
    if low < branches.len() && !label.comes_before(branches[low].label) {
        Ok(low)
    } else {
        Err(low)
    }
}
