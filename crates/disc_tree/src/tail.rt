// The ends of paths that no other path shares.

ghost use Rattle.std.specs.Prelude.{◌≡◌, ◌↔◌, ◌+◌, ◌++◌, [], ◌∷◌, IfOk, MatchOption, OnErr, IsTrue, false};
ghost use Rattle.fol_base.specs.Tree.{tree_variables};
ghost use Rattle.fol_base.specs.Term.{tree_of};
ghost use Rattle.disc_tree.specs.Entries.{IsWith};
ghost use Rattle.disc_tree.specs.Path.{path_of_all};
ghost use Rattle.disc_tree.specs.Work.{trees_left};
ghost use Rattle.disc_tree.specs.Rows.{all_at, IsTaken, IsNone};
ghost use Rattle.disc_tree.specs.Children.{labels_left, tail_rows};

use crate::entry::Entry;
use crate::label::Label;
use crate::sorted::SortedEntries;
use crate::steps::Steps;
use crate::work::{Rest, arguments_of};
use fol_base::Term;
use plain_types::Mem;
use std::alloc::Global;
use std::mem;
use std::sync::ledger::Ledger;

/// The labels of the rest of a path, and the entries at its end. A chain of nodes with one child each would say the same. A query reads both at a
/// step each.
#[derive(Drop)]
pub(crate) struct Tail {
    labels: Vec<Label>,
    entries: SortedEntries,
}

/// The labels of a tail from some place on.
#[derive(Clone, Copy)]
pub(crate) struct Labels<'a> {
    items: &'a [Label],
}

impl<'a> Labels<'a> {
    /// The first label and those after it, and None at their end, at one step.
    pub(crate) fn split_first<L: Ledger>(self, steps: &mut Steps<L>) -> Option<(Label, Labels<'a>)>
        ensures split { MatchOption result (labels_left self.entry ≡ []) (λ split. labels_left self.entry ≡ split.0 ∷ labels_left split.1) }
        ensures step { steps.new ≡ steps.old + 1 }
    {
        steps.tick();
        match self.items.split_first() {
            Some((label, others)) => Some((*label, Labels { items: others })),
            None => None,
        }
    }
}

impl Tail {
    /// The labels, of which none is read yet.
    pub(crate) fn labels(&self) -> Labels<'_>
        ensures { labels_left result ≡ self.now.labels.items }
    {
        Labels {
            items: &self.labels,
        }
    }

    /// The entries, at one step.
    pub(crate) fn entries<L: Ledger>(&self, steps: &mut Steps<L>) -> &[Entry]
        ensures entries { result.now ≡ self.now.entries }
        ensures step { steps.new ≡ steps.old + 1 }
    {
        steps.tick();
        self.entries.as_slice()
    }

    /// A tail of these labels and entries.
    pub(crate) fn of_parts(labels: Vec<Label>, entries: SortedEntries) -> Tail
        ensures { tail_rows result ≡ all_at labels.items entries }
    {
        Tail { labels, entries }
    }

    /// Takes the labels and the entries out.
    pub(crate) fn take_parts(&mut self, alloc: Global) -> (Vec<Label>, SortedEntries)
        ensures labels { result.0.items ≡ self.old.labels.items }
        ensures entries { result.1 ≡ self.old.entries }
    {
        let labels = mem::replace(&mut self.labels, Vec::new(alloc));
        let entries = mem::replace(&mut self.entries, SortedEntries::new(alloc));
        (labels, entries)
    }

    /// The path of what is left, with one entry.
    pub(crate) fn of(alloc: Global, rest: &Rest<'_>, entry: Entry) -> Mem<Tail>
        ensures { IfOk result (λ tail. tail_rows tail ≡ (path_of_all (trees_left rest.now), entry) ∷ []) }
    {
        let mut labels = Vec::with_capacity(alloc, count_labels(rest))?;
        push_labels(rest, &mut labels)?;
        let entries = SortedEntries::with_one(alloc, entry)?;
        Ok(Tail { labels, entries })
    }

    /// Whether there is no entry.
    pub(crate) fn is_empty(&self) -> bool
        ensures { IsTrue result ↔ (tail_rows self.now ≡ []) }
    {
        self.entries.is_empty()
    }

    /// Puts an entry at the tail's end. After an out-of-memory error the tail is as before.
    pub(crate) fn put(&mut self, entry: Entry) -> Mem<()>
        ensures ok { IfOk result (λ _. IsWith (self.old.labels.items, entry) (tail_rows self.old) (tail_rows self.new)) }
        ensures err { OnErr result (self.new ≡ self.old) }
    {
        self.entries.put(entry)
    }

    /// Whether this is the path of what is left.
    pub(crate) fn is_at(&self, rest: &Rest<'_>) -> bool
        ensures { IsTrue result ↔ (self.now.labels.items ≡ path_of_all (trees_left rest.now)) }
    {
        is_path(&self.labels, rest)
    }

    /// Takes away the entry with a number and a term's variables, if the tail is the path of what is left and has it. It says whether it was
    /// there.
    pub(crate) fn remove(&mut self, rest: &Rest<'_>, term: &Term, number: u64) -> bool
        ensures removed { IsTrue result → IsTaken (path_of_all (trees_left rest.now)) (tree_variables (tree_of term.now)) number
            (tail_rows self.old) (tail_rows self.new) }
        ensures absent { result ≡ false → IsNone (path_of_all (trees_left rest.now)) (tree_variables (tree_of term.now)) number
            (tail_rows self.old) }
        ensures unchanged { result ≡ false → self.new ≡ self.old }
    {
        if !self.is_at(rest) {
            return false;
        }
        self.entries.take(term, number)
    }
}

/// Whether labels are the path of what is left.
fn is_path(labels: &[Label], rest: &Rest<'_>) -> bool
    ensures { IsTrue result ↔ (labels.now ≡ path_of_all (trees_left rest.now)) }
{
    let Rest::Then(first, more, below) = rest else {
        return labels.is_empty();
    };
    let Some((label, others)) = labels.split_first() else {
        return false;
    };
    if !label.is_same(Label::of(first)) {
        return false;
    }
    let after = Rest::of(more, below);
    let next = Rest::of(arguments_of(first), &after);
    is_path(others, &next)
}

/// Adds the path of what is left.
fn push_labels(rest: &Rest<'_>, labels: &mut Vec<Label>) -> Mem<()>
    ensures { IfOk result (λ _. labels.new.items ≡ labels.old.items ++ path_of_all (trees_left rest.now)) }
{
    let Rest::Then(first, more, below) = rest else {
        return Ok(());
    };
    labels.push(Label::of(first))?;
    let after = Rest::of(more, below);
    let next = Rest::of(arguments_of(first), &after);
    push_labels(&next, labels)
}

/// How many labels the path of what is left has.
fn count_labels(rest: &Rest<'_>) -> usize {
    let Rest::Then(first, more, below) = rest else {
        return 0;
    };
    let after = Rest::of(more, below);
    let next = Rest::of(arguments_of(first), &after);
    count_labels(&next).saturating_add(1)
}
