// Queries: the entries whose paths fit a term.

ghost use Rattle.std.specs.Prelude.{◌≡◌, ◌≤◌, ◌++◌, [], suc, true, IfOk, if◌then◌else◌, length};
ghost use Rattle.disc_tree.specs.Entries.{IsBeginning};
ghost use Rattle.disc_tree.specs.Work.{trees_left, terms_left};
ghost use Rattle.disc_tree.specs.Rows.{rows, rows_at, found_in, numbers_of, Rise};
ghost use Rattle.disc_tree.specs.Children.{rows_below};
ghost use Rattle.disc_tree.specs.Prefixes.{AreGround, StaysWithin, FollowsWithin, VisitsEach, FollowsEach};
ghost use Rattle.disc_tree.specs.declared.label.Label.TheVariants.{Star};

use crate::entry::Entry;
use crate::fitting::{Varying, fits};
use crate::label::Label;
use crate::node::{Below, Node};
use crate::steps::Steps;
use crate::work::{Rest, Skipped};
use fol_base::Term;
use plain_types::Mem;
use std::sync::ledger::Ledger;

/// Adds the numbers of the node's entries whose paths fit what is left, in the tree's order.
#[cycle(collect)]
pub(crate) fn collect<L: Ledger>(
    node: &Node,
    skipped: &Skipped<'_>,
    rest: &Rest<'_>,
    varying: Varying,
    found: &mut Vec<u64>,
    steps: &mut Steps<L>,
) -> Mem<()>
    ensures found { IfOk result (λ _. found.new.items
        ≡ found.old.items ++ found_in varying.entry varying.query (terms_left skipped.now) (trees_left rest.now) (rows node.now)) }
    ensures steps { terms_left skipped.now ≡ 0 → AreGround (trees_left rest.now)
        → StaysWithin (trees_left rest.now) (rows node.now) steps.old steps.new }
    ensures visits { IfOk result (λ _. varying.entry ≡ true → terms_left skipped.now ≡ 0 → AreGround (trees_left rest.now)
        → VisitsEach (trees_left rest.now) (rows node.now) steps.old steps.new) }
    ensures kept { IsBeginning found.old.items found.new.items }
    ensures counter { steps.old ≤ steps.new }
{
    if let Skipped::More(count, below) = skipped {
        let fewer = Skipped::of(*count, below);
        return collect_children(node, &fewer, rest, varying, found, steps);
    }
    let Rest::Then(first, more, below) = rest else {
        return push_numbers(node.entries(steps), found);
    };
    let after = Rest::of(more, below);
    match first {
        Term::Var(_) => {
            if varying.query {
                collect_children(node, &Skipped::Closed, &after, varying, found, steps)
            } else {
                collect_star(node, &after, varying, found, steps)
            }
        }
        Term::App(_, arguments) => {
            collect_star(node, &after, varying, found, steps)?;
            let next = Rest::of(arguments.as_slice(), &after);
            collect_child(node, Label::of(first), &next, varying, found, steps)?;
            Ok(())
        }
    }
}

/// Adds the numbers below the star's child, where the entries' variables may stand for terms.
#[cycle(collect)]
fn collect_star<L: Ledger>(
    node: &Node,
    rest: &Rest<'_>,
    varying: Varying,
    found: &mut Vec<u64>,
    steps: &mut Steps<L>,
) -> Mem<()>
    ensures found { IfOk result (λ _. found.new.items
        ≡ found.old.items
        ++ (if varying.entry then found_in varying.entry varying.query 0 (trees_left rest.now) (rows_at Star node.now.1) else [])) }
    ensures order { varying.entry ≡ true → Rise node.now.1 }
    ensures steps { AreGround (trees_left rest.now)
        → FollowsWithin (trees_left rest.now) (rows_at Star node.now.1) steps.old steps.new }
    ensures visits { IfOk result (λ _. varying.entry ≡ true → AreGround (trees_left rest.now)
        → FollowsEach (trees_left rest.now) (rows_at Star node.now.1) steps.old steps.new) }
    ensures kept { IsBeginning found.old.items found.new.items }
    ensures counter { steps.old ≤ steps.new }
{
    if varying.entry {
        collect_child(node, Label::Star, rest, varying, found, steps)
    } else {
        Ok(())
    }
}

/// Adds the numbers below the child with a label, if there is one.
#[cycle(collect)]
fn collect_child<L: Ledger>(
    node: &Node,
    label: Label,
    rest: &Rest<'_>,
    varying: Varying,
    found: &mut Vec<u64>,
    steps: &mut Steps<L>,
) -> Mem<()>
    ensures found { IfOk result (λ _. found.new.items
        ≡ found.old.items ++ found_in varying.entry varying.query 0 (trees_left rest.now) (rows_at label node.now.1)) }
    ensures order { Rise node.now.1 }
    ensures steps { AreGround (trees_left rest.now)
        → FollowsWithin (trees_left rest.now) (rows_at label node.now.1) steps.old steps.new }
    ensures visits { IfOk result (λ _. varying.entry ≡ true → AreGround (trees_left rest.now)
        → FollowsEach (trees_left rest.now) (rows_at label node.now.1) steps.old steps.new) }
    ensures kept { IsBeginning found.old.items found.new.items }
    ensures counter { steps.old ≤ steps.new }
{
    match node.child(label, steps) {
        Some(child) => collect_below(child, &Skipped::Closed, rest, varying, found, steps),
        None => Ok(()),
    }
}

/// Adds the numbers below all children, where one term of the paths is passed over, and then `skipped` more.
#[cycle(collect)]
fn collect_children<L: Ledger>(
    node: &Node,
    skipped: &Skipped<'_>,
    rest: &Rest<'_>,
    varying: Varying,
    found: &mut Vec<u64>,
    steps: &mut Steps<L>,
) -> Mem<()>
    ensures found { IfOk result (λ _. found.new.items
        ≡ found.old.items ++ found_in varying.entry varying.query (suc (terms_left skipped.now)) (trees_left rest.now) (rows node.now)) }
    ensures kept { IsBeginning found.old.items found.new.items }
    ensures counter { steps.old ≤ steps.new }
{
    for index in 0..node.width(&mut *steps) {
        let (label, child) = node.child_at(index, &mut *steps);
        let inner = Skipped::of(label.arity(), &*skipped);
        collect_below(child, &inner, &*rest, varying, found, &mut *steps)?;
    }
    Ok(())
}

/// Adds the numbers of a node or a tail.
#[cycle(collect)]
fn collect_below<L: Ledger>(
    below: &Below,
    skipped: &Skipped<'_>,
    rest: &Rest<'_>,
    varying: Varying,
    found: &mut Vec<u64>,
    steps: &mut Steps<L>,
) -> Mem<()>
    requires { 1 ≤ length (rows_below below.now) }
    ensures found { IfOk result (λ _. found.new.items
        ≡ found.old.items ++ found_in varying.entry varying.query (terms_left skipped.now) (trees_left rest.now) (rows_below below.now)) }
    ensures steps { terms_left skipped.now ≡ 0 → AreGround (trees_left rest.now)
        → StaysWithin (trees_left rest.now) (rows_below below.now) steps.old steps.new }
    ensures visits { IfOk result (λ _. varying.entry ≡ true → terms_left skipped.now ≡ 0 → AreGround (trees_left rest.now)
        → VisitsEach (trees_left rest.now) (rows_below below.now) steps.old steps.new) }
    ensures kept { IsBeginning found.old.items found.new.items }
    ensures counter { steps.old ≤ steps.new }
{
    match below {
        Below::Branching(node) => collect(node, skipped, rest, varying, found, steps),
        Below::Single(tail) => {
            if fits(tail.labels(), skipped, rest, varying, steps) {
                push_numbers(tail.entries(steps), found)?;
            }
            Ok(())
        }
    }
}

/// Adds the numbers of entries.
fn push_numbers(entries: &[Entry], found: &mut Vec<u64>) -> Mem<()>
    ensures found { IfOk result (λ _. found.new.items ≡ found.old.items ++ numbers_of entries.now) }
    ensures kept { IsBeginning found.old.items found.new.items }
{
    for entry in entries {
        found.push(entry.number())?;
    }
    Ok(())
}
