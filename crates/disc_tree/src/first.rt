// The first entry that a test accepts, among those that may be generalisations of a query.

ghost use Rattle.std.specs.Prelude.{◌≡◌, ◌≤◌, IfOk, length};
ghost use Rattle.disc_tree.specs.Children.{labels_left, rows_below};
ghost use Rattle.disc_tree.specs.Firsts.{IsFirst};
ghost use Rattle.disc_tree.specs.Generalisations.{answers_of, terms_of};
ghost use Rattle.disc_tree.specs.Reading.{matches_in, matches_of};
ghost use Rattle.disc_tree.specs.Rows.{all_at, rows, rows_at, Rise};
ghost use Rattle.disc_tree.specs.Work.{trees_left};

use crate::entry::Entry;
use crate::label::Label;
use crate::node::{Below, Node};
use crate::stars::{Generalisation, Stars};
use crate::steps::Steps;
use crate::tail::{Labels, Tail};
use crate::work::{Rest, arguments_of};
use fol_base::Term;
use plain_types::Mem;
use std::sync::ledger::Ledger;

/// The test's answers for the node's entries whose paths can be read along what is left, in the tree's order, up to the first that it accepts. The
/// stars before the node stand for terms too.
#[cycle(first)]
pub(crate) fn first_in<T, F: Fn(Generalisation<'_>) -> Mem<Option<T>>, L: Ledger>(
    node: &Node,
    rest: &Rest<'_>,
    stars: &Stars<'_>,
    test: &F,
    steps: &mut Steps<L>,
) -> Mem<Option<T>>
    requires { F.IsAlwaysCallable test.now }
    ensures { IfOk result (IsFirst (answers_of (F.post test.now)) (matches_in (terms_of stars.now) (trees_left rest.now) (rows node.now))) }
{
    let Rest::Then(first, more, below) = rest else {
        return first_of(node.entries(steps), stars, test);
    };
    let after = Rest::of(more, below);
    let behind = Stars::More(&*first, &*stars);
    match first {
        Term::Var(_) => first_child(node, Label::Star, &after, &behind, test, steps),
        Term::App(_, arguments) => {
            if let Some(found) = first_child(node, Label::Star, &after, &behind, test, steps)? {
                return Ok(Some(found));
            }
            let next = Rest::of(arguments.as_slice(), &after);
            first_child(node, Label::of(first), &next, stars, test, steps)
        }
    }
}

/// The first accepted entry below the child with a label, if there is one.
#[cycle(first)]
fn first_child<T, F: Fn(Generalisation<'_>) -> Mem<Option<T>>, L: Ledger>(
    node: &Node,
    label: Label,
    rest: &Rest<'_>,
    stars: &Stars<'_>,
    test: &F,
    steps: &mut Steps<L>,
) -> Mem<Option<T>>
    requires { F.IsAlwaysCallable test.now }
    ensures first { IfOk result
        (IsFirst (answers_of (F.post test.now)) (matches_in (terms_of stars.now) (trees_left rest.now) (rows_at label node.now.1))) }
    ensures order { Rise node.now.1 }
{
    match node.child(label, steps) {
        Some(child) => first_below(child, rest, stars, test, steps),
        None => Ok(None),
    }
}

/// The first accepted entry of a node or a tail.
#[cycle(first)]
fn first_below<T, F: Fn(Generalisation<'_>) -> Mem<Option<T>>, L: Ledger>(
    below: &Below,
    rest: &Rest<'_>,
    stars: &Stars<'_>,
    test: &F,
    steps: &mut Steps<L>,
) -> Mem<Option<T>>
    requires { F.IsAlwaysCallable test.now }
    ensures { IfOk result
        (IsFirst (answers_of (F.post test.now)) (matches_in (terms_of stars.now) (trees_left rest.now) (rows_below below.now))) }
{
    match below {
        Below::Branching(node) => first_in(node, rest, stars, test, steps),
        Below::Single(tail) => first_along(tail, tail.labels(), rest, stars, test, steps),
    }
}

/// The first accepted entry of a tail of which these labels are left to read.
fn first_along<T, F: Fn(Generalisation<'_>) -> Mem<Option<T>>, L: Ledger>(
    tail: &Tail,
    labels: Labels<'_>,
    rest: &Rest<'_>,
    stars: &Stars<'_>,
    test: &F,
    steps: &mut Steps<L>,
) -> Mem<Option<T>>
    requires { F.IsAlwaysCallable test.now }
    ensures { IfOk result (IsFirst (answers_of (F.post test.now))
        (matches_in (terms_of stars.now) (trees_left rest.now) (all_at (labels_left labels.entry) tail.now.entries))) }
{
    let Some((label, others)) = labels.split_first(steps) else {
        return match rest {
            Rest::Nothing => first_of(tail.entries(steps), stars, test),
            Rest::Then(_, _, _) => Ok(None),
        };
    };
    let Rest::Then(first, more, below) = rest else {
        return Ok(None);
    };
    let after = Rest::of(more, below);
    match label {
        Label::Star => {
            let behind = Stars::More(&*first, &*stars);
            first_along(tail, others, &after, &behind, test, steps)
        }
        Label::Symbol(_, _) => {
            if !label.is_same(Label::of(first)) {
                return Ok(None);
            }
            let next = Rest::of(arguments_of(first), &after);
            first_along(tail, others, &next, stars, test, steps)
        }
    }
}

/// The first accepted entry among those at one path.
fn first_of<T, F: Fn(Generalisation<'_>) -> Mem<Option<T>>>(
    entries: &[Entry],
    stars: &Stars<'_>,
    test: &F,
) -> Mem<Option<T>>
    requires { F.IsAlwaysCallable test.now }
    ensures { IfOk result (IsFirst (answers_of (F.post test.now)) (matches_of (terms_of stars.now) entries.now)) }
{
    for entry in entries {
        let generalisation = Generalisation {
            number: entry.number(),
            variables: entry.variables(),
            stars: &*stars,
        };
        if let Some(found) = test(generalisation)? {
            return Ok(Some(found));
        }
    }
    Ok(None)
}
