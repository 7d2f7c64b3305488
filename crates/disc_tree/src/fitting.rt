// Whether one path fits a query.

ghost use Rattle.std.specs.Prelude.{◌≡◌, ◌≤◌, ◌+◌, [], ◌∷◌, true};
ghost use Rattle.fol_base.specs.Tree.{variable};
ghost use Rattle.disc_tree.specs.Children.{labels_left};
ghost use Rattle.disc_tree.specs.Path.{fits};
ghost use Rattle.disc_tree.specs.Work.{trees_left, terms_left};
ghost use Rattle.disc_tree.specs.Prefixes.{AreGround, reads};

use crate::label::Label;
use crate::steps::Steps;
use crate::tail::Labels;
use crate::work::{Rest, Skipped};
use fol_base::Term;
use std::sync::ledger::Ledger;

/// On which side variables may stand for terms.
#[derive(Clone, Copy)]
pub(crate) struct Varying {
    pub(crate) entry: bool,
    pub(crate) query: bool,
}

impl Varying {
    /// For terms that unify.
    pub(crate) const BOTH: Varying = Varying {
        entry: true,
        query: true,
    };

    /// For generalisations.
    pub(crate) const ENTRIES: Varying = Varying {
        entry: true,
        query: false,
    };

    /// For instances.
    pub(crate) const QUERIES: Varying = Varying {
        entry: false,
        query: true,
    };
}

/// Whether labels fit what is left, with a step for each that is read and one for their end.
#[cycle(fits)]
pub(crate) fn fits<L: Ledger>(
    labels: Labels<'_>,
    skipped: &Skipped<'_>,
    rest: &Rest<'_>,
    varying: Varying,
    steps: &mut Steps<L>,
) -> bool
    ensures fits { result ≡ fits varying.entry varying.query (terms_left skipped.now) (trees_left rest.now) (labels_left labels.entry) }
    ensures steps { terms_left skipped.now ≡ 0 → AreGround (trees_left rest.now)
        → steps.new ≤ steps.old + reads (trees_left rest.now) (labels_left labels.entry) }
    ensures visits { varying.entry ≡ true → terms_left skipped.now ≡ 0 → AreGround (trees_left rest.now)
        → steps.old + reads (trees_left rest.now) (labels_left labels.entry) ≤ steps.new }
    ensures counter { steps.old ≤ steps.new }
{
    let Some((label, others)) = labels.split_first(steps) else {
        return is_done(skipped, rest);
    };
    if let Skipped::More(count, below) = skipped {
        let fewer = Skipped::of(*count, below);
        let inner = Skipped::of(label.arity(), &fewer);
        return fits(others, &inner, rest, varying, steps);
    }
    let Rest::Then(first, more, below) = rest else {
        return false;
    };
    let after = Rest::of(more, below);
    match first {
        Term::Var(_) => fits_variable(label, others, &after, varying, steps),
        Term::App(_, arguments) => match label {
            Label::Star => varying.entry && fits(others, &Skipped::Closed, &after, varying, steps),
            Label::Symbol(_, _) => {
                let next = Rest::of(arguments.as_slice(), &after);
                label.is_same(Label::of(first))
                    && fits(others, &Skipped::Closed, &next, varying, steps)
            }
        },
    }
}

/// Whether the path fits where a variable of the query stands against the first label.
#[cycle(fits)]
fn fits_variable<L: Ledger>(
    label: Label,
    others: Labels<'_>,
    rest: &Rest<'_>,
    varying: Varying,
    steps: &mut Steps<L>,
) -> bool
    ensures fits { result ≡ fits varying.entry varying.query 0 (variable 0 ∷ trees_left rest.now) (label ∷ labels_left others.entry) }
    ensures counter { steps.old ≤ steps.new }
{
    match label {
        Label::Star => {
            (varying.entry || varying.query) && fits(others, &Skipped::Closed, rest, varying, steps)
        }
        Label::Symbol(_, arity) => {
            let inner = Skipped::of(arity, &Skipped::Closed);
            varying.query && fits(others, &inner, rest, varying, steps)
        }
    }
}

/// Whether nothing is left to pass over or to read.
fn is_done(skipped: &Skipped<'_>, rest: &Rest<'_>) -> bool
    ensures { result ≡ fits true true (terms_left skipped.now) (trees_left rest.now) [] }
{
    match skipped {
        Skipped::Closed => matches!(rest, Rest::Nothing),
        Skipped::More(_, _) => false,
    }
}
