// The rule of the lock, and what each step on its table tells.

ghost use Rattle.turn_lock.specs.Rule.{Turns};
ghost use Rattle.turn_lock.specs.Steps.{first_view, kept_part, given_part, joined, spent_view, Seizes, Raises, Releases, Plans, Looks};

use crate::historied::Historied;
use crate::view::View;
use atomic_table::{Join, Play, Split, TableRule};
use std::snapshot::Snapshot;

pub(crate) struct TurnRule;

impl<S: Historied> TableRule<Option<S>, View<S::Entry, S::Origin>, Snapshot<S>> for TurnRule {
    ghost holds = { λ start. Turns S.history S.origin S.key record { history = S.history start.value; origin = S.origin start.value } };

    ghost first = { λ start. first_view (S.history start.value) (S.origin start.value) };
}

// Tries to close the gate, and takes the state where it was open.
pub(crate) struct Seize;

impl<S: Historied> Play<Option<S>, View<S::Entry, S::Origin>> for Seize {
    ghost then = { Seizes S.history S.origin S.key };
}

// Raises the length of the history.
pub(crate) struct Raise;

impl<S: Historied> Play<Option<S>, View<S::Entry, S::Origin>> for Raise {
    ghost then = { Raises S.history S.key };
}

// Opens the gate, and brings the state home.
pub(crate) struct Release;

impl<S, E, O> Play<Option<S>, View<E, O>> for Release {
    ghost then = { Releases };
}

// Notes how many shares the next split gives out.
pub(crate) struct Plan;

impl<S, E, O> Play<Option<S>, View<E, O>> for Plan {
    ghost then = { Plans };
}

// Loads the length of the history.
pub(crate) struct Look;

impl<S: Historied> Play<Option<S>, View<S::Entry, S::Origin>> for Look {
    ghost then = { Looks S.key };
}

pub(crate) struct Part;

impl<E, O> Split<View<E, O>> for Part {
    ghost left = { kept_part };

    ghost right = { given_part };
}

pub(crate) struct Unite;

impl<E, O> Join<View<E, O>> for Unite {
    ghost both = { joined };

    ghost spent = { spent_view };
}
