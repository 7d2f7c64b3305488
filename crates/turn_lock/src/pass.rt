// The tokens of a lock: a pass, and a turn.

use crate::historied::Historied;
use crate::view::View;
use atomic_table::Seat;
use std::marker::Model;

// A seat at the table of a lock.
pub(crate) type LockSeat<S> = Seat<
    Option<S>,
    View<<S as Historied>::Entry, <S as Historied>::Origin>,
>;

/// Leave to take turns at one lock. It has no bytes. Contracts see which lock, the history that the pass has seen, the places in it that were added through the pass, its shares of 1,024, and the history and the origin of the state with which the lock was made.
/// A pass that is dropped takes its shares with it, and the lock can't be closed any more.
#[derive(Drop)]
pub struct Pass<S: Historied> {
    pub(crate) seat: LockSeat<S>,
}

impl<S: Historied> Model for Pass<S> {
    ghost use Rattle.std.specs.Prelude.{◌≡◌, ◌<◌, [], None};
    ghost use Rattle.turn_lock.specs.Shown.{Known};

    ghost Value = { Known S.Entry S.Origin };

    ghost view = { λ p. record { lock = p.seat.table_id; seen = p.seat.me.0.seen; own = p.seat.me.0.own; shares = p.seat.me.0.shares; start = p.seat.me.0.start; origin = p.seat.me.0.origin } };

    ghost invariant = { λ p. (p.seat.me.1 ≡ []) × (p.seat.me.0.held ≡ None) × (0 < p.seat.me.0.shares) };
}

/// The hold of a turn on its lock. It has no bytes. Contracts see the pass as it was handed to `take`, and the state's history then.
pub struct Hold<S: Historied> {
    pub(crate) seat: LockSeat<S>,
}

impl<S: Historied> Model for Hold<S> {
    ghost use Rattle.std.specs.Prelude.{◌≡◌, ◌<◌, [], ◌∷◌, None, IsSome};
    ghost use Rattle.std.specs.Option.{unwrap_or};
    ghost use Rattle.turn_lock.specs.Shown.{Holding};

    ghost Value = { Holding S.Entry S.Origin };

    ghost view = { λ h. record {
      pass = record { lock = h.seat.table_id; seen = h.seat.me.0.seen; own = h.seat.me.0.own; shares = h.seat.me.0.shares; start = h.seat.me.0.start; origin = h.seat.me.0.origin };
      history = unwrap_or h.seat.me.0.held [];
    } };

    ghost invariant = { λ h. (h.seat.me.1 ≡ (0, None) ∷ []) × IsSome h.seat.me.0.held × (0 < h.seat.me.0.shares) };
}

/// A turn at a lock. It can't be dropped: `TurnLock::give` ends it.
pub struct Turn<S: Historied> {
    /// The state. Its history may grow.
    pub state: S,
    /// What contracts see of the turn. It changes nothing at run time.
    pub hold: Hold<S>,
}
