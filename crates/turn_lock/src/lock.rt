// The lock: two words, the gate and the length of the history, and a slot for the state. `specs/Rule.antt` says what holds between any two steps on them.

ghost use Rattle.std.specs.Prelude.{◌≡◌, ◌+◌, ◌-◌, ◌<◌, [], ◌∷◌, ◌++◌, length, None, Some, IfOk, IsSome};
ghost use Rattle.std.specs.Option.{unwrap_or};
ghost use mathlib.Core.List.{IsPrefix};
ghost use Rattle.turn_lock.specs.History.{longer, added_places, AreAdded, AreApart, AreKeysApart, OwnsAdded, OwnsKeys, AddsOwnKeys};
ghost use Rattle.turn_lock.specs.Shown.{with_shares, split_off};
ghost use Rattle.turn_lock.specs.Steps.{raised, released, IsSeized};

use crate::historied::Historied;
use crate::pass::{Hold, LockSeat, Pass, Turn};
use crate::steps::{Look, Part, Plan, Raise, Release, Seize, TurnRule, Unite};
use crate::view::View;
use atomic_table::{Refused, Table};
use plain_types::{Mem, NoMemory};
use std::alloc::Global;
use std::marker::Model;
use std::snapshot::Snapshot;
use std::sync::Wait;
use std::thread;

// The words of the table.
const GATE: usize = 0;

const LENGTH: usize = 1;

// The values of the gate word.
const OPEN: u64 = 0;

const CLOSED: u64 = 1;

// The slot of the state.
const STATE: usize = 0;

/// A lock over a state with a history. Contracts see which lock it is, so that a pass of another one is not taken for its own.
#[derive(Drop)]
pub struct TurnLock<S: Historied> {
    table: Table<Option<S>, View<S::Entry, S::Origin>, Snapshot<S>, TurnRule, Global>,
}

impl<S: Historied> Model for TurnLock<S> {
    ghost use Rattle.std.specs.Prelude.{◌≡◌};
    ghost use Rattle.atomic_table.specs.Seated.{TableId, table_id_coded};

    ghost Value = { TableId };

    ghost coded = { table_id_coded };

    ghost view = { λ l. l.table.shared.table_id };

    ghost invariant = { λ l. (l.table.shared.table_id.words ≡ 2) × (l.table.shared.table_id.slots ≡ 1) };
}

impl<S: Historied + Drop> TurnLock<S> {
    /// A lock over the state, and its only pass, which has seen the state's history, owns nothing and has all 1,024 shares. Where there is no memory the state is let go.
    pub fn new(alloc: Global, state: S) -> Mem<(TurnLock<S>, Pass<S>)>
        ensures lock { IfOk result (λ made. made.1.lock ≡ made.0) }
        ensures seen { IfOk result (λ made. made.1.seen ≡ S.history state) }
        ensures own { IfOk result (λ made. made.1.own ≡ []) }
        ensures shares { IfOk result (λ made. made.1.shares ≡ 1024) }
        ensures start { IfOk result (λ made. made.1.start ≡ S.history state) }
        ensures origin { IfOk result (λ made. made.1.origin ≡ Some (S.origin state)) }
    {
        let start = Snapshot::of(&state);
        let length = state.len();
        let mut slots = Vec::with_capacity(alloc, 1)?;
        slots.push_reserved(Some(state));
        match Table::new(alloc, &[OPEN, length], slots, &start) {
            Ok((table, seat)) => Ok((TurnLock { table }, Pass { seat })),
            Err(Refused { slots: _ }) => Err(NoMemory),
        }
    }
}

impl<S: Historied> TurnLock<S> {
    /// Waits until no turn is under way, and begins one. The state's history begins with all that the pass has seen, and an entry whose key is that of an entry at a place that the pass owns stands at such a place too. Nothing bounds the wait.
    pub fn take<R: Wait>(&self, rt: &R, pass: Pass<S>) -> Turn<S>
        requires lock { pass.lock ≡ self.now }
        ensures pass { result.hold.pass ≡ pass }
        ensures history { result.hold.history ≡ S.history result.state }
        ensures seen { IsPrefix pass.seen (S.history result.state) }
        ensures start { IsPrefix pass.start pass.seen }
        ensures origin { pass.origin ≡ Some (S.origin result.state) }
        ensures added { AreAdded pass.start pass.seen pass.own }
        ensures keys { OwnsKeys S.key (S.history result.state) pass.own }
    {
        let Pass { mut seat } = pass;
        self.close_gate(rt, &mut seat);
        let state = self.table.shared.exchange(&mut seat, STATE, None).unwrap();
        Turn {
            state,
            hold: Hold { seat },
        }
    }

    // Tries until it finds the gate open, and yields the processor after each look or try that fails. Who waits only looks: a try would
    // take the gate's line in the cache from the one who is to open it.
    fn close_gate<R: Wait>(&self, rt: &R, seat: &mut LockSeat<S>)
        requires lock { seat.old.table_id ≡ self.now }
        requires pass { (seat.old.me.1 ≡ []) × (seat.old.me.0.held ≡ None) × (0 < seat.old.me.0.shares) }
        ensures same { (seat.new.table_id ≡ seat.old.table_id) × (seat.new.id ≡ seat.old.id) }
        ensures seized { IsSeized S.history S.origin S.key seat.old.me seat.new.me }
    {
        let shared = &self.table.shared;
        for _ in rt.forever() {
            if shared.peek(GATE) == OPEN {
                let found = shared.compare_exchange::<Seize>(seat, GATE, OPEN, CLOSED);
                if found == OPEN {
                    return;
                }
            }
            thread::yield_now();
        }
        unreachable!()
    }

    /// Waits until the history is not `length` long. It begins no turn and shows nothing, so who has nothing to do yet waits without closing
    /// the gate. Nothing bounds the wait.
    pub fn wait_past<R: Wait>(&self, rt: &R, length: u64) {
        for _ in rt.forever() {
            if self.table.shared.peek(LENGTH) != length {
                return;
            }
            thread::yield_now();
        }
        unreachable!()
    }

    /// Ends the turn. The history may only have grown, by entries with keys that were new or that the pass owns. The pass has then seen the whole history, and owns the places that were added.
    pub fn give(&self, turn: Turn<S>) -> Pass<S>
        requires lock { turn.hold.pass.lock ≡ self.now }
        requires grown { IsPrefix turn.hold.history (S.history turn.state) }
        requires origin { turn.hold.pass.origin ≡ Some (S.origin turn.state) }
        requires keys { AddsOwnKeys S.key turn.hold.history turn.hold.pass.own (S.history turn.state) }
        ensures lock { result.lock ≡ self.now }
        ensures seen { result.seen ≡ S.history turn.state }
        ensures own { result.own ≡ turn.hold.pass.own ++ added_places turn.hold.history (S.history turn.state) }
        ensures added { AreAdded result.start result.seen result.own }
        ensures keys { OwnsKeys S.key result.seen result.own }
        ensures shares { result.shares ≡ turn.hold.pass.shares }
        ensures start { result.start ≡ turn.hold.pass.start }
        ensures origin { result.origin ≡ turn.hold.pass.origin }
    {
        let Turn { state, hold } = turn;
        let Hold { mut seat } = hold;
        self.open_gate(&mut seat, state);
        Pass { seat }
    }

    // Brings the state home, raises the length of the history and opens the gate.
    fn open_gate(&self, seat: &mut LockSeat<S>, state: S)
        requires lock { seat.old.table_id ≡ self.now }
        requires hold { (seat.old.me.1 ≡ (0, None) ∷ []) × IsSome seat.old.me.0.held }
        requires grown { IsPrefix (unwrap_or seat.old.me.0.held []) (S.history state) }
        requires origin { seat.old.me.0.origin ≡ Some (S.origin state) }
        requires keys { AddsOwnKeys S.key (unwrap_or seat.old.me.0.held []) seat.old.me.0.own (S.history state) }
        ensures same { (seat.new.table_id ≡ seat.old.table_id) × (seat.new.id ≡ seat.old.id) }
        ensures view { seat.new.me ≡ (released (raised seat.old.me.0 (unwrap_or seat.old.me.0.held []) (S.history state)), []) }
        ensures added { AreAdded seat.new.me.0.start seat.new.me.0.seen seat.new.me.0.own }
        ensures keys { OwnsKeys S.key seat.new.me.0.seen seat.new.me.0.own }
    {
        let shared = &self.table.shared;
        let length = state.len();
        let left = shared.exchange(seat, STATE, Some(state));
        let None = left else { unreachable!() };
        shared.store::<Raise>(seat, LENGTH, length);
        shared.store::<Release>(seat, GATE, OPEN);
    }

    /// Cuts the pass in two. The second has `shares` of the shares, has seen the same and owns nothing.
    pub fn split_pass(&self, pass: Pass<S>, shares: u32) -> (Pass<S>, Pass<S>)
        requires lock { pass.lock ≡ self.now }
        requires shares { (0 < shares) × (shares < pass.shares) }
        ensures first { result.0 ≡ with_shares pass (pass.shares - shares) }
        ensures second { result.1 ≡ split_off pass shares }
    {
        let Pass { mut seat } = pass;
        let shared = &self.table.shared;
        // A split is a function of the view alone, so the number goes into the view first. No word changes.
        let planned = u64::from(shares);
        shared.compare_exchange::<Plan>(&mut seat, GATE, planned, planned);
        let other = shared.split_seat::<Part>(&mut seat);
        (Pass { seat }, Pass { seat: other })
    }

    /// Makes one pass of two. It has seen the longer list, with which both begin, and has the places and the shares of both. No place was owned by both, and no entry of the one has the key of an entry of the other. Both knew how the lock was made.
    pub fn join_pass(&self, pass: Pass<S>, other: Pass<S>) -> Pass<S>
        requires lock { (pass.lock ≡ self.now) × (other.lock ≡ self.now) }
        ensures lock { result.lock ≡ self.now }
        ensures seen { result.seen ≡ longer pass.seen other.seen }
        ensures begins { IsPrefix pass.seen result.seen × IsPrefix other.seen result.seen }
        ensures own { result.own ≡ pass.own ++ other.own }
        ensures added { AreAdded result.start result.seen result.own }
        ensures keys { OwnsKeys S.key result.seen result.own }
        ensures apart { AreApart pass.own other.own }
        ensures keys_apart { AreKeysApart S.key result.seen pass.own other.own }
        ensures shares { result.shares ≡ pass.shares + other.shares }
        ensures start { (result.start ≡ pass.start) × (other.start ≡ pass.start) }
        ensures origin { (result.origin ≡ pass.origin) × (other.origin ≡ pass.origin) }
    {
        let Pass { seat: mut kept } = pass;
        let Pass { seat: mut spent } = other;
        let shared = &self.table.shared;
        // A join tells nothing: what the rule says of the two views, and then of the joined one, is learnt by loads.
        shared.load::<Look>(&mut kept, LENGTH);
        shared.load::<Look>(&mut spent, LENGTH);
        shared.join_seat::<Unite>(&mut kept, spent);
        shared.load::<Look>(&mut kept, LENGTH);
        Pass { seat: kept }
    }

    /// Takes the lock apart, with a pass that has all its shares, so that no other turn is under way. The history is that with which the lock was made, followed by entries at places that the pass owns.
    pub fn close(self, pass: Pass<S>) -> S
        requires lock { pass.lock ≡ self }
        requires whole { pass.shares ≡ 1024 }
        ensures seen { IsPrefix pass.seen (S.history result) }
        ensures origin { pass.origin ≡ Some (S.origin result) }
        ensures added { OwnsAdded pass.start (S.history result) pass.own }
        ensures keys { OwnsKeys S.key (S.history result) pass.own }
    {
        let TurnLock { table } = self;
        let Pass { seat } = pass;
        let mut closed = table.close_with(seat);
        let state = closed.take(STATE).unwrap();
        closed.free();
        state
    }
}
