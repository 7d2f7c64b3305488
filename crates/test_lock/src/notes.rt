// Notes that workers leave in turns, each with its place as its key.

ghost use Rattle.std.specs.Prelude.{◌≡◌, ℕ, ◌++◌, [], ◌∷◌, length, slice_get, Some, MatchBool};
ghost use Rattle.std.specs.Bool.{OnTrue};
ghost use Rattle.test_lock.specs.declared.notes.Note.{Note};

use std::alloc::Global;
use std::sync::Wait;
use turn_lock::{Historied, Pass, Turn, TurnLock};

/// A note of a worker. Its place is its key.
#[derive(Clone, Copy, PartialEq, Drop)]
pub struct Note {
    pub key: u64,
    pub worker: u64,
    pub number: u64,
}

/// The notes of all workers, with a name that stays.
#[derive(Drop)]
pub struct Notes {
    pub name: u64,
    pub notes: Vec<Note>,
    ghost keyed: { (place : ℕ) (note : Note) → slice_get notes.items place ≡ Some note → note.key ≡ place },
}

impl Historied for Notes {
    type Entry = Note;

    type Origin = u64;

    ghost history = { λ n. n.notes.items };

    ghost origin = { λ n. n.name };

    ghost key = { λ n. n.key };

    fn len(&self) -> u64 {
        self.notes.len() as u64
    }
}

impl Notes {
    pub fn new(alloc: Global, name: u64) -> Notes
        ensures { (result.name ≡ name) × (result.notes.items ≡ []) }
    {
        Notes {
            name,
            notes: Vec::new(alloc),
        }
    }

    /// Says whether there was memory.
    fn add(&mut self, worker: u64, number: u64) -> bool
        ensures name { self.new.name ≡ self.old.name }
        ensures notes { MatchBool result (self.new.notes.items ≡ self.old.notes.items ++ record { key = length self.old.notes.items; worker = worker; number = number } ∷ []) (self.new.notes.items ≡ self.old.notes.items) }
    {
        let key = self.notes.len() as u64;
        self.notes
            .push(Note {
                key,
                worker,
                number,
            })
            .is_ok()
    }
}

/// Adds a note in a turn that changed nothing so far, ends it, and says whether there was memory.
fn end_with_note(
    lock: &TurnLock<Notes>,
    mut turn: Turn<Notes>,
    worker: u64,
    number: u64,
) -> (Pass<Notes>, bool)
    requires lock { turn.hold.pass.lock ≡ lock.now }
    requires history { turn.hold.history ≡ turn.state.notes.items }
    requires origin { turn.hold.pass.origin ≡ Some turn.state.name }
    ensures lock { result.0.lock ≡ lock.now }
    ensures shares { result.0.shares ≡ turn.hold.pass.shares }
    ensures start { result.0.start ≡ turn.hold.pass.start }
    ensures own { OnTrue result.1 (result.0.own ≡ turn.hold.pass.own ++ length turn.hold.history ∷ []) }
{
    let added = turn.state.add(worker, number);
    (lock.give(turn), added)
}

/// Takes a turn and adds a note, and says whether there was memory.
pub fn leave_note<R: Wait>(
    rt: &R,
    lock: &TurnLock<Notes>,
    pass: Pass<Notes>,
    worker: u64,
    number: u64,
) -> (Pass<Notes>, bool)
    requires { pass.lock ≡ lock.now }
    ensures lock { result.0.lock ≡ lock.now }
    ensures shares { result.0.shares ≡ pass.shares }
    ensures start { result.0.start ≡ pass.start }
    ensures own { OnTrue result.1 ((place : ℕ) × (result.0.own ≡ pass.own ++ place ∷ [])) }
{
    let turn = lock.take(rt, pass);
    end_with_note(lock, turn, worker, number)
}
