// Two passes, one after the other.

ghost use Rattle.std.specs.Prelude.{◌≡◌, [], IfSome};
ghost use Rattle.turn_lock.specs.History.{OwnsAdded};

use crate::notes::{Note, Notes, leave_note};
use std::alloc::Global;
use std::snapshot::Snapshot;
use std::sync::Wait;
use turn_lock::{Pass, TurnLock};

/// Two passes of 512 shares each leave a note, and are joined, and the lock is closed. What comes back is the notes and what the joined pass knew: it owns the place of each note.
fn two_notes<R: Wait>(rt: &R, alloc: Global) -> Option<(Notes, Snapshot<Pass<Notes>>)>
    ensures { IfSome result (λ closed. OwnsAdded [] closed.0.notes.items closed.1.value.own) }
{
    let (lock, pass) = TurnLock::new(alloc, Notes::new(alloc, 7)).ok()?;
    let (left, right) = lock.split_pass(pass, 512);
    let (left, _) = leave_note(rt, &lock, left, 1, 10);
    let (right, _) = leave_note(rt, &lock, right, 2, 20);
    let joined = lock.join_pass(left, right);
    let known = Snapshot::of(&joined);
    Some((lock.close(joined), known))
}

#[test]
fn two_passes_own_the_places_of_their_notes(rt: HostRuntime) {
    let (closed, _known) = two_notes(&rt, rt.alloc()).expect(&rt, "memory");
    let numbers = [
        Note {
            key: 0,
            worker: 1,
            number: 10,
        },
        Note {
            key: 1,
            worker: 2,
            number: 20,
        },
    ];
    assert!(rt; closed.notes.as_slice() == numbers.as_slice());
    assert_eq!(rt; closed.name, 7);
}
