// The batches of two jobs that are out together, and what is answered where they come back.

ghost use Rattle.std.specs.Prelude.{◌≡◌};
ghost use Rattle.term_bank.specs.Bank.{identity};
ghost use Rattle.pool_history.specs.Inputs.{IsRightBatch};

use crate::inputs::pool_of;
use crate::jobs::{answer, next_batch, next_batch_beside, take_beside};
use pool_core::{Back, Batch, Pool};
use std::alloc::Global;
use std::process::Abort;
use std::sync::Wait;
use term_bank::Bank;

/// What the later one of two returns is answered.
#[derive(Clone, Copy)]
enum Wanted {
    Taken,
    /// The clause of that number has died, by which the given one would go.
    Stale(u32),
    /// The given clause has died in the event of that place.
    Void(u64),
}

/// A text, whether one clause of it is claimed before two jobs, which of these comes back first, and what the other one is answered.
struct Row {
    text: &'static [u8],
    is_one_before: bool,
    is_later_first: bool,
    wanted: Wanted,
}

const ROWS: &[Row] = &[
    // The second clause is rewritten by the first, whose job is out, and which wasn't told of the second.
    Row {
        text: b"cnf(a,axiom,f(a) = b). cnf(b,axiom,f(a) = c).",
        is_one_before: false,
        is_later_first: true,
        wanted: Wanted::Taken,
    },
    // The first clause goes by the second, which was claimed before, while the job of the third is out, which would have gone by it.
    Row {
        text: b"cnf(a,axiom,f(a) = b). cnf(b,axiom,b = a). cnf(c,axiom,f(a) = c).",
        is_one_before: true,
        is_later_first: false,
        wanted: Wanted::Stale(0),
    },
    // The second clause subsumes the first, whose job is out.
    Row {
        text: b"cnf(a,axiom,p(a)). cnf(b,axiom,p(X)).",
        is_one_before: false,
        is_later_first: true,
        wanted: Wanted::Void(2),
    },
];

/// Claims a clause, whose job isn't done, where one is to be claimed.
fn claim_before(rt: &impl Abort, alloc: Global, pool: &mut Pool, is_one: bool)
    ensures { pool.new.bank ≡ pool.old.bank }
{
    if is_one {
        let _ = pool.claim(alloc, 0).expect(rt, "memory");
    }
}

/// The answer to the last one of two batches, where the first one is taken.
fn last_answer<R: Wait + Abort>(
    rt: &R,
    alloc: Global,
    bank: &Bank,
    pool: &mut Pool,
    first: Batch,
    last: Batch,
) -> Back
    requires bank { pool.old.bank ≡ identity bank.now }
    requires first { IsRightBatch pool.old.origin pool.old.history first }
    requires last { IsRightBatch pool.old.origin pool.old.history last }
{
    take_beside(rt, alloc, bank, pool, first, &last);
    answer(rt, alloc, bank, pool, last)
}

/// The answer to the last one of the batches of two jobs, which are out together.
fn answer_of_two<R: Wait + Abort>(
    rt: &R,
    alloc: Global,
    bank: &Bank,
    pool: &mut Pool,
    is_later_first: bool,
) -> Back
    requires { pool.old.bank ≡ identity bank.now }
{
    let earlier = next_batch(rt, alloc, bank, pool);
    let later = next_batch_beside(rt, alloc, bank, pool, &earlier);
    if is_later_first {
        last_answer(rt, alloc, bank, pool, later, earlier)
    } else {
        last_answer(rt, alloc, bank, pool, earlier, later)
    }
}

/// Whether this is the answer.
fn is_as_wanted(back: &Back, wanted: Wanted) -> bool {
    match back {
        Back::Taken => matches!(wanted, Wanted::Taken),
        Back::Stale { justifier, .. } =>
            matches!(wanted, Wanted::Stale(number) if number == *justifier),
        Back::Void(event) => matches!(wanted, Wanted::Void(place) if place == *event),
    }
}

/// Whether the last batch of a row is answered as it says.
fn is_answered<R: Wait + Abort>(rt: &R, alloc: Global, row: &Row) -> bool {
    let (bank, table) = Bank::new(alloc).expect(rt, "memory");
    let mut pool = pool_of(rt, alloc, &bank, table, row.text);
    claim_before(rt, alloc, &mut pool, row.is_one_before);
    let back = answer_of_two(rt, alloc, &bank, &mut pool, row.is_later_first);
    let is_right = is_as_wanted(&back, row.wanted);
    // A value that is moved into a call costs the proof less than one that goes by itself.
    drop(back);
    drop(pool);
    drop(bank);
    is_right
}

#[test]
fn batches_are_answered(rt: HostRuntime) {
    let alloc = rt.alloc();
    for (index, row) in ROWS.iter().enumerate() {
        assert!(rt; is_answered(&rt, alloc, row), "row {index}");
    }
}
