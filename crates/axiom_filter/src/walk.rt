// The walk over the levels, by a queue of what is new.

ghost use Rattle.std.specs.Prelude.{◌≡◌, ◌<◌, ℕ, false, length, IfOk};
ghost use Rattle.axiom_filter.specs.Tables.{has_number, is_marked, AreBelow, AreRowsBelow};
ghost use Rattle.axiom_filter.specs.Walk.{taken_numbers};

use crate::spread::spread;
use plain_types::{Mem, Numbers};
use std::alloc::Global;

/// Which formulas are taken up to that level. `rows` has the symbols of each formula, `triggers` the formulas that each symbol triggers.
///
/// A symbol is in the queue at the level at which it is reached first, and a formula is looked at when it is taken. So each row of the two tables is
/// read at most once, those of the goals twice.
pub(crate) fn walk(
    alloc: Global,
    rows: &[Numbers],
    triggers: &[Numbers],
    goals: &[u64],
    depth: u32,
) -> Mem<Vec<bool>>
    requires goals { AreBelow (length rows.now) goals.now }
    requires rows { AreRowsBelow (length triggers.now) rows.now }
    requires triggers { AreRowsBelow (length rows.now) triggers.now }
    ensures taken { IfOk result (λ taken. (n : ℕ) → is_marked taken.items n ≡ has_number n (taken_numbers rows.now triggers.now goals.now depth)) }
    ensures count { IfOk result (λ taken. length taken.items ≡ length rows.now) }
{
    let mut taken = unmarked(alloc, rows.len())?;
    let mut reached = unmarked(alloc, triggers.len())?;
    let mut frontier = spread(alloc, goals, rows, reached.as_mut_slice())?;
    for _level in 0..depth {
        let found = spread(alloc, frontier.as_slice(), triggers, taken.as_mut_slice())?;
        frontier = spread(alloc, found.as_slice(), rows, reached.as_mut_slice())?;
    }
    Ok(taken)
}

/// That many places without a mark.
fn unmarked(alloc: Global, count: usize) -> Mem<Vec<bool>>
    ensures count { IfOk result (λ marks. length marks.items ≡ count) }
    ensures none { IfOk result (λ marks. (n : ℕ) → is_marked marks.items n ≡ false) }
{
    let mut marks = Vec::with_capacity(alloc, count)?;
    marks.resize(count, false)?;
    Ok(marks)
}
