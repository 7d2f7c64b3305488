// One step of a breadth-first walk: what the rows of some numbers have and no mark yet.

ghost use Rattle.std.specs.Prelude.{◌≡◌, ◌<◌, ℕ, ◌||◌, ◌&&◌, not, length, IfOk};
ghost use Rattle.axiom_filter.specs.Tables.{has_number, is_marked, neighbours, AreBelow, AreRowsBelow};

use plain_types::{Mem, Numbers};
use std::alloc::Global;

/// Marks what the rows of those numbers have, and gives what had no mark, each number once.
pub(crate) fn spread(
    alloc: Global,
    from: &[u64],
    table: &[Numbers],
    marks: &mut [bool],
) -> Mem<Vec<u64>>
    requires from { AreBelow (length table.now) from.now }
    requires rows { AreRowsBelow (length marks.old) table.now }
    ensures marked { IfOk result (λ _. (n : ℕ) → is_marked marks.new n ≡ (is_marked marks.old n || has_number n (neighbours table.now from.now))) }
    ensures found { IfOk result (λ found. (n : ℕ) → has_number n found.items ≡ (is_marked marks.new n && not (is_marked marks.old n))) }
    ensures bound { IfOk result (λ found. AreBelow (length marks.old) found.items) }
{
    let mut found = Vec::new(alloc);
    for number in from {
        spread_row(table[*number as usize].as_slice(), marks, &mut found)?;
    }
    Ok(found)
}

/// Marks the numbers of a row, and adds those that had no mark.
fn spread_row(row: &[u64], marks: &mut [bool], found: &mut Vec<u64>) -> Mem<()>
    requires row { AreBelow (length marks.old) row.now }
    requires found { AreBelow (length marks.old) found.old.items }
    ensures marked { IfOk result (λ _. (n : ℕ) → is_marked marks.new n ≡ (is_marked marks.old n || has_number n row.now)) }
    ensures found { IfOk result (λ _. (n : ℕ) → has_number n found.new.items ≡ (has_number n found.old.items || (is_marked marks.new n && not (is_marked marks.old n)))) }
    ensures bound { IfOk result (λ _. AreBelow (length marks.old) found.new.items) }
{
    for number in row {
        let place = *number as usize;
        if !marks[place] {
            marks[place] = true;
            found.push(*number)?;
        }
    }
    Ok(())
}
