// Marks at the places of a list, as a pass over the lines of a derivation keeps them: a line is looked at where it is marked.

ghost use Rattle.std.specs.Prelude.{◌≡◌, ◌+◌, ◌<◌, ◌==◌, ℕ, length, IfOk};
ghost use Rattle.kernel_steps.specs.Marks.{is_marked, marked_numbers};

use plain_types::{Mem, Numbers};
use std::alloc::Global;

/// Marks for the places up to the last, which alone is marked. A byte is taken for each place.
pub fn last_marked(alloc: Global, last: usize) -> Mem<Vec<bool>>
    ensures room { IfOk result (λ marks. length marks.items ≡ last + 1) }
    ensures only { IfOk result (λ marks. (n : ℕ) → n < last + 1 → is_marked marks.items n ≡ (last == n)) }
{
    let mut marks = Vec::with_capacity(alloc, last.saturating_add(1))?;
    marks.resize(last, false)?;
    marks.push(true)?;
    Ok(marks)
}

/// The numbers of the places that are marked, rising.
pub fn marked(alloc: Global, marks: &[bool]) -> Mem<Numbers>
    ensures { IfOk result (λ numbers. numbers ≡ marked_numbers 0 marks.now) }
{
    let mut numbers = Numbers::new(alloc);
    for number in 0..marks.len() {
        if marks[number] {
            numbers.push(number as u64)?;
        }
    }
    Ok(numbers)
}
