// Marks at the places of a list.

ghost use Rattle.std.specs.Prelude.{◌≡◌, ◌<◌, ◌||◌, ◌==◌, ℕ, false, length, IfOk};
ghost use Rattle.kernel_steps.specs.Marks.{is_marked};

use plain_types::Mem;
use std::alloc::Global;

/// So many places, none of them marked.
pub(crate) fn unmarked(alloc: Global, count: usize) -> Mem<Vec<bool>>
    ensures room { IfOk result (λ marks. length marks.items ≡ count) }
    ensures none { IfOk result (λ marks. (n : ℕ) → n < count → is_marked marks.items n ≡ false) }
{
    let mut marks = Vec::new(alloc);
    marks.resize(count, false)?;
    Ok(marks)
}

/// Sets the mark of a place, where there is one.
pub(crate) fn mark(marks: &mut Vec<bool>, place: u64)
    ensures room { length marks.new.items ≡ length marks.old.items }
    ensures marks { (n : ℕ) → n < length marks.old.items → is_marked marks.new.items n ≡ (is_marked marks.old.items n || place == n) }
{
    if let Some(mark) = marks.get_mut(place as usize) {
        *mark = true;
    }
}
