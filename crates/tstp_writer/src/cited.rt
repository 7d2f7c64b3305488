// The formulas of the problem on which the lines of a derivation stand.

ghost use Rattle.std.specs.Prelude.{◌≡◌, ◌<◌, ◌||◌, ℕ, length, filter, IfOk};
ghost use Rattle.std.specs.List.{list_any};
ghost use Rattle.tstp_writer.specs.LineTrees.{cited_places, comes_from, is_conjecture_at, lines_at};
ghost use Rattle.tstp_writer.specs.Marks.{comes_at};
ghost use Rattle.kernel_steps.specs.Marks.{is_marked};
ghost use Rattle.tstp_writer.specs.Scripts.{script_in};

use crate::marks::{mark, unmarked};
use crate::script::Script;
use kernel_steps::{Line, Step, marked};
use plain_types::{Mem, Numbers};
use std::alloc::Global;

/// The places of the formulas from which a clause of the lines with these numbers comes, in order.
pub(crate) fn cited_places(
    alloc: Global,
    script: Script<'_>,
    lines: &[Line],
    numbers: &[u64],
) -> Mem<Numbers>
    ensures { IfOk result (λ places. places ≡ cited_places (script_in script.entry) (lines_at lines.now numbers.now)) }
{
    let mut marks = unmarked(alloc, script.formulas.len())?;
    mark_origins(&mut marks, script, lines, numbers);
    marked(alloc, marks.as_slice())
}

/// Those of these places at which the conjecture stands.
pub(crate) fn conjecture_places(alloc: Global, script: Script<'_>, places: &[u64]) -> Mem<Numbers>
    ensures { IfOk result (λ conjectures. conjectures ≡ filter (is_conjecture_at (script_in script.entry)) places.now) }
{
    let mut conjectures = Numbers::new(alloc);
    for place in places {
        if script.is_conjecture(*place) {
            conjectures.push(*place)?;
        }
    }
    Ok(conjectures)
}

/// Marks the places of the formulas from which a clause of the lines with these numbers comes.
fn mark_origins(marks: &mut Vec<bool>, script: Script<'_>, lines: &[Line], numbers: &[u64])
    ensures room { length marks.new.items ≡ length marks.old.items }
    ensures marks { (n : ℕ) → n < length marks.old.items → is_marked marks.new.items n
        ≡ (is_marked marks.old.items n || list_any (comes_at (script_in script.entry) lines.now n) numbers.now) }
{
    for number in numbers {
        mark_origin_at(marks, script, lines, *number);
    }
}

/// Marks the place of the formula from which the line with that number comes, where it is a clause of the form.
fn mark_origin_at(marks: &mut Vec<bool>, script: Script<'_>, lines: &[Line], number: u64)
    ensures room { length marks.new.items ≡ length marks.old.items }
    ensures marks { (n : ℕ) → n < length marks.old.items → is_marked marks.new.items n
        ≡ (is_marked marks.old.items n || comes_at (script_in script.entry) lines.now n number) }
{
    if let Some(line) = lines.get(number as usize) {
        mark_origin(marks, script, &line.step);
    }
}

/// Marks the place of the formula from which a step takes a clause.
fn mark_origin(marks: &mut Vec<bool>, script: Script<'_>, step: &Step)
    ensures room { length marks.new.items ≡ length marks.old.items }
    ensures marks { (n : ℕ) → n < length marks.old.items → is_marked marks.new.items n
        ≡ (is_marked marks.old.items n || comes_from (script_in script.entry) n step.now) }
{
    match step {
        Step::Clausify(index) => mark(marks, script.origin(*index)),
        _ => {}
    }
}
