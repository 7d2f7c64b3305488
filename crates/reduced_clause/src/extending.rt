// A reduced clause goes on: by the lines of one more move.

ghost use Rattle.std.specs.Prelude.{◌≡◌, ◌+◌, ◌<◌, ◌≤◌, [], ◌∷◌, ◌++◌, IfOk, OnErr, option_to_list, vec_len, vec_capacity};
ghost use Rattle.reduced_clause.specs.Extending.{IsExtended, last_number, noted};
ghost use Rattle.reduced_clause.specs.Reduced.{with_number};

use crate::reduced::is_listed;
use kernel_steps::{CLAUSE_NUMBERS, Derivation, Line, Reduced};
use plain_types::{Mem, NoMemory, Numbers};
use std::alloc::Global;
use std::mem;

/// The number of the last line, by which the next line has the result so far as its parent. Where there is no line it is that of the
/// clause that was handed in. Where there are too many lines for such numbers, the answer is out of memory.
pub fn last_number(reduced: &Reduced) -> Mem<u64>
    ensures { IfOk result (λ number. number ≡ last_number reduced.now.lines) }
{
    match CLAUSE_NUMBERS.checked_add(reduced.lines.len() as u64) {
        Some(number) => Ok(number),
        None => Err(NoMemory),
    }
}

/// Adds a line, and before it another one, as a cut needs, if there is one. The line's clause becomes the result, and the unit that the
/// lines use is noted, if they use one. After an out-of-memory error nothing has changed.
pub fn extend(
    alloc: Global,
    reduced: &mut Reduced,
    before: Option<Line>,
    line: Line,
    unit: Option<u32>,
) -> Mem<()>
    ensures ok { IfOk result (λ _. IsExtended reduced.old unit (option_to_list before ++ line ∷ []) reduced.new) }
    ensures err { OnErr result (reduced.new ≡ reduced.old) }
{
    let clause = line.clause.copy(alloc)?;
    let mut lines = mem::replace(&mut reduced.lines, Derivation::new(alloc)).into_vec();
    let mut used = mem::replace(&mut reduced.used, Numbers::new(alloc)).into_vec();
    let pushed = push_all(&mut lines, &mut used, before, line, unit);
    reduced.lines = Derivation::from_vec(lines);
    reduced.used = Numbers::from_vec(used);
    pushed?;
    reduced.clause = clause;
    Ok(())
}

/// Adds lines, and notes a unit. After an out-of-memory error both lists are as before.
fn push_all(
    lines: &mut Vec<Line>,
    used: &mut Vec<u64>,
    before: Option<Line>,
    line: Line,
    unit: Option<u32>,
) -> Mem<()>
    ensures lines { IfOk result (λ _. lines.new.items ≡ lines.old.items ++ (option_to_list before ++ line ∷ [])) }
    ensures used { IfOk result (λ _. used.new.items ≡ noted unit used.old.items) }
    ensures same_lines { OnErr result (lines.new.items ≡ lines.old.items) }
    ensures same_used { OnErr result (used.new.items ≡ used.old.items) }
{
    lines.reserve(2)?;
    used.reserve(1)?;
    push_lines(lines, before, line);
    note(used, unit);
    Ok(())
}

/// Adds lines, for which there is room.
fn push_lines(lines: &mut Vec<Line>, before: Option<Line>, line: Line)
    requires { vec_len lines.old + 2 ≤ vec_capacity lines.old }
    ensures { lines.new.items ≡ lines.old.items ++ (option_to_list before ++ line ∷ []) }
{
    match before {
        None => lines.push_reserved(line),
        Some(first) => {
            lines.push_reserved(first);
            lines.push_reserved(line);
        }
    }
}

/// Notes a unit, for which there is room, unless it is there.
fn note(used: &mut Vec<u64>, unit: Option<u32>)
    requires { vec_len used.old < vec_capacity used.old }
    ensures { used.new.items ≡ noted unit used.old.items }
{
    match unit {
        None => (),
        Some(number) => note_number(used, u64::from(number)),
    }
}

/// Adds a number, for which there is room, unless it is there.
fn note_number(used: &mut Vec<u64>, number: u64)
    requires { vec_len used.old < vec_capacity used.old }
    ensures { used.new.items ≡ with_number number used.old.items }
{
    if !is_listed(used.as_slice(), number) {
        used.push_reserved(number);
    }
}
