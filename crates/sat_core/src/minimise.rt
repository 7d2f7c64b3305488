// A learned clause made smaller: a literal is resolved away where the other literals of its reason stand in the
// clause too (Sörensson and Biere 2009, local minimisation).

ghost use Rattle.std.specs.Prelude.{◌≡◌, ◌+◌, ◌-◌, ◌<◌, ◌≤◌, false, ◌&&◌, length, slice_index_or, IfOk, IsTrue};
ghost use Rattle.plain_types.specs.declared.sequence.NameLit.{NameLit as Literal};
ghost use Rattle.plain_types.specs.Names.{has_name};
ghost use Rattle.sat_core.specs.Trail.{entry_at};
ghost use Rattle.sat_core.specs.State.{IsSound};
ghost use Rattle.sat_core.specs.Known.{known};
ghost use Rattle.sat_core.specs.Conflict.{AreWithin, IsResolving, IsReduced, is_left};

use crate::analysis::Conflict;
use crate::answer::Link;
use crate::clauses::Clauses;
use crate::marks::Marks;
use crate::trail::Trail;
use plain_types::{Mem, NameLit, opposite};

/// Whether the literal is marked and its place within a bound.
fn is_left(trail: &Trail, marks: &Marks, literal: NameLit, bound: usize) -> bool
    requires named { literal.name < length trail.now.slots.items }
    requires names { length marks.now.marked.items ≡ length trail.now.slots.items }
    ensures { result ≡ is_left trail.now.slots.items marks.now.marked.items bound literal }
{
    marks.marked[literal.name as usize] && trail.place(literal) <= bound
}

/// Lists the literals that are still marked, of those whose places are within a bound.
pub fn list_marked(list: &mut Vec<NameLit>, trail: &Trail, marks: &Marks, bound: usize) -> Mem<()>
    requires within { AreWithin (length trail.now.slots.items) marks.now.literals.items }
    requires names { length marks.now.marked.items ≡ length trail.now.slots.items }
    ensures { IfOk result (λ _. (l : Literal) → has_name l list.new.items
        ≡ (has_name l marks.now.literals.items && is_left trail.now.slots.items marks.now.marked.items bound l)) }
{
    list.clear();
    for literal in &marks.literals {
        if is_left(trail, marks, *literal, bound) {
            list.push(*literal)?;
        }
    }
    Ok(())
}

/// Lists the trail's indices of the literals whose places are below a bound, the latest last.
fn list_below(
    indices: &mut Vec<usize>,
    trail: &Trail,
    literals: &[NameLit],
    bound: usize,
) -> Mem<()>
    requires { AreWithin (length trail.now.slots.items) literals.now }
{
    indices.clear();
    for literal in literals {
        let place = trail.place(*literal);
        if 0 < place && place < bound {
            indices.push(place - 1)?;
        }
    }
    indices.sort_unstable();
    Ok(())
}

impl Conflict {
    /// Resolves literals below a bound away that others imply, from the latest on the trail to the earliest: so a
    /// reason's other literals have not been resolved away before.
    pub fn minimise(
        &mut self,
        indices: &mut Vec<usize>,
        marks: &mut Marks,
        clauses: &Clauses<'_>,
        trail: &Trail,
        bound: usize,
    ) -> Mem<()>
        requires sound { IsSound (known clauses.now) trail.now.entries.items trail.now.slots.items }
        requires some { 0 < bound }
        requires bound { bound ≤ length trail.now.entries.items }
        requires resolving { IsResolving (known clauses.now) trail.now.slots.items self.old.start self.old.links.items
            marks.old.marked.items marks.old.literals.items bound }
        requires last { IsTrue (slice_index_or marks.old.marked.items (entry_at trail.now.entries.items (bound - 1)).literal.name false) }
        ensures start { IfOk result (λ _. self.new.start ≡ self.old.start) }
        ensures literals { IfOk result (λ _. marks.new.literals.items ≡ marks.old.literals.items) }
        ensures reduced { IfOk result (λ _. IsReduced (known clauses.now) trail.now.entries.items trail.now.slots.items self.new.start self.new.links.items
            marks.new.marked.items marks.new.literals.items bound) }
    {
        list_below(indices, trail, marks.literals.as_slice(), bound)?;
        for index in indices.iter().rev() {
            if *index < bound - 1 {
                self.resolve_implied(marks, clauses, trail, *index, bound)?;
            }
        }
        Ok(())
    }

    /// Resolves the marked literal away that an entry makes false, where its reason's other literals are marked.
    fn resolve_implied(
        &mut self,
        marks: &mut Marks,
        clauses: &Clauses<'_>,
        trail: &Trail,
        index: usize,
        bound: usize,
    ) -> Mem<()>
        requires sound { IsSound (known clauses.now) trail.now.entries.items trail.now.slots.items }
        requires index { index + 1 < bound }
        requires bound { bound ≤ length trail.now.entries.items }
        requires reduced { IsReduced (known clauses.now) trail.now.entries.items trail.now.slots.items self.old.start self.old.links.items
            marks.old.marked.items marks.old.literals.items bound }
        ensures start { IfOk result (λ _. self.new.start ≡ self.old.start) }
        ensures literals { IfOk result (λ _. marks.new.literals.items ≡ marks.old.literals.items) }
        ensures reduced { IfOk result (λ _. IsReduced (known clauses.now) trail.now.entries.items trail.now.slots.items self.new.start self.new.links.items
            marks.new.marked.items marks.new.literals.items bound) }
    {
        let entry = trail.entries[index];
        let Some(reason) = entry.reason else {
            return Ok(());
        };
        if marks.is_marked(entry.literal)
            && marks.have_others(clauses.literals(reason), entry.literal)
        {
            let pivot = opposite(entry.literal);
            let number = reason as u64;
            self.links.push(Link { pivot, number })?;
            marks.unmark(entry.literal);
        }
        Ok(())
    }
}
