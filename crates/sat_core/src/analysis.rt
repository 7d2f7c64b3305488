// The analysis of a conflict: from a false clause, the trail is walked backwards and each marked literal is
// resolved away with the reason of its opposite, until one decision can be turned by what is left.

ghost use Rattle.std.specs.Prelude.{◌≡◌, ℕ, ◌-◌, ◌<◌, ◌≤◌, length, None, IfOk, IfSome, IfNone, IsSome, IsTrue};
ghost use Rattle.plain_types.specs.declared.sequence.NameLit.{NameLit as Literal};
ghost use Rattle.plain_types.specs.Names.{has_name};
ghost use Rattle.sat_core.specs.Trail.{IsTrail, entry_at, place_of};
ghost use Rattle.sat_core.specs.State.{IsSound, AreMarks, AreCovered, AreFalse, clause_at};
ghost use Rattle.sat_core.specs.Known.{known};
ghost use Rattle.sat_core.specs.Conflict.{AddsOthers, OthersAreFalse, AreWithin, IsAnalysis, IsResolving, TurnsAt, IsTurnOf};

use crate::answer::Link;
use crate::clauses::Clauses;
use crate::literals::is_other;
use crate::marks::Marks;
use crate::minimise::list_marked;
use crate::trail::{Assigned, Trail};
use plain_types::{Mem, NameLit, opposite};
use std::alloc::Global;

/// A decision that is to be turned.
#[derive(Clone, Copy)]
pub struct Turn {
    /// The literal that is implied once the decision and what follows it is taken back.
    pub literal: NameLit,
    /// The decision's index on the trail.
    pub cut: usize,
}

/// A false clause, the resolutions so far, and the clause that they come to. Its room serves all conflicts. `level`
/// and `lowest` are hints, on which no answer rests.
#[derive(Drop)]
pub struct Conflict {
    pub start: usize,
    pub links: Vec<Link>,
    /// The clause that is learned.
    pub clause: Vec<NameLit>,
    /// The index of the last decision before the conflict.
    pub level: usize,
    /// The least place above it of a marked literal.
    pub lowest: usize,
}

/// Marks the literals of a clause but for the one that it implies.
fn mark_others(
    marks: &mut Marks,
    trail: &Trail,
    literals: &[NameLit],
    implied: Option<NameLit>,
) -> Mem<()>
    requires marks { AreMarks marks.old.marked.items marks.old.literals.items }
    requires names { length marks.old.marked.items ≡ length trail.now.slots.items }
    requires within { AreWithin (length trail.now.slots.items) literals.now }
    requires marked_false { AreFalse trail.now.slots.items marks.old.literals.items }
    requires others_false { OthersAreFalse trail.now.slots.items literals.now implied }
    ensures marks { IfOk result (λ _. AreMarks marks.new.marked.items marks.new.literals.items) }
    ensures names { IfOk result (λ _. length marks.new.marked.items ≡ length marks.old.marked.items) }
    ensures adds { IfOk result (λ _. AddsOthers literals.now implied marks.old.literals.items marks.new.literals.items) }
{
    for literal in literals {
        if is_other(implied, *literal) {
            marks.mark(*literal)?;
        }
    }
    Ok(())
}

/// The highest place below a bound of one of the literals, or 0.
fn highest_place(trail: &Trail, literals: &[NameLit], bound: usize) -> usize
    requires within { AreWithin (length trail.now.slots.items) literals.now }
    requires some { 0 < bound }
    ensures below { result < bound }
    ensures highest { (l : Literal) → IsTrue (has_name l literals.now) → place_of trail.now.slots.items l < bound
        → place_of trail.now.slots.items l ≤ result }
{
    let mut highest = 0;
    for literal in literals {
        let place = trail.place(*literal);
        if highest < place && place < bound {
            highest = place;
        }
    }
    highest
}

/// The first decision from an index on, below a bound.
fn decision_from(trail: &Trail, low: usize, bound: usize) -> Option<usize>
    requires { bound ≤ length trail.now.entries.items }
    ensures some { IfSome result (λ i. (low ≤ i) × (i < bound) × ((entry_at trail.now.entries.items i).reason ≡ None)) }
    ensures none { IfNone result ((i : ℕ) → low ≤ i → i < bound → IsSome (entry_at trail.now.entries.items i).reason) }
{
    for index in low..bound {
        if trail.entries[index].reason.is_none() {
            return Some(index);
        }
    }
    None
}

/// The last decision below a bound, or the greatest number where there is none.
fn last_decision(trail: &Trail, bound: usize) -> usize
    requires { bound ≤ length trail.now.entries.items }
{
    for index in (0..bound).rev() {
        if trail.entries[index].reason.is_none() {
            return index;
        }
    }
    usize::MAX
}

impl Conflict {
    /// No conflict.
    pub fn new(alloc: Global) -> Conflict {
        Conflict {
            start: 0,
            links: Vec::new(alloc),
            clause: Vec::new(alloc),
            level: 0,
            lowest: 0,
        }
    }

    /// Begins with a false clause, and marks its literals.
    fn begin(
        &mut self,
        clauses: &Clauses<'_>,
        trail: &Trail,
        marks: &mut Marks,
        start: usize,
    ) -> Mem<()>
        requires sound { IsSound (known clauses.now) trail.now.entries.items trail.now.slots.items }
        requires marks { AreCovered marks.old.marked.items marks.old.literals.items }
        requires names { length marks.old.marked.items ≡ length trail.now.slots.items }
        requires start { start < length (known clauses.now) }
        requires false_clause { AreFalse trail.now.slots.items (clause_at (known clauses.now) start) }
        ensures start { IfOk result (λ _. self.new.start ≡ start) }
        ensures resolving { IfOk result (λ _. IsResolving (known clauses.now) trail.now.slots.items start self.new.links.items
            marks.new.marked.items marks.new.literals.items (length trail.now.entries.items)) }
    {
        marks.clear();
        let literals = clauses.literals(start);
        mark_others(marks, trail, literals, None)?;
        let top = highest_place(trail, literals, trail.entries.len() + 1);
        self.start = start;
        self.links.clear();
        self.level = last_decision(trail, top);
        self.lowest = usize::MAX;
        self.see(trail, literals);
        Ok(())
    }

    /// Sees the places of literals, for the hint.
    fn see(&mut self, trail: &Trail, literals: &[NameLit])
        requires { AreWithin (length trail.now.slots.items) literals.now }
        ensures start { self.new.start ≡ self.old.start }
        ensures links { self.new.links.items ≡ self.old.links.items }
    {
        for literal in literals {
            let place = trail.place(*literal);
            if self.level < place && place < self.lowest {
                self.lowest = place;
            }
        }
    }

    /// The decision that the marked literals below a bound turn, where the entry below the bound is the only one
    /// since that decision.
    fn turn_at(
        &self,
        trail: &Trail,
        literals: &[NameLit],
        entry: Assigned,
        bound: usize,
    ) -> Option<Turn>
        requires within { AreWithin (length trail.now.slots.items) literals.now }
        requires some { 0 < bound }
        requires bound { bound ≤ length trail.now.entries.items }
        requires entry { entry ≡ entry_at trail.now.entries.items (bound - 1) }
        ensures some { IfSome result (TurnsAt trail.now.entries.items trail.now.slots.items literals.now entry bound) }
        ensures none { IfNone result (IsSome entry.reason) }
    {
        if bound != self.lowest && entry.reason.is_some() {
            return None;
        }
        let low = highest_place(trail, literals, bound);
        let cut = decision_from(trail, low, bound)?;
        Some(Turn {
            literal: opposite(entry.literal),
            cut,
        })
    }

    /// Resolves the literal away that the entry below a bound makes false, unless a decision can be turned.
    fn step_back(
        &mut self,
        marks: &mut Marks,
        clauses: &Clauses<'_>,
        trail: &Trail,
        bound: usize,
    ) -> Mem<Option<Turn>>
        requires sound { IsSound (known clauses.now) trail.now.entries.items trail.now.slots.items }
        requires some { 0 < bound }
        requires bound { bound ≤ length trail.now.entries.items }
        requires resolving { IsResolving (known clauses.now) trail.now.slots.items self.old.start self.old.links.items
            marks.old.marked.items marks.old.literals.items bound }
        ensures start { IfOk result (λ _. self.new.start ≡ self.old.start) }
        ensures none { IfOk result (λ turn. IfNone turn (IsResolving (known clauses.now) trail.now.slots.items self.new.start self.new.links.items
            marks.new.marked.items marks.new.literals.items (bound - 1))) }
        ensures some { IfOk result (λ turn. IfSome turn (λ t. IsResolving (known clauses.now) trail.now.slots.items self.new.start self.new.links.items
            marks.new.marked.items marks.new.literals.items bound × IsTurnOf trail.now.entries.items trail.now.slots.items marks.new.literals.items bound t)) }
    {
        let entry = trail.entries[bound - 1];
        if !marks.marked[entry.literal.name as usize] {
            return Ok(None);
        }
        if let Some(turn) = self.turn_at(trail, marks.literals.as_slice(), entry, bound) {
            return Ok(Some(turn));
        }
        if let Some(reason) = entry.reason {
            let pivot = opposite(entry.literal);
            let number = reason as u64;
            self.links.push(Link { pivot, number })?;
            let literals = clauses.literals(reason);
            self.see(trail, literals);
            mark_others(marks, trail, literals, Some(entry.literal))?;
        }
        Ok(None)
    }
}

/// Resolves a false clause backwards along the trail, until a decision can be turned or nothing is left, and
/// makes the clause that turns a decision smaller. The clause is left in `conflict`; the decision that it turns is
/// answered, none where the clause is empty. `indices` is room.
pub fn analyse(
    conflict: &mut Conflict,
    indices: &mut Vec<usize>,
    clauses: &Clauses<'_>,
    trail: &Trail,
    marks: &mut Marks,
    start: usize,
) -> Mem<Option<Turn>>
    requires sound { IsSound (known clauses.now) trail.now.entries.items trail.now.slots.items }
    requires marks { AreCovered marks.old.marked.items marks.old.literals.items }
    requires names { length marks.old.marked.items ≡ length trail.now.slots.items }
    requires start { start < length (known clauses.now) }
    requires false_clause { AreFalse trail.now.slots.items (clause_at (known clauses.now) start) }
    ensures marks { IfOk result (λ _. AreCovered marks.new.marked.items marks.new.literals.items) }
    ensures names { IfOk result (λ _. length marks.new.marked.items ≡ length marks.old.marked.items) }
    ensures start { IfOk result (λ _. conflict.new.start ≡ start) }
    ensures analysis { IfOk result (IsAnalysis (known clauses.now) trail.now.entries.items trail.now.slots.items start
        conflict.new.links.items conflict.new.clause.items) }
{
    conflict.begin(clauses, trail, marks, start)?;
    let mut bound = trail.entries.len();
    while bound > 0 {
        if let Some(turn) = conflict.step_back(marks, clauses, trail, bound)? {
            conflict.minimise(indices, marks, clauses, trail, bound)?;
            list_marked(&mut conflict.clause, trail, marks, bound)?;
            return Ok(Some(turn));
        }
        bound -= 1;
    }
    conflict.clause.clear();
    Ok(None)
}
