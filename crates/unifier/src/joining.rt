// Joining classes: two cells, their parts, the parts of these, and so on.

ghost use Rattle.std.specs.Prelude.{◌≡◌, ◌<◌, true, length, IfOk, MatchBool};
ghost use Rattle.unifier.specs.Cells.{AreOrdered};
ghost use Rattle.unifier.specs.Classes.{AreClasses, AreTogether, CannotFollow, FollowsFrom};
ghost use Rattle.unifier.specs.Joining.{IsMerged, IsShortened};

use crate::cells::{Cell, Relation};
use crate::classes::Classes;
use plain_types::Mem;
use std::alloc::Global;

/// Room for the pairs that are due at once in terms of usual size.
const USUAL_PAIRS: usize = 16;

impl Classes {
    /// Joins the classes of two cells, and then those of parts that must have one value. False where two
    /// cells of one class can't have one.
    pub fn join_with_parts(
        &mut self,
        alloc: Global,
        cells: &[Cell],
        first: usize,
        second: usize,
    ) -> Mem<bool>
        requires classes { AreClasses (length cells.now) self.old }
        requires parts { AreOrdered cells.now }
        requires first { first < length cells.now }
        requires second { second < length cells.now }
        ensures follows { IfOk result (λ joined. MatchBool joined
            (FollowsFrom cells.now first second self.old self.new)
            (CannotFollow cells.now first second self.old)) }
        ensures together { IfOk result (λ joined. joined ≡ true → AreTogether (length cells.now) self.new first second) }
    {
        let mut due = Vec::with_capacity(alloc, USUAL_PAIRS)?;
        due.push((first, second))?;
        while let Some((one, other)) = due.pop() {
            match self.merge(cells, one, other) {
                Relation::Same => {}
                Relation::Clash => return Ok(false),
                Relation::Parts(left, right, left_rest, right_rest) => {
                    due.push((left, right))?;
                    due.push((left_rest, right_rest))?;
                }
            }
        }
        Ok(true)
    }

    /// Joins the classes of two cells, and says what their having one value takes.
    fn merge(&mut self, cells: &[Cell], first: usize, second: usize) -> Relation
        requires classes { AreClasses (length cells.now) self.old }
        requires parts { AreOrdered cells.now }
        requires first { first < length cells.now }
        requires second { second < length cells.now }
        ensures { IsMerged cells.now self.old self.new first second result }
    {
        let first_root = self.shorten(first);
        let second_root = self.shorten(second);
        if first_root == second_root {
            return Relation::Same;
        }
        let first_schema = self.schemas[first_root];
        let second_schema = self.schemas[second_root];
        if first_root < second_root {
            self.link(cells, first_root, second_root);
        } else {
            self.link(cells, second_root, first_root);
        }
        cells[first_schema].relation(cells[second_schema])
    }

    /// The smallest cell of a class. Each cell on the way there is put below its parent's parent, so that
    /// later ways are shorter (path halving; Tarjan and van Leeuwen 1984).
    fn shorten(&mut self, cell: usize) -> usize
        requires classes { AreClasses (length self.old.parents.items) self.old }
        requires inside { cell < length self.old.parents.items }
        ensures { IsShortened (length self.old.parents.items) self.old self.new cell result }
    {
        let mut at = cell;
        while self.parents[at] != at {
            let parent = self.parents[at];
            let above = self.parents[parent];
            self.parents[at] = above;
            at = above;
        }
        at
    }
}
