// Classes of cells that must have one value.

ghost use Rattle.std.specs.Prelude.{◌≡◌, ℕ, ◌≤◌, ◌<◌, true, false, length, IfOk, MatchBool};

use crate::cells::{Cell, Relation};
use plain_types::Mem;
use std::alloc::Global;

/// The classes, as trees of parents, and for each a cell that tells most of it.
#[derive(Drop)]
pub struct Classes {
    pub parents: Vec<usize>,
    pub schemas: Vec<usize>,
}

/// The result of a step.
#[derive(Clone, Copy)]
pub enum Step {
    /// Two classes were joined.
    Joined,
    /// Nothing was to do.
    Unchanged,
    /// Two cells of one class can't have one value.
    Refuted,
}

impl Classes {
    ghost use Rattle.unifier.specs.Cells.{AreOrdered, Value};
    ghost use Rattle.unifier.specs.Classes.{
      parent,
      schema,
      total,
      AreClasses,
      AreClosed,
      AreSettled,
      CannotFollow,
      Follows,
      HasFound,
      IsConstantOn,
      IsDiscrete,
      IsFlat,
      IsFlattened,
      IsLinked,
      IsRefuted,
      RoundDone,
      StepDone,
    };

    /// Each cell in a class of its own.
    pub fn new(alloc: Global, count: usize) -> Mem<Classes>
        ensures classes { IfOk result (AreClasses count) }
        ensures discrete { IfOk result (IsDiscrete count) }
    {
        let mut parents = Vec::with_capacity(alloc, count)?;
        let mut schemas = Vec::with_capacity(alloc, count)?;
        for cell in 0..count {
            parents.push(cell)?;
            schemas.push(cell)?;
        }
        Ok(Classes { parents, schemas })
    }

    /// The smallest cell of a class.
    pub fn find(&self, cell: usize) -> usize
        requires classes { AreClasses (length self.now.parents.items) self.now }
        requires inside { cell < length self.now.parents.items }
        ensures { HasFound self.now cell result }
    {
        let mut at = cell;
        while self.parents[at] != at {
            at = self.parents[at];
        }
        at
    }

    /// Joins the classes of two cells, and says whether they were two.
    pub fn join(&mut self, cells: &[Cell], first: usize, second: usize) -> bool
        requires classes { AreClasses (length cells.now) self.old }
        requires first { first < length cells.now }
        requires second { second < length cells.now }
        ensures classes { AreClasses (length cells.now) self.new }
        ensures sound { (f : ℕ → Value)
            → IsConstantOn (length cells.now) self.old f → f first ≡ f second → IsConstantOn (length cells.now) self.new f }
        ensures joined { MatchBool result
            (total self.new.parents.items < total self.old.parents.items)
            ((self.new ≡ self.old) × (IsFlat (length cells.now) self.old → parent self.old first ≡ parent self.old second)) }
    {
        let first_root = self.find(first);
        let second_root = self.find(second);
        if first_root == second_root {
            return false;
        }
        if first_root < second_root {
            self.link(cells, first_root, second_root);
        } else {
            self.link(cells, second_root, first_root);
        }
        true
    }

    /// Puts a class below a smaller one.
    pub(crate) fn link(&mut self, cells: &[Cell], low: usize, high: usize)
        requires classes { AreClasses (length cells.now) self.old }
        requires order { low < high }
        requires inside { high < length cells.now }
        requires smallest { parent self.old high ≡ high }
        ensures { IsLinked (length cells.now) self.old self.new low high }
    {
        let schema = self.schemas[low];
        if cells[schema].is_variable() {
            self.schemas[low] = self.schemas[high];
        }
        self.parents[high] = low;
    }

    /// Joins the parts of a cell with those of its class's schema.
    fn step(&mut self, cells: &[Cell], cell: usize) -> Step
        requires classes { AreClasses (length cells.now) self.old }
        requires parts { AreOrdered cells.now }
        requires inside { cell < length cells.now }
        ensures follows { Follows cells.now self.old self.new }
        ensures done { StepDone cells.now self.old self.new cell result }
    {
        let schema = self.schemas[self.find(cell)];
        match cells[cell].relation(cells[schema]) {
            Relation::Same => Step::Unchanged,
            Relation::Clash => Step::Refuted,
            Relation::Parts(first, other_first, rest, other_rest) => {
                let joined = self.join(cells, first, other_first);
                if self.join(cells, rest, other_rest) || joined {
                    Step::Joined
                } else {
                    Step::Unchanged
                }
            }
        }
    }

    /// A step for each cell, the last cell first.
    fn round(&mut self, cells: &[Cell]) -> Step
        requires classes { AreClasses (length cells.now) self.old }
        requires parts { AreOrdered cells.now }
        ensures follows { Follows cells.now self.old self.new }
        ensures done { RoundDone cells.now self.old self.new result }
    {
        let mut joined = false;
        for cell in (0..cells.len()).rev() {
            match self.step(cells, cell) {
                Step::Joined => joined = true,
                Step::Unchanged => {}
                Step::Refuted => return Step::Refuted,
            }
        }
        if joined {
            Step::Joined
        } else {
            Step::Unchanged
        }
    }

    /// Joins the classes of two cells, and whatever must be joined then. False where two cells of one class
    /// can't have one value. A round that changes nothing shows that all is joined; it is the first one.
    pub fn close(&mut self, alloc: Global, cells: &[Cell], first: usize, second: usize) -> Mem<bool>
        requires classes { AreClasses (length cells.now) self.old }
        requires parts { AreOrdered cells.now }
        requires first { first < length cells.now }
        requires second { second < length cells.now }
        ensures { IfOk result (λ closed. MatchBool closed
            (AreClosed cells.now first second self.old self.new)
            (CannotFollow cells.now first second self.old)) }
    {
        if !self.join_with_parts(alloc, cells, first, second)? {
            return Ok(false);
        }
        loop {
            self.settle(cells);
            let joined = self.join(cells, first, second);
            match self.round(cells) {
                Step::Joined => {}
                Step::Unchanged => {
                    if !joined {
                        return Ok(true);
                    }
                }
                Step::Refuted => return Ok(false),
            }
        }
    }

    /// Makes each class flat, and takes a cell that is no variable as its schema where it has one.
    fn settle(&mut self, cells: &[Cell])
        requires { AreClasses (length cells.now) self.old }
        ensures follows { Follows cells.now self.old self.new }
        ensures settled { AreSettled cells.now self.new }
    {
        self.flatten();
        self.choose_schemas(cells);
    }

    /// Makes each cell's parent its class's smallest cell.
    fn flatten(&mut self)
        requires { AreClasses (length self.old.parents.items) self.old }
        ensures { IsFlattened (length self.old.parents.items) self.old self.new }
    {
        for cell in 0..self.parents.len() {
            let parent = self.parents[cell];
            self.parents[cell] = self.parents[parent];
        }
    }

    /// Takes a cell that is no variable as the schema of each class that has one.
    fn choose_schemas(&mut self, cells: &[Cell])
        requires classes { AreClasses (length cells.now) self.old }
        requires flat { IsFlat (length cells.now) self.old }
        ensures same { self.new.parents.items ≡ self.old.parents.items }
        ensures classes { AreClasses (length cells.now) self.new }
        ensures settled { AreSettled cells.now self.new }
    {
        for cell in 0..cells.len() {
            self.schemas[cell] = cell;
            if !cells[cell].is_variable() {
                let parent = self.parents[cell];
                self.schemas[parent] = cell;
            }
        }
    }
}
