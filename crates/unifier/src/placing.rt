// Putting the classes into an order in which parts come first.

ghost use Rattle.std.specs.Prelude.{◌≡◌, ℕ, ◌<◌, ◌≤◌, None, Some, true, length, IfOk, OnOk, MatchOption, slice_set};
ghost use Rattle.unifier.specs.Cells.{IsAfterParts};
ghost use Rattle.unifier.specs.Placing.{AddsParts};

use crate::cells::Cell;
use crate::classes::Classes;
use plain_types::Mem;
use std::alloc::Global;

/// One cell for each class that was placed, and the places of the classes' smallest cells.
#[derive(Drop)]
pub struct Placing {
    pub cells: Vec<Cell>,
    pub places: Vec<Option<usize>>,
}

/// The result of a sweep over the classes.
#[derive(Clone, Copy)]
pub enum Sweep {
    /// Each class has a place.
    Complete,
    /// Some classes got places, and some have none yet.
    Further,
    /// Some classes have none, and none can get one: they contain each other.
    Stuck,
}

/// The result of a visit to a cell.
#[derive(Clone, Copy)]
pub enum Visit {
    /// Its class got its place.
    Placed,
    /// Its class waits for the place of a part.
    Waiting,
    /// Its class has its place, or it isn't its class's smallest cell.
    Kept,
}

/// Adds the smallest cells of a cell's parts' classes.
fn push_parts(due: &mut Vec<usize>, classes: &Classes, cell: Cell) -> Mem<()>
    requires parts { IsAfterParts (length classes.now.parents.items) cell }
    ensures { OnOk result (AddsParts classes.now cell due.old.items due.new.items) }
{
    match cell {
        Cell::Variable(_) | Cell::NoTrees => {}
        Cell::Application(_, list) => due.push(classes.parents[list])?,
        Cell::TreeThen(first, rest) => {
            due.push(classes.parents[first])?;
            due.push(classes.parents[rest])?;
        }
    }
    Ok(())
}

impl Placing {
    ghost use Rattle.unifier.specs.Cells.{AreOrdered};
    ghost use Rattle.unifier.specs.Classes.{parent, AreClasses};
    ghost use Rattle.unifier.specs.Placing.{
      place,
      IsOrdering,
      IsPlacedAs,
      IsPlacing,
      PartsInside,
      SweepDone,
      VisitDone,
      Waits,
      waiting,
    };

    /// The classes in an order in which parts come first. None where some contain each other. One sweep in
    /// the order of the cells is enough for many terms. Else the walk from each class to its parts places
    /// all that can be placed, and a last sweep tells which it is.
    pub fn order(alloc: Global, cells: &[Cell], classes: &Classes) -> Mem<Option<Placing>>
        requires classes { AreClasses (length cells.now) classes.now }
        requires parts { AreOrdered cells.now }
        ensures { IfOk result (IsOrdering cells.now classes.now) }
    {
        let mut placing = Placing {
            cells: Vec::with_capacity(alloc, cells.len())?,
            places: vec![in alloc; None; cells.len()]?,
        };
        loop {
            match placing.sweep(cells, classes)? {
                Sweep::Complete => return Ok(Some(placing)),
                Sweep::Further => placing.place_parts_first(alloc, cells, classes)?,
                Sweep::Stuck => return Ok(None),
            }
        }
    }

    /// Gives a place to each class whose parts have places.
    fn sweep(&mut self, cells: &[Cell], classes: &Classes) -> Mem<Sweep>
        requires classes { AreClasses (length cells.now) classes.now }
        requires parts { AreOrdered cells.now }
        requires placing { IsPlacing cells.now classes.now self.old }
        ensures placing { OnOk result (IsPlacing cells.now classes.now self.new) }
        ensures done { IfOk result (SweepDone cells.now classes.now self.old self.new) }
    {
        let mut placed = false;
        let mut waiting = false;
        for cell in 0..cells.len() {
            match self.visit(cells, classes, cell)? {
                Visit::Placed => placed = true,
                Visit::Waiting => waiting = true,
                Visit::Kept => {}
            }
        }
        if !waiting {
            return Ok(Sweep::Complete);
        }
        Ok(if placed { Sweep::Further } else { Sweep::Stuck })
    }

    /// Walks from each class to its parts, and gives those that wait for none a place on the way back.
    fn place_parts_first(&mut self, alloc: Global, cells: &[Cell], classes: &Classes) -> Mem<()>
        requires classes { AreClasses (length cells.now) classes.now }
        requires parts { AreOrdered cells.now }
        requires placing { IsPlacing cells.now classes.now self.old }
        ensures placing { OnOk result (IsPlacing cells.now classes.now self.new) }
        ensures falls { OnOk result (waiting self.new.places.items ≤ waiting self.old.places.items) }
    {
        let mut entered = vec![in alloc; false; cells.len()]?;
        let mut due = Vec::with_capacity(alloc, cells.len())?;
        for cell in 0..cells.len() {
            due.push(cell)?;
        }
        // A class is entered once: then it is due again, after its parts, of which there are at most two.
        for _ in 0..cells.len().saturating_mul(4) {
            let Some(cell) = due.pop() else {
                return Ok(());
            };
            let visit = self.visit(cells, classes, cell)?;
            if matches!(visit, Visit::Waiting) && !entered[cell] {
                entered[cell] = true;
                due.push(cell)?;
                push_parts(&mut due, classes, cells[classes.schemas[cell]])?;
            }
        }
        Ok(())
    }

    /// Gives a class its place where it has none and its parts have theirs.
    fn visit(&mut self, cells: &[Cell], classes: &Classes, cell: usize) -> Mem<Visit>
        requires classes { AreClasses (length cells.now) classes.now }
        requires parts { AreOrdered cells.now }
        requires placing { IsPlacing cells.now classes.now self.old }
        requires inside { cell < length cells.now }
        ensures placing { OnOk result (IsPlacing cells.now classes.now self.new) }
        ensures done { IfOk result (VisitDone cells.now classes.now self.old self.new cell) }
    {
        if classes.parents[cell] != cell {
            return Ok(Visit::Kept);
        }
        if self.places[cell].is_some() {
            return Ok(Visit::Kept);
        }
        let schema = classes.schemas[cell];
        match self.node(classes, cells[schema]) {
            Some(node) => {
                let place = self.cells.len();
                self.cells.push(node)?;
                self.set_place(cell, place);
                Ok(Visit::Placed)
            }
            None => Ok(Visit::Waiting),
        }
    }

    /// A cell with its parts' classes at their places, where they have them.
    fn node(&self, classes: &Classes, cell: Cell) -> Option<Cell>
        requires { PartsInside classes.now self.now cell }
        ensures { MatchOption result (Waits classes.now self.now cell) (IsPlacedAs classes.now self.now cell) }
    {
        match cell {
            Cell::Variable(code) => Some(Cell::Variable(code)),
            Cell::Application(symbol, list) => {
                Some(Cell::Application(symbol, self.place_of(classes, list)?))
            }
            Cell::NoTrees => Some(Cell::NoTrees),
            Cell::TreeThen(first, rest) => {
                let first = self.place_of(classes, first)?;
                let rest = self.place_of(classes, rest)?;
                Some(Cell::TreeThen(first, rest))
            }
        }
    }

    /// The place of a cell's class.
    pub fn place_of(&self, classes: &Classes, cell: usize) -> Option<usize>
        requires cell { cell < length classes.now.parents.items }
        requires parent { parent classes.now cell < length self.now.places.items }
        ensures { result ≡ place self.now (parent classes.now cell) }
    {
        self.places[classes.parents[cell]]
    }

    fn set_place(&mut self, cell: usize, place: usize)
        requires { cell < length self.old.places.items }
        ensures places { self.new.places.items ≡ slice_set self.old.places.items cell (Some place) }
        ensures cells { self.new.cells ≡ self.old.cells }
    {
        self.places[cell] = Some(place);
    }
}
