// Solving by classes of cells: two terms are laid out, and their cells get one value, if they can.

ghost use Rattle.std.specs.Prelude.{◌≡◌, ◌<◌, None, Some, true, false, length, IfOk, MatchOption};
ghost use Rattle.fol_base.specs.Term.{tree_of};
ghost use Rattle.unifier.specs.Cells.{is_list, cell_at};
ghost use Rattle.unifier.specs.Layout.{IsLayout};
ghost use Rattle.unifier.specs.Solution.{CannotMeet, IsMeeting, solved_form};
ghost use Rattle.unifier.specs.Bindings.{IsFound, IsUnified};
ghost use Rattle.unifier.specs.Solving.{IsRelocated, Places};

use crate::cells::Cell;
use crate::classes::Classes;
use crate::layout::{Layout, Place};
use crate::placing::Placing;
use crate::solution::Solution;
use fol_base::{Side, Term};
use plain_types::Mem;
use std::alloc::Global;

/// A most general unifier of two terms. None exactly where there is none.
///
/// Both are laid out as cells, with one for each variable; classes of cells that must be equal are closed under
/// their parts (as in unification closure, Huet 1976); the classes are then put into an order in which parts
/// come first, which fails exactly where a variable would have to contain itself.
pub fn unify_by_classes(
    alloc: Global,
    left: &Term,
    right: &Term,
    apart: bool,
) -> Mem<Option<Solution>>
    ensures { IfOk result (λ found. MatchOption found
        (IsUnified apart (tree_of left.now) (tree_of right.now) None)
        (λ solution. IsFound apart (tree_of left.now) (tree_of right.now) (solved_form solution))) }
{
    let mut layout = Layout::new(alloc, apart, left, right)?;
    let first = layout.lay_term(apart, Side::Left, left)?;
    let second = layout.lay_term(apart, Side::Right, right)?;
    solve(alloc, &layout, apart, first, second)
}

/// The assignment that gives two cells one value. None where there is none.
fn solve(
    alloc: Global,
    layout: &Layout,
    apart: bool,
    first: usize,
    second: usize,
) -> Mem<Option<Solution>>
    requires layout { IsLayout layout.now }
    requires first { first < length layout.now.cells.items }
    requires second { second < length layout.now.cells.items }
    requires kinds { is_list (cell_at layout.now.cells.items first) ≡ is_list (cell_at layout.now.cells.items second) }
    ensures { IfOk result (λ found. MatchOption found
        (CannotMeet layout.now.cells.items first second)
        (IsMeeting layout.now apart first second)) }
{
    let cells = layout.cells.as_slice();
    let mut classes = Classes::new(alloc, cells.len())?;
    if !classes.close(alloc, cells, first, second)? {
        return Ok(None);
    }
    match Placing::order(alloc, cells, &classes)? {
        None => Ok(None),
        Some(placing) => {
            let places = relocated(alloc, layout.places.as_slice(), &classes, &placing)?;
            Ok(Some(Solution {
                apart,
                cells: placing.cells,
                places,
            }))
        }
    }
}

/// The variables with the places of their cells' classes.
fn relocated(
    alloc: Global,
    places: &[Place],
    classes: &Classes,
    placing: &Placing,
) -> Mem<Vec<Place>>
    requires { Places classes.now placing.now places.now }
    ensures { IfOk result (λ made. IsRelocated classes.now placing.now places.now made.items) }
{
    let mut made = Vec::with_capacity(alloc, places.len())?;
    for place in places {
        let cell = placing.place_of(classes, place.cell).unwrap_or(0);
        made.push(Place {
            code: place.code,
            cell,
        })?;
    }
    Ok(made)
}
