// A unifier as it is kept: the cells of the trees that variables become, and the place of each variable.

ghost use Rattle.std.specs.Prelude.{◌≡◌};
ghost use Rattle.unifier.specs.InOrder.{InOrder, in-order-prop};
ghost use Rattle.unifier.specs.Layout.{cell_of};

use crate::cells::Cell;
use crate::layout::{Place, find_place};
use crate::resolving::place_among;

/// How many places are looked through one by one; more of them are in the order of the variables' numbers, and searched by halving.
pub const FEW_PLACES: usize = 16;

/// The variables of both sides with the cells of their trees. It shares the common parts of the trees, so it has
/// at most as many cells as were laid out for them.
#[derive(Drop)]
pub struct Solution {
    pub apart: bool,
    pub cells: Vec<Cell>,
    pub places: Vec<Place>,
    ghost in_order: { InOrder cells.items places.items } by { in-order-prop cells.items places.items },
}

impl Solution {
    /// The cell of a variable's tree. None where the variable has no place.
    pub fn cell_of(&self, code: u64) -> Option<usize>
        ensures { result ≡ cell_of code self.now.places.items }
    {
        if self.places.len() <= FEW_PLACES {
            place_among(self.places.as_slice(), code)
        } else {
            find_place(self.places.as_slice(), code)
        }
    }
}
