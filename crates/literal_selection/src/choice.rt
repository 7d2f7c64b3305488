// The chosen literal of a clause.

ghost use Rattle.std.specs.Prelude.{◌≡◌, ◌<◌, ◌↔◌, None, sum_by};
ghost use Rattle.fol_base.specs.Clause.{literal_size};
ghost use Rattle.fol_base.specs.Lent.{lent_of};
ghost use Rattle.fol_base.specs.Selection.{chosen, select_negative};
ghost use Rattle.literal_selection.specs.Mode.{mode_of, negative_size, HasNoChoice};

use fol_base::{LendsLiterals, LiteralRef};
use kbo_order::COMPARED_SIZE_LIMIT;

/// The rule by which a literal of a clause is selected.
#[derive(Clone, Copy, Debug, PartialEq, Eq)]
pub enum Selection {
    /// No literal is selected.
    Nothing,
    /// The first negative literal of greatest size.
    Negative,
}

/// The index of the chosen literal (Bachmair and Ganzinger 1994). None exactly where the mode is
/// `Nothing` or no literal is negative. It takes no memory.
pub fn selected<L: LendsLiterals>(literals: &L, mode: Selection) -> Option<usize>
    requires { sum_by literal_size (L.meaning literals.now) < COMPARED_SIZE_LIMIT }
    ensures chosen { result ≡ chosen (mode_of mode) (L.meaning literals.now) }
    ensures none { (result ≡ None) ↔ HasNoChoice mode (L.meaning literals.now) }
{
    match mode {
        Selection::Nothing => None,
        Selection::Negative => first_largest_negative(literals),
    }
}

/// The index of the first negative literal of greatest size.
fn first_largest_negative<L: LendsLiterals>(literals: &L) -> Option<usize>
    requires { sum_by literal_size (L.meaning literals.now) < COMPARED_SIZE_LIMIT }
    ensures { result ≡ chosen select_negative (L.meaning literals.now) }
{
    let mut found = None;
    let mut largest = 0;
    for index in 0..literals.count() {
        let size = negative_size(literals.literal(index));
        if size > largest {
            found = Some(index);
            largest = size;
        }
    }
    found
}

/// The size of a negative literal, and 0 for a positive one.
fn negative_size(literal: LiteralRef<'_>) -> u64
    requires { literal_size (lent_of literal) < COMPARED_SIZE_LIMIT }
    ensures { result ≡ negative_size (lent_of literal.entry) }
{
    if literal.positive { 0 } else { literal.size() }
}
