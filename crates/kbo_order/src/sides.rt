// Two literals by the comparisons of their sides.

ghost use mathlib.Core.Bool.{beq};
ghost use Rattle.std.specs.Prelude.{◌≡◌, ◌<◌, ◌&&◌};
ghost use Rattle.fol_base.specs.Instance.{instance};
ghost use Rattle.fol_base.specs.Term.{tree_of};
ghost use Rattle.fol_base.specs.Order.{compare_trees};
ghost use Rattle.fol_base.specs.Clause.{literal_size, literal_instance};
ghost use Rattle.kbo_order.specs.Cmp.{comparison_of};
ghost use Rattle.fol_base.specs.Lent.{lent_of};

use crate::cmp::Cmp;
use crate::limits::COMPARED_SIZE_LIMIT;
use crate::terms::compare_under;
use fol_base::{LendsTerms, LiteralRef};

/// How each side of one literal compares with each side of another: the first word of a name is the side of
/// the first literal.
#[derive(Drop)]
pub struct SidePairs {
    pub left_left: Cmp,
    pub left_right: Cmp,
    pub right_left: Cmp,
    pub right_right: Cmp,
}

impl SidePairs {
    ghost use Rattle.kbo_order.specs.Cmp.{reversed};
    ghost use Rattle.kbo_order.specs.Sides.{
      ComparesSides,
      all_below,
      all_reached,
      exceeds_beside_equals,
      sides_exceed,
      sides_same,
    };

    /// Compares the sides of the instances of two literals, of which the two left and the two right ones were compared.
    pub fn of<S: LendsTerms, T: LendsTerms>(
        left: LiteralRef<'_>,
        left_bind: &S,
        right: LiteralRef<'_>,
        right_bind: &T,
        lefts: Cmp,
        rights: Cmp,
    ) -> SidePairs
        requires left_size { literal_size (literal_instance (S.meaning left_bind.now) (lent_of left)) < COMPARED_SIZE_LIMIT }
        requires right_size { literal_size (literal_instance (T.meaning right_bind.now) (lent_of right)) < COMPARED_SIZE_LIMIT }
        requires lefts { comparison_of lefts ≡ compare_trees
            (instance (S.meaning left_bind.now) (tree_of left.left.now)) (instance (T.meaning right_bind.now) (tree_of right.left.now)) }
        requires rights { comparison_of rights ≡ compare_trees
            (instance (S.meaning left_bind.now) (tree_of left.right.now)) (instance (T.meaning right_bind.now) (tree_of right.right.now)) }
        ensures { ComparesSides result
            (literal_instance (S.meaning left_bind.now) (lent_of left.entry))
            (literal_instance (T.meaning right_bind.now) (lent_of right.entry)) }
    {
        SidePairs {
            left_left: lefts,
            left_right: compare_under(left.left, left_bind, right.right, right_bind),
            right_left: compare_under(left.right, left_bind, right.left, right_bind),
            right_right: rights,
        }
    }

    /// The comparisons with the two literals exchanged.
    pub fn reversed(&self) -> SidePairs
        ensures left_left { result.left_left ≡ reversed self.now.left_left }
        ensures left_right { result.left_right ≡ reversed self.now.right_left }
        ensures right_left { result.right_left ≡ reversed self.now.left_right }
        ensures right_right { result.right_right ≡ reversed self.now.right_right }
    {
        SidePairs {
            left_left: self.left_left.reversed(),
            left_right: self.right_left.reversed(),
            right_left: self.left_right.reversed(),
            right_right: self.right_right.reversed(),
        }
    }

    /// Whether the literals have one sign and the same sides, in either order.
    pub fn are_equivalent(&self, positive: bool, other_positive: bool) -> bool
        ensures { result ≡ (beq positive other_positive && sides_same self.now) }
    {
        positive == other_positive && self.have_same_sides()
    }

    /// Whether the sides are the same, in either order.
    fn have_same_sides(&self) -> bool
        ensures { result ≡ sides_same self.now }
    {
        (self.left_left.is_equal() && self.right_right.is_equal())
            || (self.left_right.is_equal() && self.right_left.is_equal())
    }

    /// Whether the first literal is greater, of two that aren't equivalent. A positive literal is the
    /// multiset of its sides, a negative one has each side twice.
    pub fn exceed(&self, positive: bool, other_positive: bool) -> bool
        ensures { result ≡ sides_exceed positive other_positive self.now }
    {
        match (positive, other_positive) {
            (true, false) => self.are_all_below(),
            (false, true) => self.are_all_reached(),
            (true, true) | (false, false) => self.exceed_beside_equals(),
        }
    }

    /// Whether each side of the second literal is below one of the first.
    fn are_all_below(&self) -> bool
        ensures { result ≡ all_below self.now }
    {
        (self.left_left.is_greater() || self.right_left.is_greater())
            && (self.left_right.is_greater() || self.right_right.is_greater())
    }

    /// Whether each side of the second literal is below one of the first, or equal to it.
    fn are_all_reached(&self) -> bool
        ensures { result ≡ all_reached self.now }
    {
        let left = self.left_left.is_greater() || self.left_left.is_equal();
        let left = left || self.right_left.is_greater() || self.right_left.is_equal();
        let right = self.left_right.is_greater() || self.left_right.is_equal();
        let right = right || self.right_right.is_greater() || self.right_right.is_equal();
        left && right
    }

    /// Two equal sides cancel out, and the other two decide.
    fn exceed_beside_equals(&self) -> bool
        ensures { result ≡ exceeds_beside_equals self.now }
    {
        if self.left_left.is_equal() {
            self.right_right.is_greater()
        } else if self.left_right.is_equal() {
            self.right_left.is_greater()
        } else if self.right_left.is_equal() {
            self.left_right.is_greater()
        } else if self.right_right.is_equal() {
            self.left_left.is_greater()
        } else {
            self.are_all_below()
        }
    }
}
