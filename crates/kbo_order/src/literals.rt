// The comparison of two literals.

ghost use Rattle.std.specs.Prelude.{◌≡◌, ◌<◌};
ghost use Rattle.fol_base.specs.Instance.{instance};
ghost use Rattle.fol_base.specs.Term.{tree_of};
ghost use Rattle.fol_base.specs.Clause.{literal_size, literal_instance};
ghost use Rattle.fol_base.specs.Lent.{lent_of};
ghost use Rattle.fol_base.specs.Order.{compare_literals, compare_trees};
ghost use Rattle.kbo_order.specs.Cmp.{comparison_of};

use crate::cmp::Cmp;
use crate::limits::COMPARED_SIZE_LIMIT;
use crate::reading::Unbound;
use crate::sides::SidePairs;
use crate::terms::compare_under;
use fol_base::{LendsTerms, LiteralRef};

/// Compares two literals: a positive one is the multiset of its two sides, a negative one
/// has each side twice, and these are compared by the multiset extension of the order on terms
/// (Bachmair and Ganzinger 1994). Equal are two of one sign with the same sides in either order. It takes
/// no memory.
pub fn compare_literals(left: LiteralRef<'_>, right: LiteralRef<'_>) -> Cmp
    requires left_size { literal_size (lent_of left) < COMPARED_SIZE_LIMIT }
    requires right_size { literal_size (lent_of right) < COMPARED_SIZE_LIMIT }
    ensures { comparison_of result ≡ compare_literals (lent_of left.entry) (lent_of right.entry) }
{
    let nothing = Unbound;
    compare_literals_under(left, &nothing, right, &nothing)
}

/// Compares the instances of two literals, each under its own substitution. The instances aren't built, and no memory
/// is taken.
///
/// Sides are compared as they are needed. The right ones come first: where both are `$true`, the left ones decide.
pub fn compare_literals_under<S: LendsTerms, T: LendsTerms>(
    left: LiteralRef<'_>,
    left_bind: &S,
    right: LiteralRef<'_>,
    right_bind: &T,
) -> Cmp
    requires left_size { literal_size (literal_instance (S.meaning left_bind.now) (lent_of left)) < COMPARED_SIZE_LIMIT }
    requires right_size { literal_size (literal_instance (T.meaning right_bind.now) (lent_of right)) < COMPARED_SIZE_LIMIT }
    ensures { comparison_of result ≡ compare_literals
        (literal_instance (S.meaning left_bind.now) (lent_of left.entry))
        (literal_instance (T.meaning right_bind.now) (lent_of right.entry)) }
{
    let has_one_sign = left.positive == right.positive;
    let rights = compare_under(left.right, left_bind, right.right, right_bind);
    if has_one_sign && rights.is_equal() {
        return compare_under(left.left, left_bind, right.left, right_bind);
    }
    let lefts = compare_under(left.left, left_bind, right.left, right_bind);
    if has_one_sign && lefts.is_equal() {
        return rights;
    }
    if lefts.is_greater() && rights.is_greater() {
        return Cmp::Greater;
    }
    if lefts.is_less() && rights.is_less() {
        return Cmp::Less;
    }
    compare_all_sides(left, left_bind, right, right_bind, lefts, rights)
}

/// The comparison by each side of either literal with each of the other, those of the two left and the two right sides being known.
fn compare_all_sides<S: LendsTerms, T: LendsTerms>(
    left: LiteralRef<'_>,
    left_bind: &S,
    right: LiteralRef<'_>,
    right_bind: &T,
    lefts: Cmp,
    rights: Cmp,
) -> Cmp
    requires left_size { literal_size (literal_instance (S.meaning left_bind.now) (lent_of left)) < COMPARED_SIZE_LIMIT }
    requires right_size { literal_size (literal_instance (T.meaning right_bind.now) (lent_of right)) < COMPARED_SIZE_LIMIT }
    requires lefts { comparison_of lefts ≡ compare_trees
        (instance (S.meaning left_bind.now) (tree_of left.left.now)) (instance (T.meaning right_bind.now) (tree_of right.left.now)) }
    requires rights { comparison_of rights ≡ compare_trees
        (instance (S.meaning left_bind.now) (tree_of left.right.now)) (instance (T.meaning right_bind.now) (tree_of right.right.now)) }
    ensures { comparison_of result ≡ compare_literals
        (literal_instance (S.meaning left_bind.now) (lent_of left.entry))
        (literal_instance (T.meaning right_bind.now) (lent_of right.entry)) }
{
    let pairs = SidePairs::of(left, left_bind, right, right_bind, lefts, rights);
    if pairs.are_equivalent(left.positive, right.positive) {
        return Cmp::Equal;
    }
    if pairs.exceed(left.positive, right.positive) {
        return Cmp::Greater;
    }
    if pairs.reversed().exceed(right.positive, left.positive) {
        return Cmp::Less;
    }
    Cmp::Unordered
}
