// The comparison of two clauses, and of their instances.

ghost use Rattle.std.specs.Prelude.{◌≡◌, ◌<◌, ◌&&◌, ◌==◌, sum_by};
ghost use Rattle.std.specs.List.{list_any, list_all};
ghost use Rattle.fol_base.specs.Clause.{literal_size, literal_instance};
ghost use Rattle.fol_base.specs.Ground.{literals_instance};
ghost use Rattle.fol_base.specs.Lent.{lent_of};
ghost use Rattle.fol_base.specs.Multiset.{times, more_often, outdone};
ghost use Rattle.fol_base.specs.Order.{
  compare_clauses,
  equivalent_literals,
  literal_greater,
  equivalent_clauses,
};
ghost use Rattle.kbo_order.specs.Cmp.{comparison_of};

use crate::cmp::Cmp;
use crate::limits::COMPARED_SIZE_LIMIT;
use crate::literals::compare_literals_under;
use crate::reading::Unbound;
use fol_base::{LendsLiterals, LendsTerms, LiteralRef, same_instance};

/// Compares two clauses, given as lists of their literals: multisets of literals, compared by
/// the multiset extension of the order on literals (Bachmair and Ganzinger 1994). Equal are two that have
/// each literal equally often, sides in either order. It takes no memory.
pub fn compare_clauses<L: LendsLiterals, M: LendsLiterals>(left: &L, right: &M) -> Cmp
    requires left_size { sum_by literal_size (L.meaning left.now) < COMPARED_SIZE_LIMIT }
    requires right_size { sum_by literal_size (M.meaning right.now) < COMPARED_SIZE_LIMIT }
    ensures { comparison_of result ≡ compare_clauses (L.meaning left.now) (M.meaning right.now) }
{
    let nothing = Unbound;
    compare_clauses_under(left, &nothing, right, &nothing)
}

/// Compares the instances of two clauses, each under its own substitution. The instances aren't built, and no memory
/// is taken. The condition is that of `compare_clauses`, on the instances.
pub fn compare_clauses_under<L: LendsLiterals, S: LendsTerms, M: LendsLiterals, T: LendsTerms>(
    left: &L,
    left_bind: &S,
    right: &M,
    right_bind: &T,
) -> Cmp
    requires left_size { sum_by literal_size (literals_instance (S.meaning left_bind.now) (L.meaning left.now)) < COMPARED_SIZE_LIMIT }
    requires right_size { sum_by literal_size (literals_instance (T.meaning right_bind.now) (M.meaning right.now)) < COMPARED_SIZE_LIMIT }
    ensures { comparison_of result ≡ compare_clauses
        (literals_instance (S.meaning left_bind.now) (L.meaning left.now))
        (literals_instance (T.meaning right_bind.now) (M.meaning right.now)) }
{
    if are_equivalent(left, left_bind, right, right_bind) {
        return Cmp::Equal;
    }
    if outdoes(left, left_bind, right, right_bind) {
        return Cmp::Greater;
    }
    if outdoes(right, right_bind, left, left_bind) {
        return Cmp::Less;
    }
    Cmp::Unordered
}

/// Whether each literal stands in both instances equally often.
fn are_equivalent<L: LendsLiterals, S: LendsTerms, M: LendsLiterals, T: LendsTerms>(
    left: &L,
    left_bind: &S,
    right: &M,
    right_bind: &T,
) -> bool
    ensures { result ≡ equivalent_clauses
        (literals_instance (S.meaning left_bind.now) (L.meaning left.now))
        (literals_instance (T.meaning right_bind.now) (M.meaning right.now)) }
{
    are_counted_alike(left, left_bind, right, right_bind)
        && are_counted_alike(right, right_bind, left, left_bind)
}

/// Whether each literal of the first instance stands in the second one as often.
fn are_counted_alike<L: LendsLiterals, S: LendsTerms, M: LendsLiterals, T: LendsTerms>(
    first: &L,
    first_bind: &S,
    second: &M,
    second_bind: &T,
) -> bool
    ensures { result ≡ list_all
        (λ z. times equivalent_literals z (literals_instance (S.meaning first_bind.now) (L.meaning first.now))
        == times equivalent_literals z (literals_instance (T.meaning second_bind.now) (M.meaning second.now)))
        (literals_instance (S.meaning first_bind.now) (L.meaning first.now)) }
{
    for index in 0..first.count() {
        let literal = first.literal(index);
        let here = occurrences(literal, first_bind, first, first_bind);
        let there = occurrences(literal, first_bind, second, second_bind);
        if here != there {
            return false;
        }
    }
    true
}

/// How often the instance of a literal stands in that of a clause, sides in either order.
fn occurrences<S: LendsTerms, L: LendsLiterals, T: LendsTerms>(
    literal: LiteralRef<'_>,
    literal_bind: &S,
    literals: &L,
    bind: &T,
) -> usize
    ensures { result ≡ times equivalent_literals
        (literal_instance (S.meaning literal_bind.now) (lent_of literal.entry))
        (literals_instance (T.meaning bind.now) (L.meaning literals.now)) }
{
    let mut count = 0;
    for index in 0..literals.count() {
        count += usize::from(equivalent_literals_under(
            literal,
            literal_bind,
            literals.literal(index),
            bind,
        ));
    }
    count
}

/// Whether the instances of two literals have the same sign and the same sides, in either order.
fn equivalent_literals_under<S: LendsTerms, T: LendsTerms>(
    left: LiteralRef<'_>,
    left_bind: &S,
    right: LiteralRef<'_>,
    right_bind: &T,
) -> bool
    ensures { result ≡ equivalent_literals
        (literal_instance (S.meaning left_bind.now) (lent_of left.entry))
        (literal_instance (T.meaning right_bind.now) (lent_of right.entry)) }
{
    left.positive == right.positive
        && ((same_instance(left.left, left_bind, right.left, right_bind)
            && same_instance(left.right, left_bind, right.right, right_bind))
            || (same_instance(left.left, left_bind, right.right, right_bind)
                && same_instance(left.right, left_bind, right.left, right_bind)))
}

/// Whether each literal that the right instance has more often is below one that the left one has more often.
fn outdoes<L: LendsLiterals, S: LendsTerms, M: LendsLiterals, T: LendsTerms>(
    left: &L,
    left_bind: &S,
    right: &M,
    right_bind: &T,
) -> bool
    requires left_size { sum_by literal_size (literals_instance (S.meaning left_bind.now) (L.meaning left.now)) < COMPARED_SIZE_LIMIT }
    requires right_size { sum_by literal_size (literals_instance (T.meaning right_bind.now) (M.meaning right.now)) < COMPARED_SIZE_LIMIT }
    ensures { result ≡ list_all
        (outdone equivalent_literals literal_greater
        (literals_instance (S.meaning left_bind.now) (L.meaning left.now))
        (literals_instance (T.meaning right_bind.now) (M.meaning right.now)))
        (literals_instance (T.meaning right_bind.now) (M.meaning right.now)) }
{
    for index in 0..right.count() {
        if !is_outdone(right.literal(index), left, left_bind, right, right_bind) {
            return false;
        }
    }
    true
}

/// Whether the right instance doesn't have the literal, which is one of its own, more often, or the left one outdoes it.
fn is_outdone<L: LendsLiterals, S: LendsTerms, M: LendsLiterals, T: LendsTerms>(
    literal: LiteralRef<'_>,
    left: &L,
    left_bind: &S,
    right: &M,
    right_bind: &T,
) -> bool
    requires size { literal_size (literal_instance (T.meaning right_bind.now) (lent_of literal)) < COMPARED_SIZE_LIMIT }
    requires left_size { sum_by literal_size (literals_instance (S.meaning left_bind.now) (L.meaning left.now)) < COMPARED_SIZE_LIMIT }
    ensures { result ≡ outdone equivalent_literals literal_greater
        (literals_instance (S.meaning left_bind.now) (L.meaning left.now))
        (literals_instance (T.meaning right_bind.now) (M.meaning right.now))
        (literal_instance (T.meaning right_bind.now) (lent_of literal.entry)) }
{
    !stands_more_often(literal, right, right_bind, left, left_bind)
        || has_above(literal, left, left_bind, right, right_bind)
}

/// Whether a literal of the right instance is below one that the left one has more often than the right one.
fn has_above<L: LendsLiterals, S: LendsTerms, M: LendsLiterals, T: LendsTerms>(
    literal: LiteralRef<'_>,
    left: &L,
    left_bind: &S,
    right: &M,
    right_bind: &T,
) -> bool
    requires size { literal_size (literal_instance (T.meaning right_bind.now) (lent_of literal)) < COMPARED_SIZE_LIMIT }
    requires left_size { sum_by literal_size (literals_instance (S.meaning left_bind.now) (L.meaning left.now)) < COMPARED_SIZE_LIMIT }
    ensures { result ≡ list_any
        (λ x. more_often equivalent_literals
        (literals_instance (S.meaning left_bind.now) (L.meaning left.now)) (literals_instance (T.meaning right_bind.now) (M.meaning right.now)) x
        && literal_greater x (literal_instance (T.meaning right_bind.now) (lent_of literal.entry)))
        (literals_instance (S.meaning left_bind.now) (L.meaning left.now)) }
{
    for index in 0..left.count() {
        if is_outdoing(
            left.literal(index),
            literal,
            left,
            left_bind,
            right,
            right_bind,
        ) {
            return true;
        }
    }
    false
}

/// Whether a literal of the left instance is above one of the right instance, and the left one has it more often.
fn is_outdoing<L: LendsLiterals, S: LendsTerms, M: LendsLiterals, T: LendsTerms>(
    other: LiteralRef<'_>,
    literal: LiteralRef<'_>,
    left: &L,
    left_bind: &S,
    right: &M,
    right_bind: &T,
) -> bool
    requires other_size { literal_size (literal_instance (S.meaning left_bind.now) (lent_of other)) < COMPARED_SIZE_LIMIT }
    requires size { literal_size (literal_instance (T.meaning right_bind.now) (lent_of literal)) < COMPARED_SIZE_LIMIT }
    ensures { result ≡ (more_often equivalent_literals
        (literals_instance (S.meaning left_bind.now) (L.meaning left.now)) (literals_instance (T.meaning right_bind.now) (M.meaning right.now))
        (literal_instance (S.meaning left_bind.now) (lent_of other.entry))
        && literal_greater
        (literal_instance (S.meaning left_bind.now) (lent_of other.entry)) (literal_instance (T.meaning right_bind.now) (lent_of literal.entry))) }
{
    is_above(other, left_bind, literal, right_bind)
        && stands_more_often(other, left, left_bind, right, right_bind)
}

/// Whether the first instance has a literal, which is one of its own, more often than the second one.
fn stands_more_often<L: LendsLiterals, S: LendsTerms, M: LendsLiterals, T: LendsTerms>(
    literal: LiteralRef<'_>,
    first: &L,
    first_bind: &S,
    second: &M,
    second_bind: &T,
) -> bool
    ensures { result ≡ more_often equivalent_literals
        (literals_instance (S.meaning first_bind.now) (L.meaning first.now))
        (literals_instance (T.meaning second_bind.now) (M.meaning second.now))
        (literal_instance (S.meaning first_bind.now) (lent_of literal.entry)) }
{
    occurrences(literal, first_bind, second, second_bind)
        < occurrences(literal, first_bind, first, first_bind)
}

/// Whether the left instance is greater.
fn is_above<S: LendsTerms, T: LendsTerms>(
    left: LiteralRef<'_>,
    left_bind: &S,
    right: LiteralRef<'_>,
    right_bind: &T,
) -> bool
    requires left_size { literal_size (literal_instance (S.meaning left_bind.now) (lent_of left)) < COMPARED_SIZE_LIMIT }
    requires right_size { literal_size (literal_instance (T.meaning right_bind.now) (lent_of right)) < COMPARED_SIZE_LIMIT }
    ensures { result ≡ literal_greater
        (literal_instance (S.meaning left_bind.now) (lent_of left.entry)) (literal_instance (T.meaning right_bind.now) (lent_of right.entry)) }
{
    compare_literals_under(left, left_bind, right, right_bind).is_greater()
}
