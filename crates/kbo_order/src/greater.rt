// Whether one instance is greater than another, asked one way.

ghost use Rattle.std.specs.Prelude.{◌≡◌, ◌+◌, ◌<◌, ◌^◌, IsTrue};
ghost use Rattle.fol_base.specs.Tree.{tree_size};
ghost use Rattle.fol_base.specs.Instance.{instance};
ghost use Rattle.fol_base.specs.Term.{tree_of};
ghost use Rattle.fol_base.specs.Order.{tree_greater};
ghost use Rattle.fol_base.specs.declared.limits.TheConstants.{SIZE_LIMIT};
ghost use Rattle.kbo_order.specs.OneWay.{IsGreaterInBlock};

use crate::balance::Balance;
use crate::limits::COMPARED_SIZE_LIMIT;
use crate::reading::{Unbound, head};
use crate::terms::{VARIABLES, compare_in_block};
use fol_base::{LendsTerms, Term};

/// Whether the first instance is greater than the second one, each under its own substitution. The instances aren't built, and no
/// memory is taken.
///
/// It is the walk of `compare_under`, but that the terms after the first difference are met on the left and then on the right, where
/// the walk ends as soon as the right one has more.
pub fn greater_under<S: LendsTerms, T: LendsTerms>(
    left: &Term,
    left_bind: &S,
    right: &Term,
    right_bind: &T,
) -> bool
    requires left_size { tree_size (instance (S.meaning left_bind.now) (tree_of left.now)) < COMPARED_SIZE_LIMIT }
    requires right_size { tree_size (instance (T.meaning right_bind.now) (tree_of right.now)) < COMPARED_SIZE_LIMIT }
    ensures { result ≡ tree_greater
        (instance (S.meaning left_bind.now) (tree_of left.now))
        (instance (T.meaning right_bind.now) (tree_of right.now)) }
{
    greater_in_blocks(left, left_bind, right, right_bind, false)
}

/// `greater_under` for a caller who knows that the instances are of one size: where the symbols, or else the first two arguments that differ,
/// don't make the first one greater, nothing after them is met.
pub fn greater_at_equal_sizes<S: LendsTerms, T: LendsTerms>(
    left: &Term,
    left_bind: &S,
    right: &Term,
    right_bind: &T,
) -> bool
    requires size { tree_size (instance (S.meaning left_bind.now) (tree_of left.now)) < COMPARED_SIZE_LIMIT }
    requires same { tree_size (instance (S.meaning left_bind.now) (tree_of left.now))
        ≡ tree_size (instance (T.meaning right_bind.now) (tree_of right.now)) }
    ensures { result ≡ tree_greater
        (instance (S.meaning left_bind.now) (tree_of left.now))
        (instance (T.meaning right_bind.now) (tree_of right.now)) }
{
    greater_in_blocks(left, left_bind, right, right_bind, true)
}

/// Whether a term is greater than another one, both as they stand.
pub fn is_greater(one: &Term, other: &Term) -> bool
    requires one { tree_size (tree_of one.now) < SIZE_LIMIT }
    requires other { tree_size (tree_of other.now) < SIZE_LIMIT }
    ensures { result ≡ tree_greater (tree_of one.now) (tree_of other.now) }
{
    greater_under(one, &Unbound, other, &Unbound)
}

/// One walk for each block of variables that has one of theirs, while the answer is yes.
fn greater_in_blocks<S: LendsTerms, T: LendsTerms>(
    left: &Term,
    left_bind: &S,
    right: &Term,
    right_bind: &T,
    same_size: bool,
) -> bool
    requires left_size { tree_size (instance (S.meaning left_bind.now) (tree_of left.now)) < COMPARED_SIZE_LIMIT }
    requires right_size { tree_size (instance (T.meaning right_bind.now) (tree_of right.now)) < COMPARED_SIZE_LIMIT }
    requires same_size { IsTrue same_size
        → tree_size (instance (S.meaning left_bind.now) (tree_of left.now))
        ≡ tree_size (instance (T.meaning right_bind.now) (tree_of right.now)) }
    ensures { result ≡ tree_greater
        (instance (S.meaning left_bind.now) (tree_of left.now))
        (instance (T.meaning right_bind.now) (tree_of right.now)) }
{
    let mut start = 0;
    while start < VARIABLES {
        match greater_in_block(left, left_bind, right, right_bind, start, same_size) {
            Some(next) => start = next,
            None => return false,
        }
    }
    true
}

/// Whether the first instance is greater with the variable condition for the variables of one block alone, and then where the next block
/// begins.
fn greater_in_block<S: LendsTerms, T: LendsTerms>(
    left: &Term,
    left_bind: &S,
    right: &Term,
    right_bind: &T,
    start: u64,
    same_size: bool,
) -> Option<u64>
    requires left_size { tree_size (instance (S.meaning left_bind.now) (tree_of left.now)) < COMPARED_SIZE_LIMIT }
    requires right_size { tree_size (instance (T.meaning right_bind.now) (tree_of right.now)) < COMPARED_SIZE_LIMIT }
    requires same_size { IsTrue same_size
        → tree_size (instance (S.meaning left_bind.now) (tree_of left.now))
        ≡ tree_size (instance (T.meaning right_bind.now) (tree_of right.now)) }
    requires start { start < 2 ^ 32 }
    ensures { IsGreaterInBlock start result
        (instance (S.meaning left_bind.now) (tree_of left.now)) (instance (T.meaning right_bind.now) (tree_of right.now)) }
{
    let top = head(left, left_bind, false);
    let other_top = head(right, right_bind, false);
    match top.term {
        Term::Var(_) => None,
        Term::App(first, ones) => match other_top.term {
            Term::Var(_) => {
                let block = compare_in_block(left, left_bind, right, right_bind, start);
                if block.answer.is_greater() {
                    Some(block.next)
                } else {
                    None
                }
            }
            Term::App(second, others) => {
                let mut balance = Balance::starting_at(start);
                let exceeds = balance.exceeds(
                    *first,
                    ones.as_slice(),
                    left_bind,
                    top.is_bound,
                    *second,
                    others.as_slice(),
                    right_bind,
                    other_top.is_bound,
                    same_size,
                );
                if exceeds { Some(balance.next) } else { None }
            }
        },
    }
}
