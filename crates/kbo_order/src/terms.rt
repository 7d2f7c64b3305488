// The comparison of two terms.

ghost use Rattle.std.specs.Prelude.{◌≡◌, ◌+◌, ◌<◌, ◌≤◌, ◌^◌};
ghost use Rattle.fol_base.specs.Tree.{tree_size, true_tree};
ghost use Rattle.fol_base.specs.Instance.{instance};
ghost use Rattle.fol_base.specs.Term.{tree_of};
ghost use Rattle.fol_base.specs.Order.{compare_trees};
ghost use Rattle.kbo_order.specs.Cmp.{comparison_of};
ghost use Rattle.kbo_order.specs.Block.{Answers, InBlock, Below, IsStrict, GreaterOn};
ghost use Rattle.kbo_order.specs.Further.{IsNumbered, IsClear};

use crate::balance::Balance;
use crate::cmp::Cmp;
use crate::limits::COMPARED_SIZE_LIMIT;
use crate::reading::{Unbound, head};
use fol_base::{LendsTerms, Term};

/// The end of the variables' numbers.
pub const VARIABLES: u64 = 1 << 32;

/// Compares two terms in the Knuth-Bendix order with weight 1 for each occurrence of a
/// symbol or variable, and the symbols' numbers as precedence (Knuth and Bendix 1970). It takes no memory.
pub fn compare(left: &Term, right: &Term) -> Cmp
    requires left_size { tree_size (tree_of left.now) < COMPARED_SIZE_LIMIT }
    requires right_size { tree_size (tree_of right.now) < COMPARED_SIZE_LIMIT }
    ensures { comparison_of result ≡ compare_trees (tree_of left.now) (tree_of right.now) }
{
    let nothing = Unbound;
    compare_under(left, &nothing, right, &nothing)
}

/// Compares the instances of two terms, each under its own substitution. The instances aren't built, and no memory is
/// taken. The condition is that of `compare`, on the instances.
///
/// `$true` is told by the heads. Else one walk down both, as in Löchner (2006), for each block of 32 variables that has one of theirs.
pub fn compare_under<S: LendsTerms, T: LendsTerms>(
    left: &Term,
    left_bind: &S,
    right: &Term,
    right_bind: &T,
) -> Cmp
    requires left_size { tree_size (instance (S.meaning left_bind.now) (tree_of left.now)) < COMPARED_SIZE_LIMIT }
    requires right_size { tree_size (instance (T.meaning right_bind.now) (tree_of right.now)) < COMPARED_SIZE_LIMIT }
    ensures { comparison_of result ≡ compare_trees
        (instance (S.meaning left_bind.now) (tree_of left.now))
        (instance (T.meaning right_bind.now) (tree_of right.now)) }
{
    let of_right = against_truth(right, right_bind);
    if of_right.is_equal() {
        return against_truth(left, left_bind);
    }
    let of_left = against_truth(left, left_bind);
    if of_left.is_equal() {
        return of_right.reversed();
    }
    compare_walked(left, left_bind, right, right_bind)
}

/// Compares an instance with `$true`, which is below every other term that isn't a variable: its head tells.
pub fn against_truth<S: LendsTerms>(term: &Term, bind: &S) -> Cmp
    ensures { comparison_of result ≡ compare_trees (instance (S.meaning bind.now) (tree_of term.now)) true_tree }
{
    let top = head(term, bind, false);
    match top.term {
        Term::Var(_) => Cmp::Unordered,
        Term::App(_, _) => {
            if top.term.is_truth() {
                Cmp::Equal
            } else {
                Cmp::Greater
            }
        }
    }
}

/// The comparison of two instances by walks.
fn compare_walked<S: LendsTerms, T: LendsTerms>(
    left: &Term,
    left_bind: &S,
    right: &Term,
    right_bind: &T,
) -> Cmp
    requires left_size { tree_size (instance (S.meaning left_bind.now) (tree_of left.now)) < COMPARED_SIZE_LIMIT }
    requires right_size { tree_size (instance (T.meaning right_bind.now) (tree_of right.now)) < COMPARED_SIZE_LIMIT }
    ensures { comparison_of result ≡ compare_trees
        (instance (S.meaning left_bind.now) (tree_of left.now))
        (instance (T.meaning right_bind.now) (tree_of right.now)) }
{
    let first = compare_in_block(left, left_bind, right, right_bind, 0);
    match first.answer {
        Cmp::Greater | Cmp::Less => {
            compare_in_blocks(left, left_bind, right, right_bind, first.answer, first.next)
        }
        Cmp::Equal | Cmp::Unordered => first.answer,
    }
}

/// The answer that the blocks before `from` gave, where those from there on give it too. Else the instances
/// are unordered.
fn compare_in_blocks<S: LendsTerms, T: LendsTerms>(
    left: &Term,
    left_bind: &S,
    right: &Term,
    right_bind: &T,
    answer: Cmp,
    from: u64,
) -> Cmp
    requires left_size { tree_size (instance (S.meaning left_bind.now) (tree_of left.now)) < COMPARED_SIZE_LIMIT }
    requires right_size { tree_size (instance (T.meaning right_bind.now) (tree_of right.now)) < COMPARED_SIZE_LIMIT }
    requires strict { IsStrict answer }
    requires answered { Answers (GreaterOn (Below from)) answer
        (instance (S.meaning left_bind.now) (tree_of left.now)) (instance (T.meaning right_bind.now) (tree_of right.now)) }
    requires left_numbers { IsNumbered (instance (S.meaning left_bind.now) (tree_of left.now)) }
    requires right_numbers { IsNumbered (instance (T.meaning right_bind.now) (tree_of right.now)) }
    ensures { comparison_of result ≡ compare_trees
        (instance (S.meaning left_bind.now) (tree_of left.now)) (instance (T.meaning right_bind.now) (tree_of right.now)) }
{
    let mut start = from;
    while start < VARIABLES {
        let block = compare_in_block(left, left_bind, right, right_bind, start);
        if block.answer != answer {
            return Cmp::Unordered;
        }
        start = block.next;
    }
    answer
}

/// The answer for one block of variables, and where the next block begins.
#[derive(Drop)]
pub struct BlockAnswer {
    pub answer: Cmp,
    pub next: u64,
}

/// Compares two instances with the variable condition for the variables of one block alone.
pub fn compare_in_block<S: LendsTerms, T: LendsTerms>(
    left: &Term,
    left_bind: &S,
    right: &Term,
    right_bind: &T,
    start: u64,
) -> BlockAnswer
    requires left_size { tree_size (instance (S.meaning left_bind.now) (tree_of left.now)) < COMPARED_SIZE_LIMIT }
    requires right_size { tree_size (instance (T.meaning right_bind.now) (tree_of right.now)) < COMPARED_SIZE_LIMIT }
    requires start { start < 2 ^ 32 }
    ensures answer { Answers (GreaterOn (InBlock start)) result.answer
        (instance (S.meaning left_bind.now) (tree_of left.now)) (instance (T.meaning right_bind.now) (tree_of right.now)) }
    ensures next { start + 32 ≤ result.next }
    ensures left_numbers { IsNumbered (instance (S.meaning left_bind.now) (tree_of left.now)) }
    ensures right_numbers { IsNumbered (instance (T.meaning right_bind.now) (tree_of right.now)) }
    ensures left_clear { IsClear start result.next (instance (S.meaning left_bind.now) (tree_of left.now)) }
    ensures right_clear { IsClear start result.next (instance (T.meaning right_bind.now) (tree_of right.now)) }
{
    let mut balance = Balance::starting_at(start);
    let answer = balance.compare(left, left_bind, false, right, right_bind, false);
    BlockAnswer {
        answer,
        next: balance.next,
    }
}
