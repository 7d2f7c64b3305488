// The walk down two terms side by side, which compares them for one block of variables.

ghost use Rattle.std.specs.Prelude.{◌≡◌, ◌+◌, ◌<◌, ◌^◌, ℕ, true};
ghost use Rattle.fol_base.specs.Tree.{application, tree_size, trees_size, tree_variables, trees_variables};
ghost use Rattle.fol_base.specs.Term.{tree_of};
ghost use Rattle.fol_base.specs.declared.term.Term.TheVariants.{Var};
ghost use Rattle.kbo_order.specs.Block.{Answers, InBlock, GreaterOn, TieOn};
ghost use Rattle.kbo_order.specs.Reading.{seen, seen_from};

use crate::balance::Balance;
use crate::cmp::Cmp;
use crate::reading::head;
use fol_base::{LendsTerms, Side, Term};

/// The tie-break between two applications of equal size.
#[derive(Drop)]
pub struct Difference {
    pub tie: Cmp,
    /// The arguments before this index were met, and those from it on weren't.
    pub rest: usize,
}

impl Balance {
    ghost use Rattle.kbo_order.specs.Balance.{Consistent, IsLevel, HasRoom, Met, PartlyMet};

    /// Compares two terms, each under its own substitution, with the variable condition for the variables of the block alone, and
    /// counts what stands in them.
    #[cycle(compare)]
    pub fn compare<S: LendsTerms, T: LendsTerms>(
        &mut self,
        left: &Term,
        left_bind: &S,
        left_bound: bool,
        right: &Term,
        right_bind: &T,
        right_bound: bool,
    ) -> Cmp
        requires level { IsLevel self.old }
        requires room { tree_size (seen left_bound (S.meaning left_bind.now) (tree_of left.now))
            + tree_size (seen right_bound (T.meaning right_bind.now) (tree_of right.now)) < 2 ^ 63 }
        ensures answer { Answers (GreaterOn (InBlock self.old.start)) result
            (seen left_bound (S.meaning left_bind.now) (tree_of left.now))
            (seen right_bound (T.meaning right_bind.now) (tree_of right.now)) }
        ensures met { Met self.old self.new
            (tree_variables (seen left_bound (S.meaning left_bind.now) (tree_of left.now)))
            (tree_size (seen left_bound (S.meaning left_bind.now) (tree_of left.now)))
            (tree_variables (seen right_bound (T.meaning right_bind.now) (tree_of right.now)))
            (tree_size (seen right_bound (T.meaning right_bind.now) (tree_of right.now))) }
    {
        let left = head(left, left_bind, left_bound);
        let right = head(right, right_bind, right_bound);
        let tie = self.tie(
            left.term,
            left_bind,
            left.is_bound,
            right.term,
            right_bind,
            right.is_bound,
        );
        self.decide(tie)
    }

    /// The tie-break at equal sizes: the heads, and then the arguments.
    #[cycle(compare)]
    #[inline(always)]
    fn tie<S: LendsTerms, T: LendsTerms>(
        &mut self,
        left: &Term,
        left_bind: &S,
        left_bound: bool,
        right: &Term,
        right_bind: &T,
        right_bound: bool,
    ) -> Cmp
        requires level { IsLevel self.old }
        requires room { tree_size (seen left_bound (S.meaning left_bind.now) (tree_of left.now))
            + tree_size (seen right_bound (T.meaning right_bind.now) (tree_of right.now)) < 2 ^ 63 }
        requires left_followed { (v : ℕ) → left.now ≡ Var v → left_bound ≡ true }
        requires right_followed { (v : ℕ) → right.now ≡ Var v → right_bound ≡ true }
        ensures answer { Answers (TieOn (InBlock self.old.start)) result
            (seen left_bound (S.meaning left_bind.now) (tree_of left.now))
            (seen right_bound (T.meaning right_bind.now) (tree_of right.now)) }
        ensures met { Met self.old self.new
            (tree_variables (seen left_bound (S.meaning left_bind.now) (tree_of left.now)))
            (tree_size (seen left_bound (S.meaning left_bind.now) (tree_of left.now)))
            (tree_variables (seen right_bound (T.meaning right_bind.now) (tree_of right.now)))
            (tree_size (seen right_bound (T.meaning right_bind.now) (tree_of right.now))) }
    {
        match left {
            Term::App(first, ones) => match right {
                Term::App(second, others) => {
                    let ones = ones.as_slice();
                    let others = others.as_slice();
                    let found = self.difference(
                        *first,
                        ones,
                        left_bind,
                        left_bound,
                        *second,
                        others,
                        right_bind,
                        right_bound,
                    );
                    self.meet_rest(
                        ones,
                        left_bind,
                        left_bound,
                        others,
                        right_bind,
                        right_bound,
                        found.rest,
                    );
                    found.tie
                }
                Term::Var(_) => {
                    self.meet(left, left_bind, left_bound, right, right_bind, right_bound);
                    Cmp::Unordered
                }
            },
            Term::Var(first) => match right {
                Term::App(_, _) => {
                    self.meet(left, left_bind, left_bound, right, right_bind, right_bound);
                    Cmp::Unordered
                }
                Term::Var(second) => {
                    if *first == *second {
                        self.pass(*first);
                        return Cmp::Equal;
                    }
                    self.meet(left, left_bind, left_bound, right, right_bind, right_bound);
                    Cmp::Unordered
                }
            },
        }
    }

    /// The tie-break between two applications of equal size: the symbols, and then the first two arguments that differ. Equal
    /// arguments leave the balance level, and those after the first difference aren't met.
    #[cycle(compare)]
    pub fn difference<S: LendsTerms, T: LendsTerms>(
        &mut self,
        first: u32,
        left: &[Term],
        left_bind: &S,
        left_bound: bool,
        second: u32,
        right: &[Term],
        right_bind: &T,
        right_bound: bool,
    ) -> Difference
        requires level { IsLevel self.old }
        requires room { trees_size (seen_from left_bound (S.meaning left_bind.now) left.now 0)
            + trees_size (seen_from right_bound (T.meaning right_bind.now) right.now 0) < 2 ^ 63 }
        ensures tie { Answers (TieOn (InBlock self.old.start)) result.tie
            (application first (seen_from left_bound (S.meaning left_bind.now) left.now 0))
            (application second (seen_from right_bound (T.meaning right_bind.now) right.now 0)) }
        ensures met { PartlyMet self.old self.new
            (seen_from left_bound (S.meaning left_bind.now) left.now 0)
            (seen_from left_bound (S.meaning left_bind.now) left.now result.rest)
            (seen_from right_bound (T.meaning right_bind.now) right.now 0)
            (seen_from right_bound (T.meaning right_bind.now) right.now result.rest) }
    {
        if first > second {
            return Difference {
                tie: Cmp::Greater,
                rest: 0,
            };
        }
        if first < second {
            return Difference {
                tie: Cmp::Less,
                rest: 0,
            };
        }
        let common = left.len().min(right.len());
        for index in 0..common {
            let found = self.compare(
                &left[index],
                left_bind,
                left_bound,
                &right[index],
                right_bind,
                right_bound,
            );
            match found {
                Cmp::Equal => {}
                _ => {
                    return Difference {
                        tie: found,
                        rest: index + 1,
                    };
                }
            }
        }
        let tie = if left.len() == right.len() {
            Cmp::Equal
        } else {
            Cmp::Unordered
        };
        Difference { tie, rest: common }
    }

    /// Counts what stands in two terms.
    fn meet<S: LendsTerms, T: LendsTerms>(
        &mut self,
        left: &Term,
        left_bind: &S,
        left_bound: bool,
        right: &Term,
        right_bind: &T,
        right_bound: bool,
    )
        requires consistent { Consistent self.old }
        requires room { HasRoom self.old (tree_size (seen left_bound (S.meaning left_bind.now) (tree_of left.now))
            + tree_size (seen right_bound (T.meaning right_bind.now) (tree_of right.now))) }
        ensures { Met self.old self.new
            (tree_variables (seen left_bound (S.meaning left_bind.now) (tree_of left.now)))
            (tree_size (seen left_bound (S.meaning left_bind.now) (tree_of left.now)))
            (tree_variables (seen right_bound (T.meaning right_bind.now) (tree_of right.now)))
            (tree_size (seen right_bound (T.meaning right_bind.now) (tree_of right.now))) }
    {
        self.add(Side::Left, left, left_bind, left_bound);
        self.add(Side::Right, right, right_bind, right_bound);
    }

    /// Counts what stands in the terms of two lists from an index on.
    #[inline(always)]
    fn meet_rest<S: LendsTerms, T: LendsTerms>(
        &mut self,
        left: &[Term],
        left_bind: &S,
        left_bound: bool,
        right: &[Term],
        right_bind: &T,
        right_bound: bool,
        from: usize,
    )
        requires consistent { Consistent self.old }
        requires room { HasRoom self.old (trees_size (seen_from left_bound (S.meaning left_bind.now) left.now from)
            + trees_size (seen_from right_bound (T.meaning right_bind.now) right.now from)) }
        ensures { Met self.old self.new
            (trees_variables (seen_from left_bound (S.meaning left_bind.now) left.now from))
            (trees_size (seen_from left_bound (S.meaning left_bind.now) left.now from))
            (trees_variables (seen_from right_bound (T.meaning right_bind.now) right.now from))
            (trees_size (seen_from right_bound (T.meaning right_bind.now) right.now from)) }
    {
        self.add_from(Side::Left, left, left_bind, left_bound, from);
        self.add_from(Side::Right, right, right_bind, right_bound, from);
    }
}
