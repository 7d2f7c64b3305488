// Whether one application is greater than another, asked one way: the right one is met last, and no further than to where it has more
// than the left one.

ghost use Rattle.std.specs.Prelude.{◌≡◌, ◌+◌, ◌<◌, ◌^◌, if◌then◌else◌, IsTrue};
ghost use Rattle.fol_base.specs.Tree.{application, tree_size, trees_size, tree_variables, trees_variables};
ghost use Rattle.fol_base.specs.Term.{tree_of};
ghost use Rattle.kbo_order.specs.Reading.{seen, seen_from};

use crate::balance::{Balance, LEVEL};
use crate::reading::head;
use fol_base::{LendsTerms, Side, Term};

/// The least weight of a greater term: at equal sizes the tie decides.
fn least_weight(wins_tie: bool) -> u64
    ensures { result ≡ (if wins_tie then 2 ^ 63 else 2 ^ 63 + 1) }
{
    if wins_tie { LEVEL } else { LEVEL + 1 }
}

impl Balance {
    ghost use Rattle.kbo_order.specs.Balance.{Consistent, HasRoom, IsLevel, Covers, IsCovered};
    ghost use Rattle.kbo_order.specs.Exceeding.{Exceeds};

    /// Whether one application is greater than another with the variable condition for the variables of the block alone. It may be
    /// told that they are of one size: then the tie alone may refuse.
    pub fn exceeds<S: LendsTerms, T: LendsTerms>(
        &mut self,
        first: u32,
        left: &[Term],
        left_bind: &S,
        left_bound: bool,
        second: u32,
        right: &[Term],
        right_bind: &T,
        right_bound: bool,
        same_size: bool,
    ) -> bool
        requires level { IsLevel self.old }
        requires room { trees_size (seen_from left_bound (S.meaning left_bind.now) left.now 0)
            + trees_size (seen_from right_bound (T.meaning right_bind.now) right.now 0) < 2 ^ 63 }
        requires same_size { IsTrue same_size
            → trees_size (seen_from left_bound (S.meaning left_bind.now) left.now 0)
            ≡ trees_size (seen_from right_bound (T.meaning right_bind.now) right.now 0) }
        ensures { Exceeds result self.old self.new
            (application first (seen_from left_bound (S.meaning left_bind.now) left.now 0))
            (application second (seen_from right_bound (T.meaning right_bind.now) right.now 0)) }
    {
        let found = self.difference(
            first,
            left,
            left_bind,
            left_bound,
            second,
            right,
            right_bind,
            right_bound,
        );
        let wins_tie = found.tie.is_greater();
        if same_size && !wins_tie {
            return false;
        }
        let least = least_weight(wins_tie);
        self.add_from(Side::Left, left, left_bind, left_bound, found.rest);
        if !self.is_covered(least) {
            return false;
        }
        if !self.cover_from(least, right, right_bind, right_bound, found.rest) {
            return false;
        }
        self.is_covered(least)
    }

    /// Whether all together are as many as the least weight tells, and no variable of the block stands more often on the right.
    fn is_covered(&self, least: u64) -> bool
        requires { Consistent self.now }
        ensures { IsCovered result least self.now }
    {
        if self.weight < least {
            return false;
        }
        self.more_right == 0
    }

    /// Counts what stands in a term that is met on the right, up to where more stands there than on the left.
    #[cycle(cover)]
    fn cover<S: LendsTerms>(&mut self, least: u64, term: &Term, bind: &S, is_bound: bool) -> bool
        requires consistent { Consistent self.old }
        requires room { HasRoom self.old (tree_size (seen is_bound (S.meaning bind.now) (tree_of term.now))) }
        ensures { Covers result least self.old self.new
            (tree_variables (seen is_bound (S.meaning bind.now) (tree_of term.now)))
            (tree_size (seen is_bound (S.meaning bind.now) (tree_of term.now))) }
    {
        if self.weight <= least {
            return false;
        }
        let top = head(term, bind, is_bound);
        match top.term {
            Term::Var(number) => {
                self.count(Side::Right, *number);
                self.more_right == 0
            }
            Term::App(_, arguments) => {
                self.weigh(Side::Right);
                self.cover_from(least, arguments.as_slice(), bind, top.is_bound, 0)
            }
        }
    }

    /// Covers the terms from an index on.
    #[cycle(cover)]
    fn cover_from<S: LendsTerms>(
        &mut self,
        least: u64,
        terms: &[Term],
        bind: &S,
        is_bound: bool,
        from: usize,
    ) -> bool
        requires consistent { Consistent self.old }
        requires room { HasRoom self.old (trees_size (seen_from is_bound (S.meaning bind.now) terms.now from)) }
        ensures { Covers result least self.old self.new
            (trees_variables (seen_from is_bound (S.meaning bind.now) terms.now from))
            (trees_size (seen_from is_bound (S.meaning bind.now) terms.now from)) }
    {
        for index in from..terms.len() {
            if !self.cover(least, &terms[index], bind, is_bound) {
                return false;
            }
        }
        true
    }
}
