// Which variables and how many symbols occur more often on one side of a comparison than on the other: all occurrences together, and those of the variables of
// a block.

ghost use Rattle.std.specs.Prelude.{◌≡◌, ◌+◌, ◌-◌, ◌<◌, ◌≤◌, ◌^◌, [], ◌∷◌};
ghost use Rattle.fol_base.specs.Tree.{tree_size, trees_size, tree_variables, trees_variables};
ghost use Rattle.fol_base.specs.Term.{tree_of};
ghost use Rattle.kbo_order.specs.Reading.{seen, seen_from};

use crate::cmp::Cmp;
use crate::reading::head;
use fol_base::{LendsTerms, Side, Term};
use std::cmp::Ordering;

/// How many variables are counted in one walk. Their numbers follow one another.
pub const BLOCK: usize = 32;

/// The value of a level balance. A difference is kept from here up and down, so that it is never negative.
pub const LEVEL: u64 = 1 << 63;

/// The differences, from LEVEL on. Where the same was met on both sides they are level.
#[derive(Drop)]
pub struct Balance {
    /// The first variable of the block.
    pub start: u64,
    /// The occurrences of symbols and variables on the left, less those on the right.
    pub weight: u64,
    /// The difference for each variable of the block.
    pub counts: [u64; BLOCK],
    /// How many variables of the block stand more often on the left.
    pub more_left: u64,
    /// How many variables of the block stand more often on the right.
    pub more_right: u64,
    /// The least variable past the block that was met; where none was, u64's last value.
    pub next: u64,
}

impl Balance {
    ghost use Rattle.std.specs.Prelude.{slice_index, slice_set};
    ghost use Rattle.kbo_order.specs.Balance.{Consistent, HasRoom, IsLevel, Met, MetOn, by_size, by_variables};

    /// Nothing was met.
    pub fn starting_at(start: u64) -> Balance
        ensures start { result.start ≡ start }
        ensures level { IsLevel result }
        ensures none_past { result.next ≡ 2 ^ 64 - 1 }
    {
        Balance {
            start,
            weight: LEVEL,
            counts: [LEVEL; BLOCK],
            more_left: 0,
            more_right: 0,
            next: u64::MAX,
        }
    }

    /// Counts what stands in a term that is met on one side.
    #[cycle(add)]
    pub fn add<S: LendsTerms>(&mut self, side: Side, term: &Term, bind: &S, is_bound: bool)
        requires consistent { Consistent self.old }
        requires room { HasRoom self.old (tree_size (seen is_bound (S.meaning bind.now) (tree_of term.now))) }
        ensures { MetOn side self.old self.new
            (tree_variables (seen is_bound (S.meaning bind.now) (tree_of term.now)))
            (tree_size (seen is_bound (S.meaning bind.now) (tree_of term.now))) }
    {
        let top = head(term, bind, is_bound);
        match top.term {
            Term::Var(number) => self.count(side, *number),
            Term::App(_, arguments) => {
                self.weigh(side);
                self.add_from(side, arguments.as_slice(), bind, top.is_bound, 0);
            }
        }
    }

    /// Counts what stands in the terms from an index on.
    #[cycle(add)]
    pub fn add_from<S: LendsTerms>(
        &mut self,
        side: Side,
        terms: &[Term],
        bind: &S,
        is_bound: bool,
        from: usize,
    )
        requires consistent { Consistent self.old }
        requires room { HasRoom self.old (trees_size (seen_from is_bound (S.meaning bind.now) terms.now from)) }
        ensures { MetOn side self.old self.new
            (trees_variables (seen_from is_bound (S.meaning bind.now) terms.now from))
            (trees_size (seen_from is_bound (S.meaning bind.now) terms.now from)) }
    {
        for index in from..terms.len() {
            self.add(side, &terms[index], bind, is_bound);
        }
    }

    /// Counts an occurrence of a variable on one side.
    pub fn count(&mut self, side: Side, number: u32)
        requires consistent { Consistent self.old }
        requires room { HasRoom self.old 1 }
        ensures { MetOn side self.old self.new (number ∷ []) 1 }
    {
        self.weigh(side);
        let number = u64::from(number);
        if number < self.start {
            return;
        }
        let index = (number - self.start) as usize;
        if index >= BLOCK {
            self.next = self.next.min(number);
            return;
        }
        match side {
            Side::Left => self.raise(index),
            Side::Right => self.lower(index),
        }
    }

    /// Counts an occurrence of whatever it is on one side.
    #[inline(always)]
    pub fn weigh(&mut self, side: Side)
        requires consistent { Consistent self.old }
        requires up { self.old.weight + 1 < 2 ^ 64 }
        requires down { 1 ≤ self.old.weight }
        ensures { MetOn side self.old self.new [] 1 }
    {
        match side {
            Side::Left => self.weight += 1,
            Side::Right => self.weight -= 1,
        }
    }

    /// One occurrence more of a variable on the left.
    fn raise(&mut self, index: usize)
        requires consistent { Consistent self.old }
        requires in_range { index < 32 }
        requires room { slice_index self.old.counts index + 1 < 2 ^ 64 }
        ensures consistent { Consistent self.new }
        ensures counts { self.new.counts ≡ slice_set self.old.counts index (slice_index self.old.counts index + 1) }
        ensures start { self.new.start ≡ self.old.start }
        ensures weight { self.new.weight ≡ self.old.weight }
        ensures next { self.new.next ≡ self.old.next }
    {
        let count = self.counts[index];
        self.more_left += u64::from(count == LEVEL);
        self.more_right -= u64::from(count + 1 == LEVEL);
        self.counts[index] = count + 1;
    }

    /// One occurrence more of a variable on the right.
    fn lower(&mut self, index: usize)
        requires consistent { Consistent self.old }
        requires in_range { index < 32 }
        requires room { 1 ≤ slice_index self.old.counts index }
        ensures consistent { Consistent self.new }
        ensures counts { self.new.counts ≡ slice_set self.old.counts index (slice_index self.old.counts index - 1) }
        ensures start { self.new.start ≡ self.old.start }
        ensures weight { self.new.weight ≡ self.old.weight }
        ensures next { self.new.next ≡ self.old.next }
    {
        let count = self.counts[index];
        self.more_right += u64::from(count == LEVEL);
        self.more_left -= u64::from(count - 1 == LEVEL);
        self.counts[index] = count - 1;
    }

    /// Passes a variable that is met on both sides.
    pub fn pass(&mut self, number: u32)
        requires { Consistent self.old }
        ensures { Met self.old self.new (number ∷ []) 1 (number ∷ []) 1 }
    {
        let number = u64::from(number);
        if number >= self.start && number - self.start >= BLOCK as u64 {
            self.next = self.next.min(number);
        }
    }

    /// The answer for two terms that were met, once it is known what decides at equal sizes.
    #[inline(always)]
    pub fn decide(&self, tie: Cmp) -> Cmp
        ensures { result ≡ by_variables self.now.more_left self.now.more_right (by_size self.now.weight (2 ^ 63) tie) }
    {
        let larger = match self.weight.cmp(&LEVEL) {
            Ordering::Greater => Cmp::Greater,
            Ordering::Less => Cmp::Less,
            Ordering::Equal => tie,
        };
        match larger {
            Cmp::Greater if self.more_right > 0 => Cmp::Unordered,
            Cmp::Less if self.more_left > 0 => Cmp::Unordered,
            _ => larger,
        }
    }
}
