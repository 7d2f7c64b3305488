// The clauses once more, each with its two watched literals in front: so the look at a clause reads these first, and all of it only where
// neither tells enough. What it comes to is believed, since a copy has the literals of its clause, in another order.

ghost use Rattle.std.specs.Prelude.{◌≡◌, ◌<◌, ◌≤◌, length, slice_index_or, IfOk, IfSome, IfNone};
ghost use Rattle.sat_core.specs.State.{SameLiterals};
ghost use Rattle.sat_core.specs.Search.{OthersFalse};
ghost use Rattle.sat_core.specs.Copies.{IsLook};

use crate::literals::CodedLiteral;
use crate::trail::Trail;
use crate::watches::Pair;
use plain_types::{Mem, NameLit};
use std::alloc::Global;
use std::marker::Model;

/// The result of the look at a copy.
#[derive(Clone, Copy)]
pub enum Look {
    /// This literal is true by its value, or the clause has no two literals to be watched by.
    True(CodedLiteral),
    /// The clause is watched by the second literal, which isn't false, in place of the false one; the first is the other.
    Moved(CodedLiteral, CodedLiteral),
    /// All literals but this one, which isn't true, are false.
    Closed(CodedLiteral),
}

/// The literals of a clause, in an order of their own. Contracts see the list.
#[derive(Drop)]
pub struct ClauseCopy {
    literals: Vec<CodedLiteral>,
}

impl Model for ClauseCopy {
    ghost use Rattle.sat_core.specs.Clause.{PropClause};

    ghost Value = { PropClause };

    ghost view = { λ a. a.literals.items };
}

impl ClauseCopy {
    /// A copy in the clause's own order.
    pub fn whole(alloc: Global, literals: &[NameLit]) -> Mem<ClauseCopy>
        ensures { IfOk result (λ copy. copy ≡ literals.now) }
    {
        let mut copy = Vec::with_capacity(alloc, literals.len())?;
        for literal in literals {
            copy.push(CodedLiteral::of(*literal))?;
        }
        Ok(ClauseCopy { literals: copy })
    }

    /// A copy that begins with the literals at two different indices, by which the clause is watched.
    pub fn watched(alloc: Global, literals: &[NameLit], pair: Pair) -> Mem<ClauseCopy>
        requires first { pair.first < length literals.now }
        requires second { pair.second < length literals.now }
        ensures { IfOk result (λ copy. SameLiterals copy literals.now) }
    {
        let Pair { first, second } = pair;
        let mut copy = Vec::with_capacity(alloc, literals.len())?;
        copy.push(CodedLiteral::of(literals[first]))?;
        copy.push(CodedLiteral::of(literals[second]))?;
        for (index, literal) in literals.iter().enumerate() {
            if index != first && index != second {
                copy.push(CodedLiteral::of(*literal))?;
            }
        }
        Ok(ClauseCopy { literals: copy })
    }

    /// Exchanges the first two literals where the first is the given one. Both are written in any case, since a branch here would be
    /// a toss of a coin.
    fn put_second(&mut self, given: CodedLiteral)
        requires { 2 ≤ length self.old }
        ensures same { SameLiterals self.new self.old }
        ensures count { length self.new ≡ length self.old }
    {
        let (first, second) = (self.literals[0], self.literals[1]);
        let is_first = first.is(given);
        self.literals[0] = if is_first { second } else { first };
        self.literals[1] = if is_first { first } else { second };
    }

    /// Looks for a literal that isn't false, where a watched one has become so.
    pub fn look(&mut self, trail: &Trail, falsified: CodedLiteral) -> Look
        ensures same { SameLiterals self.new self.old }
        ensures look { IsLook trail.now.slots.items self.old result }
    {
        if self.literals.len() < 2 {
            return Look::True(falsified);
        }
        self.put_second(falsified);
        let other = self.literals[0];
        if trail.seems_true(other) {
            return Look::True(other);
        }
        let Some(index) = open_index(self.literals.as_slice(), trail, other) else {
            return Look::Closed(other);
        };
        self.literals.swap(1, index);
        Look::Moved(other, self.literals[1])
    }
}

/// The index of a literal that isn't false and differs from the first one, which a clause may have twice.
fn open_index(literals: &[CodedLiteral], trail: &Trail, first: CodedLiteral) -> Option<usize>
    requires some { 0 < length literals.now }
    requires first { first ≡ slice_index_or literals.now 0 first }
    ensures some { IfSome result (λ i. i < length literals.now) }
    ensures none { IfNone result (OthersFalse trail.now.slots.items literals.now first) }
{
    for index in 1..literals.len() {
        let literal = literals[index];
        if !trail.is_surely_false(literal) && !first.is(literal) {
            return Some(index);
        }
    }
    None
}
