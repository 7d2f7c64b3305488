// Borrowed literals: a sign and two borrowed sides, of a clause of trees or of a clause of the bank.

ghost use mathlib.Core.Bool.{beq};
ghost use Rattle.std.specs.Prelude.{◌≡◌, ◌≤◌, ◌-◌, ◌^◌, min, IfOk};
ghost use Rattle.fol_base.specs.Term.{tree_of};
ghost use Rattle.fol_base.specs.Clause.{literal_eq, literal_size, literal_variables};
ghost use Rattle.fol_base.specs.Canonical.{bound_of};
ghost use Rattle.fol_base.specs.Sides.{side_of, other_side_of, exchanged};
ghost use Rattle.fol_base.specs.Order.{equivalent_literals};
ghost use Rattle.fol_base.specs.Literal.{literal_of};
ghost use Rattle.fol_base.specs.Lent.{lent_of};

use crate::clause::{Literal, Side};
use crate::equality::same_term;
use crate::term::Term;
use plain_types::Mem;
use std::alloc::Global;

/// A literal of which the terms are lent. A clause of trees and a clause of the bank lend theirs alike.
#[derive(Clone, Copy)]
pub struct LiteralRef<'a> {
    pub positive: bool,
    pub left: &'a Term,
    pub right: &'a Term,
}

impl<'a> LiteralRef<'a> {
    /// A side.
    pub fn side(self, side: Side) -> &'a Term
        ensures { tree_of result.now ≡ side_of side (lent_of self.entry) }
    {
        match side {
            Side::Left => self.left,
            Side::Right => self.right,
        }
    }

    /// The other side.
    pub fn other_side(self, side: Side) -> &'a Term
        ensures { tree_of result.now ≡ other_side_of side (lent_of self.entry) }
    {
        match side {
            Side::Left => self.right,
            Side::Right => self.left,
        }
    }

    /// The literal with its sides exchanged.
    pub fn exchanged(self) -> LiteralRef<'a>
        ensures { lent_of result ≡ exchanged (lent_of self.entry) }
    {
        LiteralRef {
            positive: self.positive,
            left: self.right,
            right: self.left,
        }
    }

    /// The sizes of both sides together, stopping at u64's last value.
    pub fn size(self) -> u64
        ensures { result ≡ min (literal_size (lent_of self.entry)) (2 ^ 64 - 1) }
    {
        self.left.size().saturating_add(self.right.size())
    }

    /// One more than the highest variable's number, 0 where there is no variable.
    pub fn variable_bound(self) -> u64
        ensures value { result ≡ bound_of (literal_variables (lent_of self.entry)) }
        ensures limit { result ≤ 2 ^ 32 }
    {
        self.left.variable_bound().max(self.right.variable_bound())
    }

    /// A literal that owns equal terms.
    pub fn copy(self, alloc: Global) -> Mem<Literal>
        ensures { IfOk result (λ literal. literal_of literal ≡ lent_of self.entry) }
    {
        let left = self.left.copy(alloc)?;
        let right = self.right.copy(alloc)?;
        Ok(Literal {
            positive: self.positive,
            left,
            right,
        })
    }
}

/// Whether two literals have equal signs, equal left sides and equal right sides.
pub fn same_literal(left: LiteralRef<'_>, right: LiteralRef<'_>) -> bool
    ensures { result ≡ literal_eq (lent_of left.entry) (lent_of right.entry) }
{
    left.positive == right.positive
        && same_term(left.left, right.left)
        && same_term(left.right, right.right)
}

/// Whether two literals have equal signs, and equal sides in either order.
pub fn equivalent_literals(left: LiteralRef<'_>, right: LiteralRef<'_>) -> bool
    ensures { result ≡ equivalent_literals (lent_of left.entry) (lent_of right.entry) }
{
    left.positive == right.positive
        && ((same_term(left.left, right.left) && same_term(left.right, right.right))
            || (same_term(left.left, right.right) && same_term(left.right, right.left)))
}
