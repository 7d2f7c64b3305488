// Parts as keys of a table: owned, and lent for a look-up.

ghost use Rattle.std.specs.Cmp.{on_equiv, partial_equiv_from_equiv};
ghost use Rattle.std.specs.Hash as fed;
ghost use Rattle.std.specs.Ordering.{on};
ghost use Rattle.fol_base.specs.Clause.{literals_eq};
ghost use Rattle.split_parts.specs.PartHash.{part_hash};
ghost use Rattle.split_parts.specs.PartKeys.{key_part, lent_part, opposite_part, same_part, same_parts, literals_equiv, parts_hash_alike};

use crate::hash::{complement_hash, part_hash};
use fol_base::{Literal, Literals, same_literal, same_literals};
use indexmap::Equivalent;
use kernel_steps::is_complement;
use std::hash::{Hash, Hasher};

/// A part of which the table owns the literals.
#[derive(Drop)]
pub struct PartKey {
    pub literals: Literals,
}

/// A part of which the literals are lent.
#[derive(Clone, Copy)]
pub struct PartRef<'a> {
    pub literals: &'a [Literal],
}

impl PartialEq for PartKey {
    ghost eq = { same_part };

    ghost laws = { partial_equiv_from_equiv same_parts };

    fn eq(&self, other: &PartKey) -> bool {
        same_literals(&self.literals, &other.literals)
    }
}

impl Eq for PartKey {
    ghost laws = { same_parts };
}

impl Hash for PartKey {
    ghost hash_input = { λ k. fed.u64 (part_hash 0 (key_part k)) };

    ghost respects_eq = { λ k j. parts_hash_alike (key_part k) (key_part j) };

    fn hash<H: Hasher>(&self, state: &mut H) {
        state.write_u64(part_hash(self.literals.as_slice()));
    }
}

impl<'a> PartialEq for PartRef<'a> {
    ghost eq = { on lent_part literals_eq };

    ghost laws = { partial_equiv_from_equiv (on_equiv lent_part literals_equiv) };

    fn eq(&self, other: &PartRef<'a>) -> bool {
        same_literals(&self.literals, &other.literals)
    }
}

impl<'a> Eq for PartRef<'a> {
    ghost laws = { on_equiv lent_part literals_equiv };
}

impl<'a> Hash for PartRef<'a> {
    ghost hash_input = { λ r. fed.u64 (part_hash 0 (lent_part r)) };

    ghost respects_eq = { λ r s. parts_hash_alike (lent_part r) (lent_part s) };

    fn hash<H: Hasher>(&self, state: &mut H) {
        state.write_u64(part_hash(self.literals));
    }
}

impl<'a> Equivalent<PartKey> for PartRef<'a> {
    ghost equivalent = { λ r k. literals_eq (lent_part r) (key_part k) };

    ghost respects_hash = { λ r k. parts_hash_alike (lent_part r) (key_part k) };

    ghost respects_eq = { λ r k j. literals_equiv.congr (lent_part r) (key_part k) (key_part j) };

    fn equivalent(&self, key: &PartKey) -> bool {
        same_literals(&self.literals, &key.literals)
    }
}

/// The part of one literal with the opposite sign of the literal that is lent.
#[derive(Clone, Copy)]
pub struct OppositeRef<'a> {
    pub literal: &'a Literal,
}

impl<'a> PartialEq for OppositeRef<'a> {
    ghost eq = { on opposite_part literals_eq };

    ghost laws = { partial_equiv_from_equiv (on_equiv opposite_part literals_equiv) };

    fn eq(&self, other: &OppositeRef<'a>) -> bool {
        same_literal(self.literal.lend(), other.literal.lend())
    }
}

impl<'a> Eq for OppositeRef<'a> {
    ghost laws = { on_equiv opposite_part literals_equiv };
}

impl<'a> Hash for OppositeRef<'a> {
    ghost hash_input = { λ r. fed.u64 (part_hash 0 (opposite_part r)) };

    ghost respects_eq = { λ r s. parts_hash_alike (opposite_part r) (opposite_part s) };

    fn hash<H: Hasher>(&self, state: &mut H) {
        state.write_u64(complement_hash(self.literal));
    }
}

impl<'a> Equivalent<PartKey> for OppositeRef<'a> {
    ghost equivalent = { λ r k. literals_eq (opposite_part r) (key_part k) };

    ghost respects_hash = { λ r k. parts_hash_alike (opposite_part r) (key_part k) };

    ghost respects_eq = { λ r k j. literals_equiv.congr (opposite_part r) (key_part k) (key_part j) };

    fn equivalent(&self, key: &PartKey) -> bool {
        is_complement(self.literal, key.literals.as_slice())
    }
}
