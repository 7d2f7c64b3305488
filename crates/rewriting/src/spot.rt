// Where a term stands, as far as a rewriting step asks.

ghost use Rattle.std.specs.Prelude.{◌≡◌, ◌<◌, IsTrue};
ghost use Rattle.fol_base.specs.Tree.{tree_size};
ghost use Rattle.fol_base.specs.Term.{tree_of};
ghost use Rattle.fol_base.specs.Instance.{instance};
ghost use Rattle.fol_base.specs.Lent.{lent_of};
ghost use Rattle.fol_base.specs.Order.{tree_greater};
ghost use Rattle.fol_base.specs.declared.limits.TheConstants.{SIZE_LIMIT};
ghost use Rattle.unifier.specs.Matching.{by_pairs};
ghost use Rattle.rewriting.specs.Redex.{inner, is_within, root_spot};
ghost use Rattle.rewriting.specs.Spots.{LimitFits, spot_of};

use fol_base::{LiteralRef, Side, Term, instance_size};
use kbo_order::{Unbound, greater_at_equal_sizes, greater_under};
use unifier::Matched;

/// A spot of a clause.
#[derive(Clone, Copy)]
pub(crate) struct Spot<'s> {
    /// At the root of a side of an atom.
    pub(crate) is_atom: bool,
    /// The new term has to be below this one, as at a root of an equation.
    pub(crate) limit: Option<&'s Term>,
}

impl<'s> Spot<'s> {
    /// Below the root of a side.
    pub(crate) fn inner() -> Spot<'s>
        ensures { spot_of result ≡ inner }
    {
        Spot {
            is_atom: false,
            limit: None,
        }
    }

    /// Whether it asks no more than one below the root of a side.
    pub(crate) fn is_inner(self) -> bool
        ensures { IsTrue result → spot_of self.entry ≡ inner }
    {
        match self.limit {
            None => !self.is_atom,
            Some(_) => false,
        }
    }

    /// At the root of a side of a literal.
    pub(crate) fn root(literal: LiteralRef<'s>, side: Side) -> Spot<'s>
        ensures { spot_of result ≡ root_spot side (lent_of literal.entry) }
    {
        let limit = if literal.positive {
            Some(literal.other_side(side))
        } else {
            None
        };
        Spot {
            is_atom: literal.right.is_truth(),
            limit,
        }
    }

    /// Whether an instance is within the limit of the spot.
    pub(crate) fn admits(self, new: &Term, terms: &Matched<'_>) -> bool
        requires size { tree_size (instance (by_pairs terms.now) (tree_of new.now)) < SIZE_LIMIT }
        requires limit { LimitFits (spot_of self) }
        ensures { result ≡ is_within (spot_of self.entry).limit (instance (by_pairs terms.now) (tree_of new.now)) }
    {
        match self.limit {
            None => true,
            Some(limit) => greater_under(limit, &Unbound, new, terms),
        }
    }
}

/// Whether an instance is smaller than a term, which has a size.
pub(crate) fn is_smaller(new: &Term, terms: &Matched<'_>, old: &Term, size: u64) -> bool
    requires size { size ≡ tree_size (tree_of old.now) }
    requires small { size < SIZE_LIMIT }
    ensures exact { result ≡ tree_greater (tree_of old.now) (instance (by_pairs terms.now) (tree_of new.now)) }
    ensures size { IsTrue result → tree_size (instance (by_pairs terms.now) (tree_of new.now)) < SIZE_LIMIT }
{
    let new_size = instance_size(new, terms);
    if new_size > size {
        return false;
    }
    if new_size == size {
        return greater_at_equal_sizes(old, &Unbound, new, terms);
    }
    greater_under(old, &Unbound, new, terms)
}
