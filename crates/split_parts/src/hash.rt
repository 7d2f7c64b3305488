// The hash of a part, by which the table finds it.

ghost use Rattle.std.specs.Prelude.{◌≡◌, map};
ghost use Rattle.fol_base.specs.Literal.{literal_of};
ghost use Rattle.kernel_steps.specs.Derivation.{complement};
ghost use Rattle.term_bank.specs.Hash.{tree_hash};
ghost use Rattle.split_parts.specs.PartHash.{literal_hash, part_hash, signed};

use fol_base::Literal;
use term_bank::term_hash;

/// A part's hash, over its literals from left to right.
pub(crate) fn part_hash(literals: &[Literal]) -> u64
    ensures { result ≡ part_hash 0 (map literal_of literals.now) }
{
    let mut hash = 0;
    for literal in literals {
        hash = sides_hash(with_sign(hash, literal.positive), literal);
    }
    hash
}

/// The hash of the part that is the literal with the opposite sign.
pub(crate) fn complement_hash(literal: &Literal) -> u64
    ensures { result ≡ literal_hash 0 (complement (literal_of literal.now)) }
{
    sides_hash(with_sign(0, !literal.positive), literal)
}

/// A hash after a sign.
fn with_sign(hash: u64, positive: bool) -> u64
    ensures { result ≡ signed hash positive }
{
    if positive { hash } else { hash.wrapping_add(1) }
}

/// A hash after the sides of a literal.
fn sides_hash(hash: u64, literal: &Literal) -> u64
    ensures { result ≡ tree_hash (tree_hash hash (literal_of literal.now).left) (literal_of literal.now).right }
{
    term_hash(term_hash(hash, &literal.left), &literal.right)
}
