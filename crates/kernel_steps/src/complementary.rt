// Complements of literals: equal sides, and the opposite sign.

ghost use Rattle.std.specs.Prelude.{◌≡◌, [], ◌∷◌, map};
ghost use Rattle.fol_base.specs.Lent.{lent_of};
ghost use Rattle.fol_base.specs.Clause.{literals_eq};
ghost use Rattle.fol_base.specs.Literal.{literal_of};
ghost use Rattle.kernel_steps.specs.Derivation.{complement};

use fol_base::{Literal, LiteralRef, same_literal};

/// The literal with the other sign.
pub fn complement(literal: LiteralRef<'_>) -> LiteralRef<'_>
    ensures { lent_of result ≡ complement (lent_of literal.entry) }
{
    LiteralRef {
        positive: !literal.positive,
        left: literal.left,
        right: literal.right,
    }
}

/// Whether literals are the complement of a literal alone.
pub fn is_complement(literal: &Literal, literals: &[Literal]) -> bool
    ensures { result ≡ literals_eq (complement (literal_of literal.now) ∷ []) (map literal_of literals.now) }
{
    match literals {
        [other] => same_literal(complement(literal.lend()), other.lend()),
        _ => false,
    }
}
