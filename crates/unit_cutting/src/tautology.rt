// Tautologies.

ghost use Rattle.std.specs.Prelude.{◌≡◌, map};
ghost use Rattle.std.specs.List.{list_any};
ghost use Rattle.fol_base.specs.Literal.{clause_of, literal_of};
ghost use Rattle.fol_base.specs.Order.{equivalent_literals};
ghost use Rattle.fol_base.specs.Lent.{lent_of};
ghost use Rattle.kernel_steps.specs.Inference.{is_tautology, makes_tautology};

use fol_base::{Clause, Literal, LiteralRef, equivalent_literals, same_term};

/// Whether a clause has a literal `t = t`, or one beside its complement, sides in either order.
pub fn is_tautology(clause: &Clause) -> bool
    ensures { result ≡ is_tautology (clause_of clause.now) }
{
    any_makes_tautology(clause.literals.as_slice())
}

/// Whether one of the literals is `t = t`, or its complement is among them.
fn any_makes_tautology(literals: &[Literal]) -> bool
    ensures { result ≡ list_any (λ l. makes_tautology (map literal_of literals.now) (literal_of l)) literals.now }
{
    literals
        .iter()
        .any(|literal| makes_tautology(literals, literal))
}

/// Whether a literal is `t = t`, or its complement is among literals.
fn makes_tautology(literals: &[Literal], literal: &Literal) -> bool
    ensures { result ≡ makes_tautology (map literal_of literals.now) (literal_of literal.now) }
{
    (literal.positive && same_term(&literal.left, &literal.right))
        || has_equivalent(
            literals,
            LiteralRef {
                positive: !literal.positive,
                left: &literal.left,
                right: &literal.right,
            },
        )
}

/// Whether a literal is among literals, sides in either order.
fn has_equivalent(literals: &[Literal], wanted: LiteralRef<'_>) -> bool
    ensures { result ≡ list_any (equivalent_literals (lent_of wanted.entry)) (map literal_of literals.now) }
{
    is_among(literals, wanted)
}

/// A literal is true whatever its variables stand for.
fn is_among(literals: &[Literal], wanted: LiteralRef<'_>) -> bool
    ensures { result ≡ list_any (λ l. equivalent_literals (lent_of wanted.entry) (literal_of l)) literals.now }
{
    literals
        .iter()
        .any(|other| equivalent_literals(wanted, other.lend()))
}
