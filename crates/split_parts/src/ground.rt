// Parts of one ground literal.

ghost use Rattle.std.specs.Prelude.{◌≡◌, map};
ghost use Rattle.fol_base.specs.Tree.{trees_of};
ghost use Rattle.fol_base.specs.Term.{tree_of};
ghost use Rattle.fol_base.specs.Literal.{literal_of};
ghost use Rattle.fol_base.specs.Ground.{is_ground, are_ground};
ghost use Rattle.split_parts.specs.SignedNames.{is_ground_unit as ground_unit, is_ground_negative as ground_negative};

use fol_base::{Literal, Term};

/// Whether the literals are one ground literal.
pub(crate) fn is_ground_unit(literals: &[Literal]) -> bool
    ensures { result ≡ ground_unit (map literal_of literals.now) }
{
    literals.len() == 1 && is_ground_term(&literals[0].left) && is_ground_term(&literals[0].right)
}

/// Whether they are one ground negative literal. The sign is asked first, since the test of the sides walks them.
pub(crate) fn is_ground_negative(literals: &[Literal]) -> bool
    ensures { result ≡ ground_negative (map literal_of literals.now) }
{
    literals.len() == 1 && !literals[0].positive && is_ground_unit(literals)
}

#[cycle(ground)]
fn is_ground_term(term: &Term) -> bool
    ensures { result ≡ is_ground (tree_of term.now) }
{
    match term {
        Term::Var(_) => false,
        Term::App(_, arguments) => are_ground_terms(arguments.as_slice()),
    }
}

#[cycle(ground)]
fn are_ground_terms(terms: &[Term]) -> bool
    ensures { result ≡ are_ground (trees_of (map tree_of terms.now)) }
{
    for index in 0..terms.len() {
        if !is_ground_term(&terms[index]) {
            return false;
        }
    }
    true
}
