// Which clauses have variables.

ghost use Rattle.std.specs.Prelude.{◌≡◌, ◌<◌, [], map, take, length, slice_index_or, IfSome, IfNone, IsTrue, IsFalse};
ghost use Rattle.fol_base.specs.Tree.{trees_of};
ghost use Rattle.fol_base.specs.Term.{tree_of};
ghost use Rattle.fol_base.specs.Literal.{literal_of};
ghost use Rattle.fol_base.specs.Ground.{is_ground, are_ground, is_ground_clause, is_ground_literal};
ghost use Rattle.herbrand_list.specs.Refuted.{ground_clauses, are_ground_clauses};

use fol_base::{Clauses, Literal, Term};

/// The number of the first clause that has a variable.
pub fn open_clause(list: &Clauses) -> Option<usize>
    ensures within { IfSome result (λ k. k < length list.now) }
    ensures open_one { IfSome result (λ k. IsFalse (is_ground_clause (slice_index_or (ground_clauses list.now) k []))) }
    ensures first { IfSome result (λ k. IsTrue (are_ground_clauses (take k (ground_clauses list.now)))) }
    ensures none { IfNone result (IsTrue (are_ground_clauses (ground_clauses list.now))) }
{
    let clauses = list.as_slice();
    for index in 0..clauses.len() {
        if !has_no_variables(clauses[index].literals.as_slice()) {
            return Some(index);
        }
    }
    None
}

/// Whether literals have no variables.
fn has_no_variables(literals: &[Literal]) -> bool
    ensures { result ≡ is_ground_clause (map literal_of literals.now) }
{
    for index in 0..literals.len() {
        if !is_ground_pair(&literals[index]) {
            return false;
        }
    }
    true
}

fn is_ground_pair(literal: &Literal) -> bool
    ensures { result ≡ is_ground_literal (literal_of literal.now) }
{
    is_ground_term(&literal.left) && is_ground_term(&literal.right)
}

#[cycle(closed)]
fn is_ground_term(term: &Term) -> bool
    ensures { result ≡ is_ground (tree_of term.now) }
{
    match term {
        Term::Var(_) => false,
        Term::App(_, arguments) => are_ground_terms(arguments.as_slice()),
    }
}

#[cycle(closed)]
fn are_ground_terms(terms: &[Term]) -> bool
    ensures { result ≡ are_ground (trees_of (map tree_of terms.now)) }
{
    for index in 0..terms.len() {
        if !is_ground_term(&terms[index]) {
            return false;
        }
    }
    true
}
