// Equality of terms, literals and clauses.

ghost use Rattle.std.specs.Prelude.{◌≡◌, map, length};
ghost use Rattle.fol_base.specs.Tree.{tree_eq, trees_eq, trees_of};
ghost use Rattle.fol_base.specs.Clause.{literals_eq, names_eq, clause_eq};
ghost use Rattle.fol_base.specs.Term.{tree_of};
ghost use Rattle.fol_base.specs.Literal.{clause_of};

use crate::clause::Clause;
use crate::lending::LendsLiterals;
use crate::literal_ref::same_literal;
use crate::term::Term;
use plain_types::NameLit;

/// Whether two terms are the same tree.
#[cycle(same)]
pub fn same_term(left: &Term, right: &Term) -> bool
    ensures { result ≡ tree_eq (tree_of left.now) (tree_of right.now) }
{
    match left {
        Term::Var(first) => match right {
            Term::Var(second) => *first == *second,
            Term::App(_, _) => false,
        },
        Term::App(first, ones) => match right {
            Term::Var(_) => false,
            Term::App(second, others) => *first == *second
                && same_terms(ones.as_slice(), others.as_slice()),
        },
    }
}

/// Whether two lists of terms are the same trees in the same order.
#[cycle(same)]
pub fn same_terms(left: &[Term], right: &[Term]) -> bool
    ensures { result ≡ trees_eq (trees_of (map tree_of left.now)) (trees_of (map tree_of right.now)) }
{
    if left.len() != right.len() {
        return false;
    }
    for index in 0..left.len() {
        if !same_term(&left[index], &right[index]) {
            return false;
        }
    }
    true
}

/// Whether two clauses have the same literals and the same names, in the same order.
pub fn same_clause(left: &Clause, right: &Clause) -> bool
    ensures { result ≡ clause_eq (clause_of left.now) (clause_of right.now) }
{
    same_literals(&left.literals, &right.literals)
        && same_names(left.names.as_slice(), right.names.as_slice())
}

/// Whether two lists have the same literals in the same order.
pub fn same_literals<L: LendsLiterals, M: LendsLiterals>(left: &L, right: &M) -> bool
    ensures { result ≡ literals_eq (L.meaning left.now) (M.meaning right.now) }
{
    let count = left.count();
    if count != right.count() {
        return false;
    }
    for index in 0..count {
        if !same_literal(left.literal(index), right.literal(index)) {
            return false;
        }
    }
    true
}

fn same_names(left: &[NameLit], right: &[NameLit]) -> bool
    ensures { result ≡ names_eq left.now right.now }
{
    let length = left.len();
    if length != right.len() {
        return false;
    }
    for index in 0..length {
        if left[index].positive != right[index].positive || left[index].name != right[index].name {
            return false;
        }
    }
    true
}
