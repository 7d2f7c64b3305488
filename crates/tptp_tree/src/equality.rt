// Equality of formulas. A list is compared from its first member on, where the lengths are equal.

ghost use Rattle.std.specs.Prelude.{◌≡◌, ◌&&◌, ◌↔◌, ◌∷◌, [], map, bytes_eq, IsTrue};
ghost use Rattle.tptp_tree.specs.Codes.{encoded, text_terms, encoded_formulas};
ghost use Rattle.tptp_tree.specs.Term.{terms_of, term_then};
ghost use Rattle.tptp_tree.specs.Formula.{formulas_of};
ghost use Rattle.tptp_tree.specs.Shape.{term_of, formula_of};
ghost use Rattle.tptp_tree.specs.Equality.{same_term, same_terms, same_formula};

use crate::formula::{Formula, FormulaBox};
use crate::term::{TreeTerm, TreeTerms};
use plain_types::{Text, Texts};

/// Whether two formulas are equal. The time is linear in the smaller one.
pub fn same_formula(left: &Formula, right: &Formula) -> bool
    ensures test { result ≡ same_formula (formula_of left.now) (formula_of right.now) }
    ensures equal { IsTrue result ↔ (formula_of left.now ≡ formula_of right.now) }
{
    are_same(left, right)
}

/// Whether two formulas are equal, down to their terms.
#[cycle(same_formula)]
fn are_same(left: &Formula, right: &Formula) -> bool
    ensures { result ≡ same_formula (formula_of left.now) (formula_of right.now) }
{
    match left {
        Formula::True => matches!(right, Formula::True),
        Formula::False => matches!(right, Formula::False),
        Formula::Pred(p, ts) => matches!(right, Formula::Pred(q, us) if same_atom(p, ts, q, us)),
        Formula::Equal(s, t) => matches!(right, Formula::Equal(u, v) if same_sides(s, t, u, v)),
        Formula::NotEqual(s, t) =>
            matches!(right, Formula::NotEqual(u, v) if same_sides(s, t, u, v)),
        Formula::Not(f) => matches!(right, Formula::Not(g) if same_negated(f, g)),
        Formula::And(fs) =>
            matches!(right, Formula::And(gs) if same_formulas(fs.as_slice(), gs.as_slice())),
        Formula::Or(fs) =>
            matches!(right, Formula::Or(gs) if same_formulas(fs.as_slice(), gs.as_slice())),
        Formula::Implies(f, g) => matches!(right, Formula::Implies(h, k) if same_pair(f, g, h, k)),
        Formula::Implied(f, g) => matches!(right, Formula::Implied(h, k) if same_pair(f, g, h, k)),
        Formula::Iff(f, g) => matches!(right, Formula::Iff(h, k) if same_pair(f, g, h, k)),
        Formula::Xor(f, g) => matches!(right, Formula::Xor(h, k) if same_pair(f, g, h, k)),
        Formula::Nor(f, g) => matches!(right, Formula::Nor(h, k) if same_pair(f, g, h, k)),
        Formula::Nand(f, g) => matches!(right, Formula::Nand(h, k) if same_pair(f, g, h, k)),
        Formula::All(xs, f) => matches!(right, Formula::All(ys, g) if same_bound(xs, f, ys, g)),
        Formula::Ex(xs, f) => matches!(right, Formula::Ex(ys, g) if same_bound(xs, f, ys, g)),
    }
}

/// Whether two lists of formulas are equal.
#[cycle(same_formula)]
fn same_formulas(left: &[Formula], right: &[Formula]) -> bool
    ensures { result ≡
        same_terms (encoded_formulas (formulas_of (map formula_of left.now))) (encoded_formulas (formulas_of (map formula_of right.now))) }
{
    if left.len() != right.len() {
        return false;
    }
    for index in 0..left.len() {
        if !are_same(&left[index], &right[index]) {
            return false;
        }
    }
    true
}

/// Whether two formulas after `~` are equal.
#[cycle(same_formula)]
fn same_negated(left: &FormulaBox, right: &FormulaBox) -> bool
    ensures { result ≡ same_terms (encoded_formulas (formulas_of (left.now ∷ []))) (encoded_formulas (formulas_of (right.now ∷ []))) }
{
    are_same(left.get(), right.get())
}

/// Whether two pairs of formulas are equal.
#[cycle(same_formula)]
fn same_pair(
    first: &FormulaBox,
    second: &FormulaBox,
    first_other: &FormulaBox,
    second_other: &FormulaBox,
) -> bool
    ensures { result ≡ same_terms (encoded_formulas (formulas_of (first.now ∷ second.now ∷ [])))
        (encoded_formulas (formulas_of (first_other.now ∷ second_other.now ∷ []))) }
{
    are_same(first.get(), first_other.get()) && are_same(second.get(), second_other.get())
}

/// Whether two formulas are equal, and the variables that are bound in them.
#[cycle(same_formula)]
fn same_bound(
    names: &Texts,
    body: &FormulaBox,
    other_names: &Texts,
    other_body: &FormulaBox,
) -> bool
    ensures { result ≡ same_terms (term_then (encoded body.now) (text_terms names.now))
        (term_then (encoded other_body.now) (text_terms other_names.now)) }
{
    are_same(body.get(), other_body.get()) && same_names(names.as_slice(), other_names.as_slice())
}

/// Whether two lists of variables' names are equal.
fn same_names(left: &[Text], right: &[Text]) -> bool
    ensures { result ≡ same_terms (text_terms left.now) (text_terms right.now) }
{
    if left.len() != right.len() {
        return false;
    }
    for index in 0..left.len() {
        if left[index].as_slice() != right[index].as_slice() {
            return false;
        }
    }
    true
}

/// Whether two predicates are equal, with their arguments.
fn same_atom(name: &Text, arguments: &TreeTerms, other: &Text, others: &TreeTerms) -> bool
    ensures { result ≡ (bytes_eq name.now other.now && same_terms (terms_of arguments.now) (terms_of others.now)) }
{
    name.as_slice() == other.as_slice() && same_terms(arguments.as_slice(), others.as_slice())
}

/// Whether two pairs of sides are equal.
fn same_sides(
    left: &TreeTerm,
    right: &TreeTerm,
    other_left: &TreeTerm,
    other_right: &TreeTerm,
) -> bool
    ensures { result ≡ same_terms (terms_of (term_of left.now ∷ term_of right.now ∷ []))
        (terms_of (term_of other_left.now ∷ term_of other_right.now ∷ [])) }
{
    same_term(left, other_left) && same_term(right, other_right)
}

/// Whether two terms are equal.
#[cycle(same_term)]
fn same_term(left: &TreeTerm, right: &TreeTerm) -> bool
    ensures { result ≡ same_term (term_of left.now) (term_of right.now) }
{
    match left {
        TreeTerm::Var(first) => match right {
            TreeTerm::Var(second) => first.as_slice() == second.as_slice(),
            TreeTerm::App(_, _) => false,
        },
        TreeTerm::App(first, ones) => match right {
            TreeTerm::Var(_) => false,
            TreeTerm::App(second, others) => first.as_slice() == second.as_slice()
                && same_terms(ones.as_slice(), others.as_slice()),
        },
    }
}

/// Whether two lists of terms are equal.
#[cycle(same_term)]
fn same_terms(left: &[TreeTerm], right: &[TreeTerm]) -> bool
    ensures { result ≡ same_terms (terms_of (map term_of left.now)) (terms_of (map term_of right.now)) }
{
    if left.len() != right.len() {
        return false;
    }
    for index in 0..left.len() {
        if !same_term(&left[index], &right[index]) {
            return false;
        }
    }
    true
}
