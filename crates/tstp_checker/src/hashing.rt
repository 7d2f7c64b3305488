// The numbers that a formula feeds to a hasher. Each function passes on a number for what it meets, so that different formulas differ.

ghost use Rattle.std.specs.Prelude.{◌≡◌, ◌++◌, ◌∷◌, map, fold};
ghost use Rattle.std.specs.Hash as fed;
ghost use Rattle.tptp_tree.specs.Term.{terms_of};
ghost use Rattle.tptp_tree.specs.Formula.{formulas_of};
ghost use Rattle.tptp_tree.specs.Shape.{term_of, formula_of};
ghost use Rattle.tptp_tree.specs.Codes.{text_terms};
ghost use Rattle.tstp_checker.specs.Hashing.{term_writes, terms_writes, formula_writes, formulas_writes};

use plain_types::{Text, Texts};
use std::hash::Hasher;
use tptp_tree::{Formula, FormulaBox, TreeTerm, TreeTerms};

/// Feeds a formula. It recurses as deep as the formula is nested.
#[cycle(hash_formula)]
pub(crate) fn hash_formula<H: Hasher>(formula: &Formula, state: &mut H)
    ensures { state.new ≡ fold H.write state.old (formula_writes (formula_of formula.now)) }
{
    match formula {
        Formula::True => state.write_u8(1),
        Formula::False => state.write_u8(2),
        Formula::Pred(name, arguments) => hash_atom(3, name, arguments, state),
        Formula::Equal(left, right) => hash_sides(4, left, right, state),
        Formula::NotEqual(left, right) => hash_sides(5, left, right, state),
        Formula::Not(operand) => hash_negated(6, operand, state),
        Formula::And(operands) => hash_formulas(7, operands.as_slice(), state),
        Formula::Or(operands) => hash_formulas(8, operands.as_slice(), state),
        Formula::Implies(left, right) => hash_pair(9, left, right, state),
        Formula::Implied(left, right) => hash_pair(10, left, right, state),
        Formula::Iff(left, right) => hash_pair(11, left, right, state),
        Formula::Xor(left, right) => hash_pair(12, left, right, state),
        Formula::Nor(left, right) => hash_pair(13, left, right, state),
        Formula::Nand(left, right) => hash_pair(14, left, right, state),
        Formula::All(names, body) => hash_bound(15, names, body, state),
        Formula::Ex(names, body) => hash_bound(16, names, body, state),
    }
}

/// Feeds the formula after `~`.
#[cycle(hash_formula)]
fn hash_negated<H: Hasher>(kind: u8, operand: &FormulaBox, state: &mut H)
    ensures { state.new ≡ fold H.write state.old (fed.u8 kind ++ formula_writes operand.now) }
{
    state.write_u8(kind);
    hash_formula(operand.get(), state);
}

/// Feeds the formulas that one connective joins.
#[cycle(hash_formula)]
fn hash_formulas<H: Hasher>(kind: u8, operands: &[Formula], state: &mut H)
    ensures { state.new ≡ fold H.write state.old (fed.u8 kind ++ formulas_writes (formulas_of (map formula_of operands.now))) }
{
    state.write_u8(kind);
    for operand in operands {
        hash_formula(operand, state);
    }
    state.write_u8(0);
}

/// Feeds the two formulas that a connective joins.
#[cycle(hash_formula)]
fn hash_pair<H: Hasher>(kind: u8, left: &FormulaBox, right: &FormulaBox, state: &mut H)
    ensures { state.new ≡ fold H.write state.old (fed.u8 kind ++ (formula_writes left.now ++ formula_writes right.now)) }
{
    state.write_u8(kind);
    hash_formula(left.get(), state);
    hash_formula(right.get(), state);
}

/// Feeds a formula and the variables that a quantifier binds in it.
#[cycle(hash_formula)]
fn hash_bound<H: Hasher>(kind: u8, names: &Texts, body: &FormulaBox, state: &mut H)
    ensures { state.new ≡ fold H.write state.old (fed.u8 kind ++ (terms_writes (text_terms names.now) ++ formula_writes body.now)) }
{
    state.write_u8(kind);
    hash_names(names.as_slice(), state);
    hash_formula(body.get(), state);
}

/// Feeds the names of variables.
fn hash_names<H: Hasher>(names: &[Text], state: &mut H)
    ensures { state.new ≡ fold H.write state.old (terms_writes (text_terms names.now)) }
{
    for name in names {
        state.write_u8(1);
        state.write(name.as_slice());
    }
    state.write_u8(0);
}

/// Feeds a predicate with its arguments.
fn hash_atom<H: Hasher>(kind: u8, name: &Text, arguments: &TreeTerms, state: &mut H)
    ensures { state.new ≡ fold H.write state.old (fed.u8 kind ++ name.now ∷ terms_writes (terms_of arguments.now)) }
{
    state.write_u8(kind);
    state.write(name.as_slice());
    hash_terms(arguments.as_slice(), state);
}

/// Feeds the sides of an equation.
fn hash_sides<H: Hasher>(kind: u8, left: &TreeTerm, right: &TreeTerm, state: &mut H)
    ensures { state.new ≡ fold H.write state.old (fed.u8 kind ++ (term_writes (term_of left.now) ++ term_writes (term_of right.now))) }
{
    state.write_u8(kind);
    hash_term(left, state);
    hash_term(right, state);
}

/// Feeds a term. It recurses as deep as the term is nested.
#[cycle(hash_term)]
fn hash_term<H: Hasher>(term: &TreeTerm, state: &mut H)
    ensures { state.new ≡ fold H.write state.old (term_writes (term_of term.now)) }
{
    match term {
        TreeTerm::Var(name) => {
            state.write_u8(1);
            state.write(name.as_slice());
        }
        TreeTerm::App(name, arguments) => {
            state.write_u8(2);
            state.write(name.as_slice());
            hash_terms(arguments.as_slice(), state);
        }
    }
}

/// Feeds a list of terms.
#[cycle(hash_term)]
fn hash_terms<H: Hasher>(terms: &[TreeTerm], state: &mut H)
    ensures { state.new ≡ fold H.write state.old (terms_writes (terms_of (map term_of terms.now))) }
{
    for term in terms {
        hash_term(term, state);
    }
    state.write_u8(0);
}
