// How a clause is written: its ordinary literals, and after them its names.

ghost use Rattle.std.specs.Prelude.{◌≡◌, Bool, true, map, option_map};
ghost use Rattle.tptp_tree.specs.Shape.{formula_of};
ghost use Rattle.clausal_form.specs.DerivationClause.{literals_of, is_positive, atom_of, is_atom, is_literal, atom_name, literal_name, is_written_clause};
ghost use Rattle.tstp_lines.specs.Written.{may_follow};
ghost use Rattle.kernel_steps.specs.Names.{name_before};

use crate::names::NameTable;
use plain_types::NameLit;
use std::slice;
use tptp_tree::Formula;

/// Whether a formula is written as a clause: atoms and negations of atoms, `$false` only alone, and the names, with rising
/// numbers, after the other literals.
pub fn is_written_clause(names: &NameTable, formula: &Formula) -> bool
    ensures { result ≡ is_written_clause names.now (formula_of formula.now) }
{
    let mut last = None;
    for literal in literals_of(formula) {
        if !is_literal(literal) {
            return false;
        }
        let next = literal_name(names, literal);
        if !may_follow(last, next) {
            return false;
        }
        last = next;
    }
    true
}

/// The literals of a `cnf` formula; `$false` is the clause without any.
pub(crate) fn literals_of(formula: &Formula) -> &[Formula]
    ensures { map formula_of result.now ≡ literals_of (formula_of formula.now) }
{
    match formula {
        Formula::False => &[],
        Formula::Or(literals) => literals.as_slice(),
        literal => slice::from_ref(literal),
    }
}

/// Whether a literal is no negation.
pub(crate) fn is_positive(literal: &Formula) -> bool
    ensures { result ≡ is_positive (formula_of literal.now) }
{
    !matches!(literal, Formula::Not(_))
}

/// The atom of a literal.
pub(crate) fn atom_of(literal: &Formula) -> &Formula
    ensures { formula_of result.now ≡ atom_of (formula_of literal.now) }
{
    match literal {
        Formula::Not(atom) => atom.get(),
        atom => atom,
    }
}

/// Whether a formula is an atom; `$false` is none.
fn is_atom(formula: &Formula) -> bool
    ensures { result ≡ is_atom (formula_of formula.now) }
{
    matches!(
        formula,
        Formula::True | Formula::Pred(..) | Formula::Equal(..) | Formula::NotEqual(..),
    )
}

/// Whether a formula is an atom or the negation of one.
fn is_literal(formula: &Formula) -> bool
    ensures { result ≡ is_literal (formula_of formula.now) }
{
    is_atom(atom_of(formula))
}

/// The number of the name that an atom is; none where it is no name.
fn atom_name(names: &NameTable, atom: &Formula) -> Option<u32>
    ensures { result ≡ atom_name names.now (formula_of atom.now) }
{
    match atom {
        Formula::Pred(name, arguments) if arguments.is_empty() => names.number(name.as_slice()),
        _ => None,
    }
}

/// The signed name that a literal is; none where it is ordinary.
pub(crate) fn literal_name(names: &NameTable, literal: &Formula) -> Option<NameLit>
    ensures { result ≡ literal_name names.now (formula_of literal.now) }
{
    let name = atom_name(names, atom_of(literal))?;
    Some(NameLit {
        positive: is_positive(literal),
        name,
    })
}

/// Whether a literal may follow another, where those that are names are given by them: no ordinary one follows a name, and names
/// rise, the negative one before the positive one.
fn may_follow(last: Option<NameLit>, next: Option<NameLit>) -> bool
    ensures { result ≡ may_follow last next }
{
    match (last, next) {
        (None, _) => true,
        (Some(_), None) => false,
        (Some(last), Some(next)) => comes_before(last, next),
    }
}

/// Whether a signed name comes before another.
fn comes_before(name: NameLit, other: NameLit) -> bool
    ensures { result ≡ name_before name other }
{
    name.name < other.name || (name.name == other.name && !name.positive && other.positive)
}
