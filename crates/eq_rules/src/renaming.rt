// Walks that number the variables of instances, and copies with the new numbers. Out of memory, some variables may have got a number; those that had one
// have the same.

ghost use Rattle.std.specs.Prelude.{◌≡◌, ◌-◌, ◌≤◌, length, map, flat_map, take, drop, IfOk, OnErr};
ghost use Rattle.fol_base.specs.Tree.{tree_variables, trees_variables, trees_of};
ghost use Rattle.fol_base.specs.Instance.{instance, instances};
ghost use Rattle.fol_base.specs.Clause.{literal_instance, literal_variables};
ghost use Rattle.fol_base.specs.Canonical.{renaming};
ghost use Rattle.fol_base.specs.Numbering.{with_variables};
ghost use Rattle.fol_base.specs.Term.{tree_of};
ghost use Rattle.fol_base.specs.Lent.{lent_of};
ghost use Rattle.eq_rules.specs.Renumbered.{KeepsNumbers};

use crate::renumbering::Renumbering;
use fol_base::{LendsLiterals, LendsTerms, LiteralRef, Term, Terms};
use plain_types::Mem;
use std::alloc::Global;

/// Numbers the variables of a term.
#[cycle(number_term)]
pub fn number_term(numbers: &mut Renumbering, term: &Term) -> Mem<()>
    ensures met { IfOk result (λ _. numbers.new ≡ with_variables numbers.old (tree_variables (tree_of term.now))) }
    ensures kept { OnErr result (KeepsNumbers numbers.old numbers.new) }
{
    match term {
        Term::Var(variable) => {
            numbers.number(*variable)?;
            Ok(())
        }
        Term::App(_, arguments) => number_terms(numbers, arguments),
    }
}

#[cycle(number_term)]
fn number_terms(numbers: &mut Renumbering, terms: &Terms) -> Mem<()>
    ensures met { IfOk result (λ _. numbers.new ≡ with_variables numbers.old (trees_variables (trees_of terms.now))) }
    ensures kept { OnErr result (KeepsNumbers numbers.old numbers.new) }
{
    for term in terms.as_slice() {
        number_term(numbers, term)?;
    }
    Ok(())
}

/// Numbers the variables of the instance of a term, which isn't built.
#[cycle(number_instance)]
pub fn number_instance<S: LendsTerms>(numbers: &mut Renumbering, term: &Term, bind: &S) -> Mem<()>
    ensures met { IfOk result (λ _. numbers.new
        ≡ with_variables numbers.old (tree_variables (instance (S.meaning bind.now) (tree_of term.now)))) }
    ensures kept { OnErr result (KeepsNumbers numbers.old numbers.new) }
{
    match term {
        Term::Var(variable) => match bind.term(*variable) {
            Some(put) => number_term(numbers, put),
            None => number_term(numbers, term),
        },
        Term::App(_, arguments) => number_instances(numbers, arguments.as_slice(), bind),
    }
}

#[cycle(number_instance)]
fn number_instances<S: LendsTerms>(numbers: &mut Renumbering, terms: &[Term], bind: &S) -> Mem<()>
    ensures met { IfOk result (λ _. numbers.new
        ≡ with_variables numbers.old (trees_variables (instances (S.meaning bind.now) (trees_of (map tree_of terms.now))))) }
    ensures kept { OnErr result (KeepsNumbers numbers.old numbers.new) }
{
    for term in terms {
        number_instance(numbers, term, bind)?;
    }
    Ok(())
}

/// Numbers the variables of the instance of a literal, left side before right.
fn number_literal<S: LendsTerms>(
    numbers: &mut Renumbering,
    literal: LiteralRef<'_>,
    bind: &S,
) -> Mem<()>
    ensures met { IfOk result (λ _. numbers.new
        ≡ with_variables numbers.old (literal_variables (literal_instance (S.meaning bind.now) (lent_of literal.entry)))) }
    ensures kept { OnErr result (KeepsNumbers numbers.old numbers.new) }
{
    number_instance(numbers, literal.left, bind)?;
    number_instance(numbers, literal.right, bind)
}

/// Numbers the variables of the instances of the literals from one index up to another.
pub fn number_literals<L: LendsLiterals, S: LendsTerms>(
    numbers: &mut Renumbering,
    literals: &L,
    bind: &S,
    start: usize,
    end: usize,
) -> Mem<()>
    requires rising { start ≤ end }
    requires within { end ≤ length (L.meaning literals.now) }
    ensures met { IfOk result (λ _. numbers.new ≡ with_variables numbers.old (flat_map literal_variables
        (map (literal_instance (S.meaning bind.now)) (take (end - start) (drop start (L.meaning literals.now)))))) }
    ensures kept { OnErr result (KeepsNumbers numbers.old numbers.new) }
{
    for index in start..end {
        number_literal(numbers, literals.literal(index), bind)?;
    }
    Ok(())
}

/// A term with its variables by their new numbers, of which the new ones get the next.
#[cycle(renamed)]
fn renamed_term(alloc: Global, numbers: &mut Renumbering, term: &Term) -> Mem<Term>
    ensures met { IfOk result (λ _. numbers.new ≡ with_variables numbers.old (tree_variables (tree_of term.now))) }
    ensures form { IfOk result (λ made. tree_of made ≡ instance (renaming numbers.new) (tree_of term.now)) }
    ensures kept { OnErr result (KeepsNumbers numbers.old numbers.new) }
{
    match term {
        Term::Var(variable) => Ok(Term::Var(numbers.number(*variable)?)),
        Term::App(symbol, arguments) => {
            Ok(Term::App(*symbol, renamed_terms(alloc, numbers, arguments)?))
        }
    }
}

/// Terms with their variables by their new numbers, of which the new ones get the next.
#[cycle(renamed)]
pub fn renamed_terms(alloc: Global, numbers: &mut Renumbering, terms: &Terms) -> Mem<Terms>
    ensures met { IfOk result (λ _. numbers.new ≡ with_variables numbers.old (trees_variables (trees_of terms.now))) }
    ensures form { IfOk result (λ made. made ≡ map (instance (renaming numbers.new)) terms.now) }
    ensures kept { OnErr result (KeepsNumbers numbers.old numbers.new) }
{
    let mut items = Vec::with_capacity(alloc, terms.len())?;
    for term in terms.as_slice() {
        items.push(renamed_term(alloc, numbers, term)?)?;
    }
    Ok(Terms::from_vec(items))
}
