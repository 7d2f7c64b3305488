// The canonical form of a clause: variants of one clause have one form.

ghost use Rattle.std.specs.Prelude.{◌≡◌, ◌≤◌, ◌^◌, ◌↔◌, map, IfOk, IfSome, IsTrue};
ghost use Rattle.fol_base.specs.Tree.{tree_variables, trees_of, trees_variables};
ghost use Rattle.fol_base.specs.Instance.{instance};
ghost use Rattle.fol_base.specs.Clause.{
  clause_instance,
  clause_variables,
  literal_instance,
  literal_variables,
};
ghost use Rattle.fol_base.specs.Canonical.{
  bound_of,
  canonical_clause,
  canonical_renaming,
  renaming,
  terms_from,
  IsCanonical,
};
ghost use Rattle.fol_base.specs.Numbering.{count_after, with_variables};
ghost use Rattle.fol_base.specs.Term.{tree_of};
ghost use Rattle.fol_base.specs.Literal.{clause_of, literal_of};

use crate::clause::{Clause, Literal, Literals};
use crate::numbering::Numbering;
use crate::substitution::Subst;
use crate::term::{Term, Terms};
use plain_types::Mem;
use std::alloc::Global;

/// The clause with its variables renumbered from 0 by first occurrence, left side before right.
pub fn renumbered(alloc: Global, clause: &Clause) -> Mem<Clause>
    ensures { IfOk result (λ made. clause_of made ≡ canonical_clause (clause_of clause.now)) }
{
    numbered_clause(alloc, &mut Numbering::new(alloc), clause)
}

/// The clause renumbered, and the renaming: the new variable for each number up to the highest that
/// occurs. A number below it that doesn't occur stands for itself.
pub fn canonical(alloc: Global, clause: &Clause) -> Mem<(Clause, Subst)>
    ensures form { IfOk result (λ made. clause_of made.0 ≡ canonical_clause (clause_of clause.now)) }
    ensures renaming { IfOk result (λ made. made.1
        ≡ terms_from 0 (bound_of (clause_variables (clause_of clause.now))) (canonical_renaming (clause_of clause.now))) }
{
    let mut numbering = Numbering::new(alloc);
    let made = numbered_clause(alloc, &mut numbering, clause)?;
    let renaming = numbering.renaming(alloc)?;
    Ok((made, renaming))
}

/// Whether the variables are numbered from 0 by first occurrence, left side before right, without
/// gaps. It takes no memory.
pub fn is_canonical(clause: &Clause) -> bool
    ensures { IsTrue result ↔ IsCanonical (clause_of clause.now) }
{
    count_in_clause(clause).is_some()
}

/// The clause by the numbers of its variables, of which the new ones get the next numbers.
fn numbered_clause(alloc: Global, numbering: &mut Numbering, clause: &Clause) -> Mem<Clause>
    ensures met { IfOk result (λ _. numbering.new ≡ with_variables numbering.old (clause_variables (clause_of clause.now))) }
    ensures form { IfOk result (λ made. clause_of made ≡ clause_instance (renaming numbering.new) (clause_of clause.now)) }
{
    let mut literals = Vec::with_capacity(alloc, clause.literals.len())?;
    for literal in clause.literals.as_slice() {
        literals.push(numbered_literal(alloc, numbering, literal)?)?;
    }
    Ok(Clause {
        literals: Literals::from_vec(literals),
        names: clause.names.copy(alloc)?,
    })
}

fn numbered_literal(alloc: Global, numbering: &mut Numbering, literal: &Literal) -> Mem<Literal>
    ensures met { IfOk result (λ _. numbering.new ≡ with_variables numbering.old (literal_variables (literal_of literal.now))) }
    ensures form { IfOk result (λ made. literal_of made ≡ literal_instance (renaming numbering.new) (literal_of literal.now)) }
{
    let left = numbered_term(alloc, numbering, &literal.left)?;
    let right = numbered_term(alloc, numbering, &literal.right)?;
    Ok(Literal {
        positive: literal.positive,
        left,
        right,
    })
}

#[cycle(numbered)]
fn numbered_term(alloc: Global, numbering: &mut Numbering, term: &Term) -> Mem<Term>
    ensures met { IfOk result (λ _. numbering.new ≡ with_variables numbering.old (tree_variables (tree_of term.now))) }
    ensures form { IfOk result (λ made. tree_of made ≡ instance (renaming numbering.new) (tree_of term.now)) }
{
    match term {
        Term::Var(variable) => Ok(Term::Var(numbering.number(*variable)?)),
        Term::App(symbol, arguments) => {
            Ok(Term::App(*symbol, numbered_terms(alloc, numbering, arguments)?))
        }
    }
}

#[cycle(numbered)]
fn numbered_terms(alloc: Global, numbering: &mut Numbering, terms: &Terms) -> Mem<Terms>
    ensures met { IfOk result (λ _. numbering.new ≡ with_variables numbering.old (trees_variables (trees_of terms.now))) }
    ensures form { IfOk result (λ made. made ≡ map (instance (renaming numbering.new)) terms.now) }
{
    let mut items = Vec::with_capacity(alloc, terms.len())?;
    for term in terms.as_slice() {
        items.push(numbered_term(alloc, numbering, term)?)?;
    }
    Ok(Terms::from_vec(items))
}

/// How many variables the clause has, if they are numbered from 0 by first occurrence, without gaps.
fn count_in_clause(clause: &Clause) -> Option<u64>
    ensures { result ≡ count_after 0 (clause_variables (clause_of clause.now)) }
{
    let mut count = 0;
    for literal in clause.literals.as_slice() {
        count = count_in_literal(literal, count)?;
    }
    Some(count)
}

fn count_in_literal(literal: &Literal, count: u64) -> Option<u64>
    requires { count ≤ 2 ^ 32 }
    ensures value { result ≡ count_after count (literal_variables (literal_of literal.now)) }
    ensures limit { IfSome result (λ more. more ≤ 2 ^ 32) }
{
    let met = count_in_term(&literal.left, count)?;
    count_in_term(&literal.right, met)
}

/// How many variables were met after those of the term, if each of them is one of the `count` that
/// were met before or has the next number.
#[cycle(count)]
fn count_in_term(term: &Term, count: u64) -> Option<u64>
    requires { count ≤ 2 ^ 32 }
    ensures value { result ≡ count_after count (tree_variables (tree_of term.now)) }
    ensures limit { IfSome result (λ more. more ≤ 2 ^ 32) }
{
    match term {
        Term::Var(variable) => {
            let number = u64::from(*variable);
            if number > count {
                return None;
            }
            Some(count.max(number + 1))
        }
        Term::App(_, arguments) => count_in_terms(arguments, count),
    }
}

#[cycle(count)]
fn count_in_terms(terms: &Terms, count: u64) -> Option<u64>
    requires { count ≤ 2 ^ 32 }
    ensures value { result ≡ count_after count (trees_variables (trees_of terms.now)) }
    ensures limit { IfSome result (λ more. more ≤ 2 ^ 32) }
{
    let mut counted = count;
    for term in terms.as_slice() {
        counted = count_in_term(term, counted)?;
    }
    Some(counted)
}
