// Ground terms put in for variables: the instances of terms and clauses.

ghost use Rattle.std.specs.Prelude.{◌≡◌, map, IfOk};
ghost use Rattle.fol_base.specs.Term.{tree_of};
ghost use Rattle.fol_base.specs.Instance.{instance};
ghost use Rattle.fol_base.specs.Clause.{literal_instance};
ghost use Rattle.fol_base.specs.Ground.{literals_instance};
ghost use Rattle.fol_base.specs.Literal.{literal_of, clause_of};
ghost use Rattle.herbrand_list.specs.Answer.{nameless};
ghost use Rattle.herbrand_list.specs.Worked.{putting};

use fol_base::{Clause, Literal, Literals, Term, Terms};
use plain_types::{Mem, Names};
use std::alloc::Global;

/// The terms of variables, by number, and the symbol of the constant that stands for those that have none.
#[derive(Clone, Copy)]
pub(crate) struct PutIn<'a> {
    pub constant: u32,
    pub terms: &'a [Term],
}

/// What stands for a variable.
fn put_variable(alloc: Global, put: &PutIn<'_>, variable: u32) -> Mem<Term>
    ensures { IfOk result (λ made. tree_of made ≡ putting put.now variable) }
{
    match put.terms.get(variable as usize) {
        Some(term) => term.copy(alloc),
        None => Ok(Term::App(put.constant, Terms::new(alloc))),
    }
}

/// The instance of a term.
#[cycle(put)]
fn put_term(alloc: Global, put: &PutIn<'_>, term: &Term) -> Mem<Term>
    ensures { IfOk result (λ made. tree_of made ≡ instance (putting put.now) (tree_of term.now)) }
{
    match term {
        Term::Var(variable) => put_variable(alloc, put, *variable),
        Term::App(symbol, arguments) => {
            Ok(Term::App(*symbol, put_terms(alloc, put, arguments.as_slice())?))
        }
    }
}

/// The instances of terms, in order.
#[cycle(put)]
pub(crate) fn put_terms(alloc: Global, put: &PutIn<'_>, terms: &[Term]) -> Mem<Terms>
    ensures { IfOk result (λ made. made ≡ map (instance (putting put.now)) (map tree_of terms.now)) }
{
    let mut items = Vec::with_capacity(alloc, terms.len())?;
    for term in terms {
        items.push(put_term(alloc, put, term)?)?;
    }
    Ok(Terms::from_vec(items))
}

/// The instance of literals, as a clause without names.
pub(crate) fn put_literals(alloc: Global, put: &PutIn<'_>, literals: &[Literal]) -> Mem<Clause>
    ensures { IfOk result (λ made. clause_of made ≡ nameless (literals_instance (putting put.now) (map literal_of literals.now))) }
{
    let mut items = Vec::with_capacity(alloc, literals.len())?;
    for literal in literals {
        items.push(put_literal(alloc, put, literal)?)?;
    }
    Ok(Clause {
        literals: Literals::from_vec(items),
        names: Names::new(alloc),
    })
}

/// The instance of a literal.
fn put_literal(alloc: Global, put: &PutIn<'_>, literal: &Literal) -> Mem<Literal>
    ensures { IfOk result (λ made. literal_of made ≡ literal_instance (putting put.now) (literal_of literal.now)) }
{
    let left = put_term(alloc, put, &literal.left)?;
    let right = put_term(alloc, put, &literal.right)?;
    let positive = literal.positive;
    Ok(Literal {
        positive,
        left,
        right,
    })
}
