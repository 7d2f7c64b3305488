// Substitutions and instances.

ghost use Rattle.std.specs.Prelude.{◌≡◌, length, map, IfOk};
ghost use Rattle.fol_base.specs.Tree.{trees_of, VariablesBelow, AllVariablesBelow};
ghost use Rattle.fol_base.specs.Instance.{substitution, instance};
ghost use Rattle.fol_base.specs.Clause.{clause_instance, literal_instance, ClauseVariablesBelow, LiteralVariablesBelow};
ghost use Rattle.fol_base.specs.Term.{tree_of};
ghost use Rattle.fol_base.specs.Literal.{literal_of, clause_of};

use crate::clause::{Clause, Literal, Literals};
use crate::term::{Term, Terms};
use plain_types::{Mem, Names};
use std::alloc::Global;

/// A substitution: the term for each variable, by its number.
pub type Subst = Terms;

/// The instance of a term. The condition is that each variable's number is below the length of `subst`.
#[cycle(apply)]
pub fn apply(alloc: Global, subst: &Subst, term: &Term) -> Mem<Term>
    requires { VariablesBelow (length subst.now) (tree_of term.now) }
    ensures { IfOk result (λ made. tree_of made ≡ instance (substitution subst.now) (tree_of term.now)) }
{
    match term {
        Term::Var(variable) => subst.as_slice()[*variable as usize].copy(alloc),
        Term::App(symbol, arguments) => Ok(Term::App(*symbol, apply_all(alloc, subst, arguments)?)),
    }
}

#[cycle(apply)]
fn apply_all(alloc: Global, subst: &Subst, terms: &Terms) -> Mem<Terms>
    requires { AllVariablesBelow (length subst.now) (trees_of terms.now) }
    ensures { IfOk result (λ made. made ≡ map (instance (substitution subst.now)) terms.now) }
{
    let mut items = Vec::with_capacity(alloc, terms.len())?;
    for term in terms.as_slice() {
        items.push(apply(alloc, subst, term)?)?;
    }
    Ok(Terms::from_vec(items))
}

/// The instance of a clause: each side of each literal. The names stay. The condition is that of `apply`.
pub fn apply_clause(alloc: Global, subst: &Subst, clause: &Clause) -> Mem<Clause>
    requires { ClauseVariablesBelow (length subst.now) (clause_of clause.now) }
    ensures { IfOk result (λ made. clause_of made ≡ clause_instance (substitution subst.now) (clause_of clause.now)) }
{
    let mut literals = Vec::with_capacity(alloc, clause.literals.len())?;
    for literal in clause.literals.as_slice() {
        literals.push(apply_literal(alloc, subst, literal)?)?;
    }
    let names = Names::from_slice(alloc, clause.names.as_slice())?;
    Ok(Clause {
        literals: Literals::from_vec(literals),
        names,
    })
}

/// The instance of a literal.
pub fn apply_literal(alloc: Global, subst: &Subst, literal: &Literal) -> Mem<Literal>
    requires { LiteralVariablesBelow (length subst.now) (literal_of literal.now) }
    ensures { IfOk result (λ made. literal_of made ≡ literal_instance (substitution subst.now) (literal_of literal.now)) }
{
    let left = apply(alloc, subst, &literal.left)?;
    let right = apply(alloc, subst, &literal.right)?;
    Ok(Literal {
        positive: literal.positive,
        left,
        right,
    })
}
