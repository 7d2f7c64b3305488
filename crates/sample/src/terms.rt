// Terms, atoms and clauses of one literal from their parts.

ghost use Rattle.std.specs.Prelude.{◌≡◌, [], ◌∷◌, true, IfOk};
ghost use Rattle.fol_base.specs.Tree.{application, no_trees, tree_then, true_tree};
ghost use Rattle.fol_base.specs.Term.{tree_of};
ghost use Rattle.fol_base.specs.Examples.{clause};
ghost use Rattle.fol_base.specs.Literal.{literal_of, clause_of};

use fol_base::{Clause, Literal, Literals, Term, Terms};
use plain_types::{Mem, Names};
use std::alloc::Global;

/// The symbol without arguments. It takes no memory.
pub fn constant(alloc: Global, symbol: u32) -> Term
    ensures { tree_of result ≡ application symbol no_trees }
{
    Term::App(symbol, Terms::new(alloc))
}

/// The symbol applied to one term.
pub fn unary(alloc: Global, symbol: u32, argument: Term) -> Mem<Term>
    ensures { IfOk result (λ term. tree_of term ≡ application symbol (tree_then (tree_of argument) no_trees)) }
{
    let mut arguments = Terms::new(alloc);
    arguments.push(argument)?;
    Ok(Term::App(symbol, arguments))
}

/// The symbol applied to two terms.
pub fn binary(alloc: Global, symbol: u32, first: Term, second: Term) -> Mem<Term>
    ensures { IfOk result (λ term.
        tree_of term ≡ application symbol (tree_then (tree_of first) (tree_then (tree_of second) no_trees))) }
{
    let mut arguments = Terms::new(alloc);
    arguments.push(first)?;
    arguments.push(second)?;
    Ok(Term::App(symbol, arguments))
}

/// The atom of a predicate term: its equation with `$true`. It takes no memory.
pub fn atom(alloc: Global, predicate_term: Term) -> Literal
    ensures { literal_of result ≡ record { positive = true; left = tree_of predicate_term; right = true_tree } }
{
    Literal {
        positive: true,
        left: predicate_term,
        right: Term::truth(alloc),
    }
}

/// The clause of one literal, without names.
pub fn unit(alloc: Global, literal: Literal) -> Mem<Clause>
    ensures { IfOk result (λ made. clause_of made ≡ clause (literal_of literal ∷ [])) }
{
    let mut literals = Literals::new(alloc);
    literals.push(literal)?;
    Ok(Clause {
        literals,
        names: Names::new(alloc),
    })
}
