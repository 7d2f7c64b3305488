// The variables of terms and clauses.

ghost use Rattle.std.specs.Prelude.{◌≡◌, ◌≤◌, ◌^◌, ◌++◌, map, IfOk, OnErr};
ghost use Rattle.fol_base.specs.Tree.{tree_variables, trees_variables, trees_of};
ghost use Rattle.fol_base.specs.Clause.{clause_variables, literal_variables};
ghost use Rattle.fol_base.specs.Canonical.{bound_of};
ghost use Rattle.fol_base.specs.Term.{tree_of};
ghost use Rattle.fol_base.specs.Literal.{literal_of, clause_of};

use crate::clause::{Clause, Literal};
use crate::term::{Term, Terms};
use plain_types::Mem;
use std::alloc::Global;

impl Term {
    /// One more than the highest variable's number, 0 where there is no variable.
    #[cycle(variable_bound)]
    pub fn variable_bound(&self) -> u64
        ensures value { result ≡ bound_of (tree_variables (tree_of self.now)) }
        ensures limit { result ≤ 2 ^ 32 }
    {
        match self {
            Term::Var(variable) => u64::from(*variable) + 1,
            Term::App(_, arguments) => arguments.variable_bound(),
        }
    }
}

impl Terms {
    /// One more than the highest variable's number, 0 where there is no variable.
    #[cycle(variable_bound)]
    pub fn variable_bound(&self) -> u64
        ensures value { result ≡ bound_of (trees_variables (trees_of self.now)) }
        ensures limit { result ≤ 2 ^ 32 }
    {
        let mut bound = 0;
        for term in self.as_slice() {
            bound = term.variable_bound().max(bound);
        }
        bound
    }
}

impl Literal {
    /// One more than the highest variable's number, 0 where there is no variable.
    pub fn variable_bound(&self) -> u64
        ensures value { result ≡ bound_of (literal_variables (literal_of self.now)) }
        ensures limit { result ≤ 2 ^ 32 }
    {
        self.lend().variable_bound()
    }
}

impl Clause {
    /// One more than the highest variable's number, 0 where there is no variable.
    pub fn variable_bound(&self) -> u64
        ensures value { result ≡ bound_of (clause_variables (clause_of self.now)) }
        ensures limit { result ≤ 2 ^ 32 }
    {
        let mut bound = 0;
        for literal in self.literals.as_slice() {
            bound = literal.variable_bound().max(bound);
        }
        bound
    }

    /// The variables' numbers, with repetitions, from left to right: left sides before right ones.
    pub fn variables(&self, alloc: Global) -> Mem<Vec<u32>>
        ensures { IfOk result (λ found. found.items ≡ clause_variables (clause_of self.now)) }
    {
        let mut found = Vec::new(alloc);
        for literal in self.literals.as_slice() {
            push_variables(&literal.left, &mut found)?;
            push_variables(&literal.right, &mut found)?;
        }
        Ok(found)
    }
}

/// Adds the numbers of a term's variables at the end, with repetitions, from left to right; after an out-of-memory error none is added.
#[cycle(push_variables)]
pub fn push_variables(term: &Term, found: &mut Vec<u32>) -> Mem<()>
    ensures added { IfOk result (λ _. found.new.items ≡ found.old.items ++ tree_variables (tree_of term.now)) }
    ensures unchanged { OnErr result (found.new.items ≡ found.old.items) }
{
    match term {
        Term::Var(variable) => Ok(found.push(*variable)?),
        Term::App(_, arguments) => push_all_variables(arguments, found),
    }
}

#[cycle(push_variables)]
fn push_all_variables(terms: &Terms, found: &mut Vec<u32>) -> Mem<()>
    ensures added { IfOk result (λ _. found.new.items ≡ found.old.items ++ trees_variables (trees_of terms.now)) }
    ensures unchanged { OnErr result (found.new.items ≡ found.old.items) }
{
    let before = found.len();
    for term in terms.as_slice() {
        if let Err(error) = push_variables(term, found) {
            found.truncate(before);
            return Err(error);
        }
    }
    Ok(())
}
