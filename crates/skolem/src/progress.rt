// The work on a form: the variables in force with their terms, and what was made.

ghost use Rattle.std.specs.Prelude.{◌≡◌, ◌+◌, ◌∷◌, [], ◌++◌, nat_lt, IfOk};
ghost use Rattle.std.specs.List.{list_all};
ghost use Rattle.std.specs.List.Sorted.{IsNonDecreasingBy, IsPermutation};
ghost use Rattle.signature.specs.Environment.{free_names, without_names};
ghost use Rattle.signature.specs.Clausal.{skolem_arguments, made_in_order};
ghost use Rattle.signature.specs.Form.{nothing_made};
ghost use Rattle.fol_base.specs.Tree.{tree_variables};
ghost use Rattle.skolem.specs.BoundTerm.{bound_tree};
ghost use Rattle.skolem.specs.Bindings.{HasVariables, Covers};
ghost use Rattle.skolem.specs.Progress.{environment_of, variable_term, made_of};

use crate::bindings::Bindings;
use crate::bound_term::BoundTerm;
use crate::gathering::variables_at;
use crate::occurring::push_occurring_under;
use formula_nnf::NnfBox;
use plain_types::{Mem, NoMemory, Text};
use std::alloc::Global;

/// The variables in force; how many variables were made, and the Skolem symbols by their numbers of arguments.
#[derive(Drop)]
pub(crate) struct Progress {
    pub bindings: Bindings,
    pub variables: u32,
    pub arities: Vec<u32>,
    /// How many arguments the lists have together that were made for quantifiers, each counted once, though its Skolem terms share it.
    pub listed: u64,
}

/// The arguments of a quantifier's Skolem terms; and the place of a binding whose term's variables are among them, counted from 1, or 0.
#[derive(Drop)]
pub(crate) struct Arguments {
    pub variables: Vec<u32>,
    pub covers: usize,
}

impl Progress {
    /// Nothing is in force, and nothing was made.
    pub(crate) fn new(alloc: Global) -> Progress
        ensures bindings { result.bindings ≡ [] }
        ensures made { made_of result ≡ nothing_made }
    {
        Progress {
            bindings: Bindings::new(alloc),
            variables: 0,
            arities: Vec::new(alloc),
            listed: 0,
        }
    }

    /// A new variable stands for the name.
    pub(crate) fn bind_variable(&mut self, alloc: Global, name: &Text) -> Mem<()>
        ensures bindings { IfOk result (λ _. self.new.bindings
            ≡ self.old.bindings ++ record { name = name.now; term = variable_term self.old.variables } ∷ []) }
        ensures variables { IfOk result (λ _. self.new.variables ≡ self.old.variables + 1) }
        ensures arities { self.new.arities.items ≡ self.old.arities.items }
    {
        let next = self.variables.checked_add(1).ok_or(NoMemory)?;
        self.bindings
            .push(alloc, name, BoundTerm::Var(self.variables))?;
        self.variables = next;
        Ok(())
    }

    /// A new Skolem term stands for the name. Its symbol has that number of arguments. They are the variables of the binding at the place `alike`,
    /// and those of that at `covers` are among them. Places are counted from 1; 0 says nothing.
    pub(crate) fn bind_term(
        &mut self,
        alloc: Global,
        name: &Text,
        term: BoundTerm,
        arity: u32,
        alike: usize,
        covers: usize,
    ) -> Mem<()>
        requires alike { HasVariables self.old.bindings alike (tree_variables (bound_tree term)) }
        requires covers { Covers self.old.bindings covers (tree_variables (bound_tree term)) }
        ensures bindings { IfOk result (λ _. self.new.bindings
            ≡ self.old.bindings ++ record { name = name.now; term = term } ∷ []) }
        ensures variables { self.new.variables ≡ self.old.variables }
        ensures arities { IfOk result (λ _. self.new.arities.items ≡ self.old.arities.items ++ arity ∷ []) }
    {
        self.arities.push(arity)?;
        self.bindings.push_noted(alloc, name, term, alike, covers)
    }

    /// The variables in the terms of a quantified form's free variables, in the order in which they were made, each once. The form
    /// is given by its names and its body.
    pub(crate) fn arguments(
        &mut self,
        alloc: Global,
        names: &[Text],
        body: &NnfBox<'_>,
    ) -> Mem<Arguments>
        ensures found { IfOk result (λ found. found.variables.items
            ≡ skolem_arguments (without_names names.now (free_names body.now)) (environment_of self.old.bindings) (made_of self.old)) }
        ensures covers { IfOk result (λ found. Covers self.old.bindings found.covers found.variables.items) }
        ensures bindings { IfOk result (λ _. self.new.bindings ≡ self.old.bindings) }
        ensures variables { self.new.variables ≡ self.old.variables }
        ensures arities { self.new.arities.items ≡ self.old.arities.items }
    {
        let outer = self.bindings.len();
        let mut places = Vec::new(alloc);
        push_occurring_under(alloc, names, body, outer, &mut self.bindings, &mut places)?;
        let mut occurring = variables_at(alloc, &self.bindings, &mut places)?;
        let are_made = are_below(self.variables, occurring.variables.as_slice());
        let variables = made_in_order(alloc, self.variables, &mut occurring.variables)?;
        self.listed = self.listed.saturating_add(variables.len() as u64);
        Ok(Arguments {
            variables,
            covers: if are_made { occurring.covers } else { 0 },
        })
    }
}

/// Whether all variables are below that number.
fn are_below(number: u32, variables: &[u32]) -> bool
    ensures { result ≡ list_all (λ v. nat_lt v number) variables.now }
{
    variables.iter().all(|variable| *variable < number)
}

/// The variables below that number that occur, in their order, each once. The list is sorted for it, by the sort that merges what is in order
/// already, since such lists are mostly put together from lists that are. Out of memory, too, it has the numbers that it had, perhaps in that order.
pub fn made_in_order(alloc: Global, variables: u32, occurring: &mut Vec<u32>) -> Mem<Vec<u32>>
    ensures found { IfOk result (λ found. found.items ≡ made_in_order variables occurring.old.items) }
    ensures kept { IsPermutation occurring.old.items occurring.new.items }
{
    occurring.sort()?;
    once_each(alloc, variables, occurring.as_slice())
}

/// Those of a sorted list.
fn once_each(alloc: Global, variables: u32, sorted: &[u32]) -> Mem<Vec<u32>>
    requires sorted { IsNonDecreasingBy (λ v. v) sorted.now }
    ensures { IfOk result (λ found. found.items ≡ made_in_order variables sorted.now) }
{
    let mut found = Vec::new(alloc);
    let mut next = 0;
    for variable in sorted {
        if *variable < next || *variable >= variables {
            continue;
        }
        found.push(*variable)?;
        next = *variable + 1;
    }
    Ok(found)
}
