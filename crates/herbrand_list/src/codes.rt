// Demands as lists of numbers, so that a table tells whether one is there.

ghost use Rattle.std.specs.Prelude.{◌≡◌, ◌++◌, ◌∷◌, [], map, IfOk};
ghost use Rattle.fol_base.specs.Tree.{trees_of};
ghost use Rattle.fol_base.specs.TreeCode.{tree_steps, trees_steps};
ghost use Rattle.fol_base.specs.Term.{tree_of};
ghost use Rattle.herbrand_list.specs.Worked.{step_numbers, demand_key};

use fol_base::Term;
use plain_types::{Mem, NoMemory};
use std::alloc::Global;

/// The kind of a step that is a variable.
const VARIABLE: u32 = 0;
/// The kind of the step that ends a list of arguments with its symbol.
const APPLICATION: u32 = 1;
/// The kind of the step that begins a list of arguments.
const ARGUMENTS: u32 = 2;

/// The numbers of a demand: its line, and the code of its terms.
pub(crate) fn key_of(alloc: Global, line: u64, terms: &[Term]) -> Mem<Vec<u32>>
    ensures { IfOk result (λ key. key.items ≡ demand_key (record { line = line; terms = map tree_of terms.now })) }
{
    let line = u32::try_from(line).map_err(|_| NoMemory)?;
    let mut key = Vec::new(alloc);
    key.push(line)?;
    push_terms(&mut key, terms)?;
    Ok(key)
}

/// Adds the code of a term.
#[cycle(push)]
fn push_term(key: &mut Vec<u32>, term: &Term) -> Mem<()>
    ensures { IfOk result (λ _. key.new.items ≡ key.old.items ++ step_numbers (tree_steps (tree_of term.now) [])) }
{
    match term {
        Term::Var(variable) => push_step(key, VARIABLE, *variable),
        Term::App(symbol, arguments) => {
            push_step(key, APPLICATION, *symbol)?;
            push_terms(key, arguments.as_slice())?;
            push_step(key, ARGUMENTS, 0)
        }
    }
}

/// Adds the codes of terms.
#[cycle(push)]
fn push_terms(key: &mut Vec<u32>, terms: &[Term]) -> Mem<()>
    ensures { IfOk result (λ _. key.new.items ≡ key.old.items ++ step_numbers (trees_steps (trees_of (map tree_of terms.now)) [])) }
{
    for term in terms {
        push_term(key, term)?;
    }
    Ok(())
}

/// Adds a step of a code.
fn push_step(key: &mut Vec<u32>, kind: u32, number: u32) -> Mem<()>
    ensures { IfOk result (λ _. key.new.items ≡ key.old.items ++ kind ∷ number ∷ []) }
{
    key.push(kind)?;
    key.push(number)?;
    Ok(())
}
