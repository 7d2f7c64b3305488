// The variables that a walk over a conclusion and its bindings has met, and the numbers that they get.

ghost use Rattle.std.specs.Prelude.{◌≡◌, [], Some, None, IfOk, OnErr, slice_index_or};
ghost use Rattle.fol_base.specs.Canonical.{place_of};
ghost use Rattle.fol_base.specs.Numbering.{with_variable};
ghost use Rattle.eq_rules.specs.Renumbered.{HasAlso};

use plain_types::{Mem, NoMemory};
use std::alloc::Global;
use std::marker::Model;

/// The different variables that were met, which contracts see as their list in the order in which they were first met. The new number
/// of a variable is its place in that order. The variables that a unifier shares have low numbers, so a table of them is short.
#[derive(Drop)]
pub struct Renumbering {
    order: Vec<u32>,
    /// The new number of each variable up to the highest that was met.
    numbers: Vec<Option<u32>>,
}

impl Model for Renumbering {
    ghost use Rattle.std.specs.Prelude.{List, ℕ};
    ghost use Rattle.eq_rules.specs.Renumbered.{AreNumbers};

    ghost Value = { List ℕ };

    ghost view = { λ met. met.order.items };

    ghost invariant = { λ met. AreNumbers met.order.items met.numbers.items };
}

impl Renumbering {
    /// No variable was met. It takes no memory.
    pub fn new(alloc: Global) -> Renumbering
        ensures { result ≡ [] }
    {
        Renumbering {
            order: Vec::new(alloc),
            numbers: Vec::new(alloc),
        }
    }

    /// The number of a variable, the next one where the variable is new. After an out-of-memory error the list is as before.
    pub fn number(&mut self, variable: u32) -> Mem<u32>
        ensures met { IfOk result (λ _. self.new ≡ with_variable self.old variable) }
        ensures unchanged { OnErr result (self.new ≡ self.old) }
        ensures number { IfOk result (λ number. place_of variable self.new ≡ Some number) }
    {
        if let Some(number) = number_at(self.numbers.as_slice(), variable) {
            return Ok(number);
        }
        let Ok(number) = u32::try_from(self.order.len()) else {
            return Err(NoMemory);
        };
        self.order.push(variable)?;
        if let Err(refused) = put_number(&mut self.numbers, variable, number) {
            self.order.pop();
            return Err(refused);
        }
        Ok(number)
    }
}

/// The number of a variable, none where it has none.
fn number_at(numbers: &[Option<u32>], variable: u32) -> Option<u32>
    ensures { result ≡ slice_index_or numbers.now variable None }
{
    let index = variable as usize;
    if index < numbers.len() {
        numbers[index]
    } else {
        None
    }
}

/// Gives a variable a number.
fn put_number(numbers: &mut Vec<Option<u32>>, variable: u32, number: u32) -> Mem<()>
    ensures put { IfOk result (λ _. HasAlso numbers.old.items variable number numbers.new.items) }
    ensures unchanged { OnErr result (numbers.new.items ≡ numbers.old.items) }
{
    let index = variable as usize;
    if index < numbers.len() {
        numbers[index] = Some(number);
        return Ok(());
    }
    numbers.resize(index + 1, None)?;
    numbers[index] = Some(number);
    Ok(())
}
