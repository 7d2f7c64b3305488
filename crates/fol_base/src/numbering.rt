// The variables that a walk over a clause has met, and the numbers that they get.

ghost use Rattle.std.specs.Prelude.{◌≡◌, ◌<◌, ◌≤◌, ◌^◌, ◌==◌, [], Some, IfOk, IfSome, take, position};
ghost use Rattle.fol_base.specs.Canonical.{bound_of, place_of, renaming, terms_from};
ghost use Rattle.fol_base.specs.Numbering.{with_variable};

use crate::substitution::Subst;
use crate::term::{Term, Terms};
use plain_types::Mem;
use std::alloc::Global;
use std::collections::HashMap;
use std::marker::Model;

/// How many variables are looked for by a scan; those that are met after them, by their hashes.
const SCANNED: usize = 16;

/// The different variables that were met, which contracts see as their list in the order in which
/// they were first met. The number of a variable is its place in that order.
#[derive(Drop)]
pub struct Numbering {
    order: Vec<u32>,
    later: HashMap<u32, u32>,
}

impl Model for Numbering {
    ghost use Rattle.std.specs.Prelude.{List, ℕ};

    ghost Value = { List ℕ };

    ghost view = { λ a. a.order.items };

    ghost use Rattle.fol_base.specs.Numbering.{IsNumbering};

    ghost invariant = { λ a. IsNumbering a.order.items a.later };
}

impl Numbering {
    /// No variable was met. It takes no memory.
    pub fn new(alloc: Global) -> Numbering
        ensures { result ≡ [] }
    {
        Numbering {
            order: Vec::new(alloc),
            later: HashMap::new(alloc),
        }
    }

    /// The number of a variable that was met; none for another one.
    pub fn get(&self, variable: u32) -> Option<u32>
        ensures { result ≡ place_of variable self.now }
    {
        match scan(self.order.as_slice(), variable) {
            Some(place) => Some(place as u32),
            None => self.later.get(&variable).copied(),
        }
    }

    /// The number of a variable, the next one where the variable is new.
    pub fn number(&mut self, variable: u32) -> Mem<u32>
        ensures met { IfOk result (λ _. self.new ≡ with_variable self.old variable) }
        ensures number { IfOk result (λ number. place_of variable self.new ≡ Some number) }
    {
        if let Some(number) = self.get(variable) {
            return Ok(number);
        }
        let number = self.order.len() as u32;
        self.order.push(variable)?;
        if self.order.len() > SCANNED {
            if let Err(refused) = self.later.insert(variable, number) {
                self.order.pop();
                return Err(refused.into());
            }
        }
        Ok(number)
    }

    /// The new variable for each number up to the highest that was met. A variable that was not met
    /// stands for itself.
    pub fn renaming(&self, alloc: Global) -> Mem<Subst>
        ensures { IfOk result (λ terms. terms ≡ terms_from 0 (bound_of self.now) (renaming self.now)) }
    {
        let bound = self.bound();
        let mut terms = Vec::with_capacity(alloc, bound as usize)?;
        for index in 0..bound {
            let variable = index as u32;
            terms.push(Term::Var(self.get(variable).unwrap_or(variable)))?;
        }
        Ok(Terms::from_vec(terms))
    }

    /// One more than the highest variable that was met, 0 where there is none.
    fn bound(&self) -> u64
        ensures value { result ≡ bound_of self.now }
        ensures limit { result ≤ 2 ^ 32 }
    {
        let mut bound = 0;
        for variable in &self.order {
            bound = (u64::from(*variable) + 1).max(bound);
        }
        bound
    }
}

/// The place of a variable among the first `SCANNED` of a list.
fn scan(order: &[u32], variable: u32) -> Option<usize>
    ensures place { result ≡ position (λ met. met == variable) (take SCANNED order.now) }
    ensures near { IfSome result (λ place. place < SCANNED) }
{
    order.iter().take(SCANNED).position(|met| *met == variable)
}
