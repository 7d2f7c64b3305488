// The variables in force.

ghost use Rattle.std.specs.Prelude.{◌≡◌, ◌≤◌, [], ◌∷◌, ◌-◌, length, drop, map, IfOk};
ghost use Rattle.typed_tree.specs.Shape.{variable_of};
ghost use Rattle.typed_problem.specs.SortFaults.{sort_in_force};
ghost use Rattle.sort_checks.specs.Lent.{sort_lent};

use plain_types::Mem;
use std::alloc::Global;
use std::marker::Model;
use typed_tree::{Sort, TypedVar};

/// The variables in force with their sorts, which contracts see as their list, the innermost first. Nesting is limited, so there are few.
#[derive(Drop)]
pub(crate) struct Scope<'a> {
    /// The innermost last.
    variables: Vec<&'a TypedVar>,
}

impl<'a> Model for Scope<'a> {
    ghost use Rattle.typed_problem.specs.SortFaults.{Sorting};
    ghost use Rattle.sort_checks.specs.Scopes.{innermost_first};

    ghost Value = { Sorting };

    ghost view = { λ a. innermost_first a.variables.items };
}

impl<'a> Scope<'a> {
    /// No variable is in force. It takes no memory.
    pub(crate) fn new(alloc: Global) -> Scope<'a>
        ensures { result ≡ [] }
    {
        Scope {
            variables: Vec::new(alloc),
        }
    }

    /// How many there are.
    pub(crate) fn len(&self) -> usize
        ensures { result ≡ length self.now }
    {
        self.variables.len()
    }

    /// Another variable is in force, the innermost.
    pub(crate) fn push(&mut self, variable: &'a TypedVar) -> Mem<()>
        ensures { IfOk result (λ _. self.new ≡ variable_of variable.now ∷ self.old) }
    {
        self.variables.push(variable)?;
        Ok(())
    }

    /// Keeps that many, and drops those inside them.
    pub(crate) fn truncate(&mut self, len: usize)
        ensures { self.new ≡ drop (length self.old - len) self.old }
    {
        self.variables.truncate(len);
    }

    /// The sort of the innermost variable of that name; none for `$i`.
    pub(crate) fn sort(&self, name: &[u8]) -> Option<&'a Sort>
        ensures { sort_lent result ≡ sort_in_force self.now name.now }
    {
        for index in (0..self.variables.len()).rev() {
            let variable = self.variables[index];
            if variable.name.as_slice() == name {
                return Some(&variable.sort);
            }
        }
        None
    }
}
