// The substitutions of the two sides into shared variables.

ghost use Rattle.std.specs.Prelude.{◌≡◌, ℕ, true, ◌≤◌, ◌<◌, ◌^◌, length, map, IfOk};
ghost use Rattle.fol_base.specs.Tree.{AllVariablesBelow, VariablesBelow, variable, application, no_trees, tree_eq, trees_of};
ghost use Rattle.fol_base.specs.Term.{tree_of};
ghost use Rattle.fol_base.specs.Canonical.{terms_from};
ghost use Rattle.fol_base.specs.Instance.{instance};
ghost use Rattle.unifier.specs.Cells.{as_tree, as_trees, cell_at};
ghost use Rattle.unifier.specs.SolvedForm.{code_of, joint, substitution_of};
ghost use Rattle.unifier.specs.Layout.{all_pass};
ghost use Rattle.unifier.specs.Solution.{solved_form, value_at};
ghost use Rattle.unifier.specs.Renaming.{
  AreNames,
  AreRenamed,
  HasNames,
  code_count,
  is_shared,
  is_within,
  renamed,
  renamed_trees,
  side_terms,
};

use crate::cells::Cell;
use crate::layout::code;
use crate::naming::{Naming, OwnNumbers};
use crate::solution::Solution;
use fol_base::{SIZE_LIMIT, Side, Subst, Term, Terms};
use plain_types::Mem;
use std::alloc::Global;

impl Solution {
    /// The two substitutions into shared variables, as `Bindings::substs` has them.
    pub fn substs(&self, left_vars: u32, right_vars: u32) -> Mem<(Subst, Subst)>
        requires fits { all_pass (is_within self.now.apart left_vars right_vars) self.now.places.items ≡ true }
        requires left_room { left_vars ≤ SIZE_LIMIT }
        requires right_room { right_vars ≤ SIZE_LIMIT }
        ensures { IfOk result (λ made. AreRenamed (solved_form self.now) left_vars right_vars made.0 made.1) }
    {
        let alloc = *self.cells.allocator();
        let names = self.names(alloc, left_vars, right_vars)?;
        let left = self.side(alloc, &names.as_slice(), Side::Left, left_vars)?;
        let right = self.side(alloc, &names.as_slice(), Side::Right, right_vars)?;
        Ok((left, right))
    }

    /// The terms for the first variables of a side, as `Bindings::terms` has them.
    pub fn terms(&self, side: Side, count: u32) -> Mem<Subst>
        requires fits { all_pass (is_within self.now.apart SIZE_LIMIT SIZE_LIMIT) self.now.places.items ≡ true }
        requires room { count ≤ SIZE_LIMIT }
        ensures { IfOk result (λ terms. terms ≡ terms_from 0 count (substitution_of (solved_form self.now) side)) }
    {
        self.side(*self.cells.allocator(), &OwnNumbers, side, count)
    }

    /// The instance of a side's term, as `Bindings::apply` has it.
    pub fn apply(&self, side: Side, term: &Term) -> Mem<Term>
        requires fits { all_pass (is_within self.now.apart SIZE_LIMIT SIZE_LIMIT) self.now.places.items ≡ true }
        requires below { VariablesBelow SIZE_LIMIT (tree_of term.now) }
        ensures { IfOk result (λ made. tree_of made ≡ instance (substitution_of (solved_form self.now) side) (tree_of term.now)) }
    {
        self.filled(*self.cells.allocator(), side, term)
    }

    /// Whether each variable of a place has a number that `Bindings::fits` allows.
    pub fn fits(&self, left_vars: u32, right_vars: u32) -> bool
        ensures { result ≡ all_pass (is_within self.now.apart left_vars right_vars) self.now.places.items }
    {
        for place in self.places.as_slice() {
            if !is_within(self.apart, place.code, left_vars, right_vars) {
                return false;
            }
        }
        true
    }

    /// The new number of each shared variable: how many shared ones come before it.
    fn names(&self, alloc: Global, left_vars: u32, right_vars: u32) -> Mem<Vec<u32>>
        requires left_room { left_vars ≤ SIZE_LIMIT }
        requires right_room { right_vars ≤ SIZE_LIMIT }
        ensures { IfOk result (λ names. AreNames (solved_form self.now) left_vars right_vars names.items) }
    {
        let count = self.code_count(left_vars, right_vars);
        let mut names = Vec::with_capacity(alloc, count as usize)?;
        let mut next: u64 = 0;
        for code in 0..count {
            names.push(next as u32)?;
            next += u64::from(self.is_shared(code, left_vars, right_vars));
        }
        Ok(names)
    }

    /// How many numbers there are for variables of both sides.
    fn code_count(&self, left_vars: u32, right_vars: u32) -> u64
        ensures { result ≡ code_count self.now.apart left_vars right_vars }
    {
        let most = u64::from(left_vars.max(right_vars));
        if self.apart { 2 * most } else { most }
    }

    /// Whether a variable below its count stands for itself.
    fn is_shared(&self, code: u64, left_vars: u32, right_vars: u32) -> bool
        ensures { result ≡ is_shared (solved_form self.now) left_vars right_vars code }
    {
        is_within(self.apart, code, left_vars, right_vars) && self.stands_for_itself(code)
    }

    /// Whether a variable stands for itself.
    fn stands_for_itself(&self, code: u64) -> bool
        ensures { result ≡ tree_eq (joint (solved_form self.now) code) (variable code) }
    {
        match self.cell_of(code) {
            None => true,
            Some(cell) => self.cell(cell).is_variable_of(code),
        }
    }

    /// The cell of a number.
    fn cell(&self, cell: usize) -> Cell
        requires { cell < length self.now.cells.items }
        ensures { result ≡ cell_at self.now.cells.items cell }
    {
        self.cells[cell]
    }

    /// The terms for the first variables of a side.
    fn side<N: Naming>(&self, alloc: Global, names: &N, side: Side, count: u32) -> Mem<Subst>
        requires names { HasNames self.now (N.count names.now) }
        requires all { (v : ℕ) → v < count → code_of self.now.apart side v < N.count names.now }
        ensures { IfOk result (λ terms. terms ≡ side_terms (solved_form self.now) (N.meaning names.now) side count) }
    {
        let mut items = Vec::with_capacity(alloc, count as usize)?;
        for variable in 0..count {
            items.push(self.named(alloc, names, code(self.apart, side, variable))?)?;
        }
        Ok(Terms::from_vec(items))
    }

    /// The instance of a side's term, whose variables have names.
    #[cycle(filled)]
    fn filled(&self, alloc: Global, side: Side, term: &Term) -> Mem<Term>
        requires names { HasNames self.now (2 ^ 32) }
        requires below { VariablesBelow SIZE_LIMIT (tree_of term.now) }
        ensures { IfOk result (λ made. tree_of made ≡ instance (substitution_of (solved_form self.now) side) (tree_of term.now)) }
    {
        match term {
            Term::Var(variable) => {
                self.named(alloc, &OwnNumbers, code(self.apart, side, *variable))
            }
            Term::App(symbol, arguments) => {
                Ok(Term::App(*symbol, self.all_filled(alloc, side, arguments.as_slice())?))
            }
        }
    }

    #[cycle(filled)]
    fn all_filled(&self, alloc: Global, side: Side, terms: &[Term]) -> Mem<Terms>
        requires names { HasNames self.now (2 ^ 32) }
        requires below { AllVariablesBelow SIZE_LIMIT (trees_of (map tree_of terms.now)) }
        ensures { IfOk result (λ made. made ≡ map (instance (substitution_of (solved_form self.now) side)) (map tree_of terms.now)) }
    {
        let mut items = Vec::with_capacity(alloc, terms.len())?;
        for term in terms {
            items.push(self.filled(alloc, side, term)?)?;
        }
        Ok(Terms::from_vec(items))
    }

    /// The term that stands for a variable, with the shared variables renamed.
    fn named<N: Naming>(&self, alloc: Global, names: &N, code: u64) -> Mem<Term>
        requires names { HasNames self.now (N.count names.now) }
        requires inside { code < N.count names.now }
        ensures { IfOk result (λ term. tree_of term ≡ renamed (N.meaning names.now) (joint (solved_form self.now) code)) }
    {
        match self.cell_of(code) {
            Some(cell) => self.term_at(alloc, names, cell),
            None => Ok(Term::Var(names.name(code))),
        }
    }

    /// The term of a cell, with the shared variables renamed.
    #[cycle(build)]
    fn term_at<N: Naming>(&self, alloc: Global, names: &N, cell: usize) -> Mem<Term>
        requires names { HasNames self.now (N.count names.now) }
        requires inside { cell < length self.now.cells.items }
        ensures { IfOk result (λ term.
            tree_of term ≡ renamed (N.meaning names.now) (as_tree (value_at variable self.now.cells.items cell))) }
    {
        match self.cell(cell) {
            Cell::Variable(code) => Ok(Term::Var(names.name(code))),
            Cell::Application(symbol, list) => {
                Ok(Term::App(symbol, self.terms_at(alloc, names, list)?))
            }
            Cell::NoTrees => Ok(no_term(alloc)),
            Cell::TreeThen(_, _) => Ok(no_term(alloc)),
        }
    }

    /// The terms of a list's cell, with the shared variables renamed.
    #[cycle(build)]
    fn terms_at<N: Naming>(&self, alloc: Global, names: &N, list: usize) -> Mem<Terms>
        requires names { HasNames self.now (N.count names.now) }
        requires inside { list < length self.now.cells.items }
        ensures { IfOk result (λ terms.
            trees_of terms ≡ renamed_trees (N.meaning names.now) (as_trees (value_at variable self.now.cells.items list))) }
    {
        let mut items = Vec::new(alloc);
        let mut at = list;
        while let Some((first, rest)) = self.cell(at).list_parts() {
            items.push(self.term_at(alloc, names, first)?)?;
            at = rest;
        }
        Ok(Terms::from_vec(items))
    }
}

/// The term that fills places where no term can stand.
fn no_term(alloc: Global) -> Term
    ensures { tree_of result ≡ application 0 no_trees }
{
    Term::App(0, Terms::new(alloc))
}

/// Whether the variable of a number is below its side's count, or below one of both where the sides aren't
/// apart.
fn is_within(apart: bool, code: u64, left_vars: u32, right_vars: u32) -> bool
    ensures { result ≡ is_within apart left_vars right_vars code }
{
    if !apart {
        return code < u64::from(left_vars.max(right_vars));
    }
    if code % 2 == 0 {
        code / 2 < u64::from(left_vars)
    } else {
        code / 2 < u64::from(right_vars)
    }
}
