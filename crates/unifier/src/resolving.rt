// Laying out what variables are equal to, so that no bound variable is left: the bound terms alone become cells.

ghost use Rattle.std.specs.Prelude.{◌≡◌, None, Some, true, map, MatchBool, IfOk, IfSome, OnOk};
ghost use Rattle.fol_base.specs.Tree.{trees_of};
ghost use Rattle.fol_base.specs.Term.{tree_of};
ghost use Rattle.unifier.specs.Layout.{cell_of};
ghost use Rattle.unifier.specs.Equations.{bound_in, item_of, noted_of};
ghost use Rattle.unifier.specs.Resolving.{
  AreResolved,
  AreTermsResolved,
  IsCellAdded,
  IsPlaceAdded,
  IsResolving,
  IsTermResolved,
  IsVariableResolved,
  codes_in,
};

use crate::cells::Cell;
use crate::equation::{Equations, MOST_EQUATIONS, MOST_NOTED, SideTerm, SideTerms};
use crate::layout::{Layout, Place, code};
use crate::solution::FEW_PLACES;
use fol_base::Term;
use plain_types::Mem;

/// Room for the cells of what is bound in terms of usual size, taken with the first of them: terms without variables take none.
const USUAL_CELLS: usize = 32;

/// Room for the variables of such terms.
const USUAL_PLACES: usize = 8;

/// No equation's tree is being laid out.
const NONE_OPEN: u8 = 0;

/// How many levels of terms and of bindings are laid out at most.
const MOST_LEVELS: u32 = 64;

impl Layout {
    /// Gives a place to each variable that has an equation, and so to those of the terms that these are equal to. False
    /// where some tree is too deep, as where a variable would have to contain itself, or there are too many variables.
    pub fn resolve_equations<'a>(&mut self, equations: &Equations<'a>, apart: bool) -> Mem<bool>
        requires { IsResolving apart equations.now self.old }
        ensures { IfOk result (λ complete. complete ≡ true → AreResolved apart equations.now self.old self.new (codes_in equations.now)) }
    {
        for equation in equations.items[..equations.len.min(MOST_EQUATIONS)].iter() {
            let cell = self.resolve_variable(
                equations,
                apart,
                MOST_LEVELS,
                NONE_OPEN,
                equation.code,
            )?;
            if cell.is_none() {
                return Ok(false);
            }
        }
        Ok(true)
    }

    /// Gives a place to the variables that are noted.
    pub fn resolve_noted<'a>(&mut self, equations: &Equations<'a>, apart: bool) -> Mem<bool>
        requires { IsResolving apart equations.now self.old }
        ensures { IfOk result (λ complete. complete ≡ true → AreResolved apart equations.now self.old self.new (noted_of equations.now)) }
    {
        for code in equations.noted[..equations.noted_len.min(MOST_NOTED)].iter() {
            let cell = self.resolve_variable(equations, apart, MOST_LEVELS, NONE_OPEN, *code)?;
            if cell.is_none() {
                return Ok(false);
            }
        }
        Ok(true)
    }

    /// The cell of a variable's tree. None where the tree is too deep, the variable would contain itself or there
    /// are too many variables. `open` has the marks of the equations whose trees are being laid out.
    #[cycle(resolve)]
    fn resolve_variable<'a>(
        &mut self,
        equations: &Equations<'a>,
        apart: bool,
        levels: u32,
        open: u8,
        variable: u64,
    ) -> Mem<Option<usize>>
        requires { IsResolving apart equations.now self.old }
        ensures { IfOk result (λ found. IfSome found (IsVariableResolved apart equations.now self.old self.new variable)) }
    {
        if let Some(cell) = place_among(self.places.as_slice(), variable) {
            return Ok(Some(cell));
        }
        if self.places.len() >= FEW_PLACES {
            return Ok(None);
        }
        match equations.find(variable) {
            Some(bound) => self.resolve_bound(equations, apart, levels, open, variable, bound),
            None => {
                let cell = self.add_cell(Cell::Variable(variable))?;
                self.add_place(variable, cell)?;
                Ok(Some(cell))
            }
        }
    }

    /// The cell of the tree of a variable that has an equation, and no place yet. Where the equation is open, the
    /// variable contains itself.
    #[cycle(resolve)]
    fn resolve_bound<'a>(
        &mut self,
        equations: &Equations<'a>,
        apart: bool,
        levels: u32,
        open: u8,
        variable: u64,
        bound: SideTerm<'a>,
    ) -> Mem<Option<usize>>
        requires resolving { IsResolving apart equations.now self.old }
        requires bound { bound_in equations.now variable ≡ Some (item_of bound) }
        ensures { IfOk result (λ found. IfSome found (IsVariableResolved apart equations.now self.old self.new variable)) }
    {
        if levels == 0 {
            return Ok(None);
        }
        let mark = equations.mark(variable);
        if open & mark != 0 {
            return Ok(None);
        }
        let Some(cell) = self.resolve_term(equations, apart, levels - 1, open | mark, bound)? else {
            return Ok(None);
        };
        if place_among(self.places.as_slice(), variable).is_some() {
            return Ok(None);
        }
        self.add_place(variable, cell)?;
        Ok(Some(cell))
    }

    /// The cell of a term. None where it is too deep.
    #[cycle(resolve)]
    fn resolve_term<'a>(
        &mut self,
        equations: &Equations<'a>,
        apart: bool,
        levels: u32,
        open: u8,
        bound: SideTerm<'a>,
    ) -> Mem<Option<usize>>
        requires { IsResolving apart equations.now self.old }
        ensures { IfOk result (λ found. IfSome found (IsTermResolved apart equations.now self.old self.new (item_of bound.entry))) }
    {
        match bound.term {
            Term::Var(variable) => {
                self.resolve_variable(
                    equations,
                    apart,
                    levels,
                    open,
                    code(apart, bound.side, *variable),
                )
            }
            Term::App(symbol, arguments) => {
                if levels == 0 {
                    return Ok(None);
                }
                let arguments = SideTerms {
                    side: bound.side,
                    terms: arguments.as_slice(),
                };
                match self.resolve_terms(equations, apart, levels - 1, open, arguments)? {
                    Some(list) => Ok(Some(self.add_cell(Cell::Application(*symbol, list))?)),
                    None => Ok(None),
                }
            }
        }
    }

    /// The cell of a list of terms, of which the last one is laid out first.
    #[cycle(resolve)]
    fn resolve_terms<'a>(
        &mut self,
        equations: &Equations<'a>,
        apart: bool,
        levels: u32,
        open: u8,
        bound: SideTerms<'a>,
    ) -> Mem<Option<usize>>
        requires { IsResolving apart equations.now self.old }
        ensures { IfOk result (λ found. IfSome found (AreTermsResolved apart equations.now self.old self.new
            bound.entry.side (trees_of (map tree_of bound.entry.terms.now)))) }
    {
        let mut list = self.add_cell(Cell::NoTrees)?;
        for index in (0..bound.terms.len()).rev() {
            let item = SideTerm {
                side: bound.side,
                term: &bound.terms[index],
            };
            match self.resolve_term(equations, apart, levels, open, item)? {
                Some(first) => list = self.add_cell(Cell::TreeThen(first, list))?,
                None => return Ok(None),
            }
        }
        Ok(Some(list))
    }

    fn add_cell(&mut self, cell: Cell) -> Mem<usize>
        ensures { IfOk result (IsCellAdded self.old self.new cell) }
    {
        let number = self.cells.len();
        if number == 0 {
            self.cells.reserve(USUAL_CELLS)?;
        }
        self.cells.push(cell)?;
        Ok(number)
    }

    fn add_place(&mut self, code: u64, cell: usize) -> Mem<()>
        ensures { OnOk result (IsPlaceAdded self.old self.new code cell) }
    {
        if self.places.is_empty() {
            self.places.reserve(USUAL_PLACES)?;
        }
        self.places.push(Place { code, cell })?;
        Ok(())
    }
}

/// The cell of a variable among a few places.
pub fn place_among(places: &[Place], code: u64) -> Option<usize>
    ensures { result ≡ cell_of code places.now }
{
    for place in places {
        if place.code == code {
            return Some(place.cell);
        }
    }
    None
}
