// Laying terms out as cells.

ghost use Rattle.std.specs.Prelude.{◌≡◌, ◌++◌, ℕ, ◌≤◌, ◌<◌, ◌-◌, [], Some, length, map, nat_lt, not, slice_index, take, ◌==◌, IfOk, OnOk, true, false};
ghost use Rattle.std.specs.List.{list_any};
ghost use Rattle.std.specs.List.Sorted.{IsNonDecreasing};
ghost use Rattle.fol_base.specs.Tree.{tree_variables, trees_variables, trees_of};
ghost use Rattle.fol_base.specs.Term.{tree_of};
ghost use Rattle.unifier.specs.SolvedForm.{code_of};
ghost use Rattle.unifier.specs.Layout.{AreRising, HavePlaces, all_pass, cell_of, has_place};

use crate::cells::Cell;
use fol_base::{Side, Term};
use plain_types::Mem;
use std::alloc::Global;

/// The cells of two terms, with one cell for each variable. The places are in the order of the variables'
/// numbers.
#[derive(Drop)]
pub struct Layout {
    pub cells: Vec<Cell>,
    pub places: Vec<Place>,
}

/// Room for the occurrences of variables in two terms of usual size, so that their list need not grow.
const USUAL_OCCURRENCES: usize = 32;

/// Room for different variables.
const USUAL_VARIABLES: usize = 8;

/// Room for cells.
const USUAL_CELLS: usize = 64;

/// A variable, by its number among those of both sides, and its cell.
#[derive(Clone, Copy)]
pub struct Place {
    pub code: u64,
    pub cell: usize,
}

impl Layout {
    ghost use Rattle.unifier.specs.Cells.{HasKinds, IsAfterParts, cell_at, is_list, is_variable};
    ghost use Rattle.unifier.specs.SolvedForm.{codes_of};
    ghost use Rattle.unifier.specs.Layout.{HasVariables, IsLayout, IsPushed, IsWithVariable, TermLaidOut, TermsLaidOut};

    /// The empty list, and a cell for each variable of two terms.
    pub fn new(alloc: Global, apart: bool, left: &Term, right: &Term) -> Mem<Layout>
        ensures { IfOk result (HasVariables (codes_of apart (tree_of left.now) (tree_of right.now))) }
    {
        let mut codes = Vec::with_capacity(alloc, USUAL_OCCURRENCES)?;
        push_codes(&mut codes, apart, Side::Left, left)?;
        push_codes(&mut codes, apart, Side::Right, right)?;
        codes.sort_unstable();
        Layout::with_variables(alloc, codes.as_slice())
    }

    /// The empty list, and a cell for each of the variables, whose numbers are in order.
    fn with_variables(alloc: Global, codes: &[u64]) -> Mem<Layout>
        requires { IsNonDecreasing codes.now }
        ensures { IfOk result (HasVariables codes.now) }
    {
        let mut layout = Layout::without_variables(alloc)?;
        for index in 0..codes.len() {
            if is_first(codes, index) {
                layout.add_variable(codes[index])?;
            }
        }
        Ok(layout)
    }

    /// The empty list alone.
    fn without_variables(alloc: Global) -> Mem<Layout>
        ensures { IfOk result (HasVariables []) }
    {
        let mut cells = Vec::with_capacity(alloc, USUAL_CELLS)?;
        cells.push(Cell::NoTrees)?;
        Ok(Layout {
            cells,
            places: Vec::with_capacity(alloc, USUAL_VARIABLES)?,
        })
    }

    /// Adds a variable that comes after those which have places.
    fn add_variable(&mut self, code: u64) -> Mem<()>
        requires layout { IsLayout self.old }
        requires after { all_pass (λ w. nat_lt w code) self.old.places.items ≡ true }
        ensures { OnOk result (IsWithVariable self.old self.new code) }
    {
        let cell = self.cells.len();
        self.cells.push(Cell::Variable(code))?;
        self.places.push(Place { code, cell })?;
        Ok(())
    }

    /// Lays a term of a side out, whose variables have places, and gives the number of its cell.
    #[cycle(lay)]
    pub fn lay_term(&mut self, apart: bool, side: Side, term: &Term) -> Mem<usize>
        requires layout { IsLayout self.old }
        requires places { HavePlaces self.old.places.items apart side (tree_variables (tree_of term.now)) }
        ensures { IfOk result (TermLaidOut self.old self.new apart side (tree_of term.now)) }
    {
        match term {
            Term::Var(variable) => Ok(self.variable_cell(code(apart, side, *variable))),
            Term::App(symbol, arguments) => {
                let list = self.lay_terms(apart, side, arguments.as_slice())?;
                self.push(Cell::Application(*symbol, list))
            }
        }
    }

    /// Lays a list of terms out, the last one first, and gives the number of the list's cell.
    #[cycle(lay)]
    fn lay_terms(&mut self, apart: bool, side: Side, terms: &[Term]) -> Mem<usize>
        requires layout { IsLayout self.old }
        requires places { HavePlaces self.old.places.items apart side (trees_variables (trees_of (map tree_of terms.now))) }
        ensures { IfOk result (TermsLaidOut self.old self.new apart side (trees_of (map tree_of terms.now))) }
    {
        let mut list = 0;
        for index in (0..terms.len()).rev() {
            let first = self.lay_term(apart, side, &terms[index])?;
            list = self.push(Cell::TreeThen(first, list))?;
        }
        Ok(list)
    }

    /// The cell of a variable that has a place.
    fn variable_cell(&self, code: u64) -> usize
        requires layout { IsLayout self.now }
        requires place { has_place self.now.places.items code ≡ true }
        ensures { cell_of code self.now.places.items ≡ Some result }
    {
        find_place(self.places.as_slice(), code).unwrap_or(0)
    }

    /// Adds a cell that is no variable.
    fn push(&mut self, cell: Cell) -> Mem<usize>
        requires layout { IsLayout self.old }
        requires parts { IsAfterParts (length self.old.cells.items) cell }
        requires kinds { HasKinds self.old.cells.items cell }
        requires no_variable { is_variable cell ≡ false }
        ensures { IfOk result (IsPushed self.old self.new cell) }
    {
        let number = self.cells.len();
        self.cells.push(cell)?;
        Ok(number)
    }
}

/// The cell of a variable, found by halving.
pub fn find_place(places: &[Place], code: u64) -> Option<usize>
    requires { AreRising places.now }
    ensures { result ≡ cell_of code places.now }
{
    match places.binary_search_by_key(&code, |place| place.code) {
        Ok(at) => Some(places[at].cell),
        Err(_) => None,
    }
}

/// Whether a number of a list in order stands there for the first time.
fn is_first(codes: &[u64], index: usize) -> bool
    requires order { IsNonDecreasing codes.now }
    requires inside { index < length codes.now }
    ensures { result ≡ not (list_any (λ w. w == slice_index codes.now index) (take index codes.now)) }
{
    if index == 0 {
        return true;
    }
    codes[index - 1] < codes[index]
}

/// Adds the numbers of a side's term's variables, with repetitions.
#[cycle(push_codes)]
fn push_codes(codes: &mut Vec<u64>, apart: bool, side: Side, term: &Term) -> Mem<()>
    ensures { OnOk result (codes.new.items ≡ codes.old.items ++ map (code_of apart side) (tree_variables (tree_of term.now))) }
{
    match term {
        Term::Var(variable) => Ok(codes.push(code(apart, side, *variable))?),
        Term::App(_, arguments) => push_all_codes(codes, apart, side, arguments.as_slice()),
    }
}

#[cycle(push_codes)]
fn push_all_codes(codes: &mut Vec<u64>, apart: bool, side: Side, terms: &[Term]) -> Mem<()>
    ensures { OnOk result (codes.new.items
        ≡ codes.old.items ++ map (code_of apart side) (trees_variables (trees_of (map tree_of terms.now)))) }
{
    for term in terms {
        push_codes(codes, apart, side, term)?;
    }
    Ok(())
}

/// The number of a side's variable among the variables of both sides. Where the sides are taken apart,
/// the left ones get the even numbers and the right ones the odd ones.
pub fn code(apart: bool, side: Side, variable: u32) -> u64
    ensures { result ≡ code_of apart side variable }
{
    let number = u64::from(variable);
    if !apart {
        return number;
    }
    match side {
        Side::Left => 2 * number,
        Side::Right => 2 * number + 1,
    }
}
