// The size of an instance, without building it.

ghost use Rattle.std.specs.Prelude.{◌≡◌, ◌<◌, ◌≤◌, length, map, slice_index, sum_by, IfOk};
ghost use Rattle.fol_base.specs.Tree.{tree_size, trees_size, trees_of};
ghost use Rattle.fol_base.specs.Instance.{instance, instances};
ghost use Rattle.fol_base.specs.Clause.{literal_size};
ghost use Rattle.fol_base.specs.Ground.{literals_instance};
ghost use Rattle.fol_base.specs.Term.{tree_of};
ghost use Rattle.term_bank.specs.Literal.{AreLiteralsOf, literals_at};
ghost use Rattle.unifier.specs.Cells.{IsAfterParts};
ghost use Rattle.unifier.specs.SolvedForm.{substitution_of};
ghost use Rattle.unifier.specs.Solution.{solved_form};
ghost use Rattle.plain_types.specs.Capped.{capped};
ghost use Rattle.unifier.specs.Sizes.{AreSizes, size_by};

use crate::cells::Cell;
use crate::layout::code;
use crate::solution::Solution;
use fol_base::{Side, Term};
use plain_types::Mem;
use term_bank::{Bank, BankLit};

/// How many cells have their sizes in an array, for which no memory is taken.
const FEW_CELLS: usize = 64;

impl Solution {
    /// The size of a side's literals after the unifier, as `Bindings::instance_size` has it.
    pub fn instance_size(&self, bank: &Bank, side: Side, literals: &[BankLit]) -> Mem<u64>
        requires { AreLiteralsOf bank.now literals.now }
        ensures { IfOk result (λ size. size
            ≡ capped (sum_by literal_size (literals_instance (substitution_of (solved_form self.now) side) (literals_at literals.now)))) }
    {
        if self.cells.len() <= FEW_CELLS {
            return Ok(self.literals_size(&self.few_sizes(), bank, side, literals));
        }
        let sizes = self.cell_sizes()?;
        Ok(self.literals_size(sizes.as_slice(), bank, side, literals))
    }

    /// The size of a side's term after the unifier, as `Bindings::term_size` has it.
    pub fn size_of(&self, side: Side, term: &Term) -> Mem<u64>
        ensures { IfOk result (λ size. size
            ≡ capped (tree_size (instance (substitution_of (solved_form self.now) side) (tree_of term.now)))) }
    {
        if self.cells.len() <= FEW_CELLS {
            return Ok(self.term_size(&self.few_sizes(), side, term));
        }
        let sizes = self.cell_sizes()?;
        Ok(self.term_size(sizes.as_slice(), side, term))
    }

    /// The sizes of few cells, each from those of its parts.
    fn few_sizes(&self) -> [u64; FEW_CELLS]
        requires { length self.now.cells.items ≤ FEW_CELLS }
        ensures { AreSizes self.now.cells.items result (length self.now.cells.items) }
    {
        let mut sizes = [0; FEW_CELLS];
        for cell in 0..self.cells.len() {
            sizes[cell] = size_from_parts(self.cells[cell], &sizes);
        }
        sizes
    }

    /// The sizes of the cells, each from those of its parts.
    fn cell_sizes(&self) -> Mem<Vec<u64>>
        ensures { IfOk result (λ sizes. AreSizes self.now.cells.items sizes.items (length self.now.cells.items)) }
    {
        let mut sizes = Vec::with_capacity(*self.cells.allocator(), self.cells.len())?;
        for cell in 0..self.cells.len() {
            let size = size_from_parts(self.cells[cell], sizes.as_slice());
            sizes.push(size)?;
        }
        Ok(sizes)
    }

    /// The size of a side's literals after the unifier.
    fn literals_size(&self, sizes: &[u64], bank: &Bank, side: Side, literals: &[BankLit]) -> u64
        requires sizes { AreSizes self.now.cells.items sizes.now (length self.now.cells.items) }
        requires literals { AreLiteralsOf bank.now literals.now }
        ensures { result
            ≡ capped (sum_by literal_size (literals_instance (substitution_of (solved_form self.now) side) (literals_at literals.now))) }
    {
        let mut total: u64 = 0;
        for literal in literals {
            let left = self.term_size(sizes, side, bank.tree(&literal.left));
            let right = self.term_size(sizes, side, bank.tree(&literal.right));
            total = total.saturating_add(left.saturating_add(right));
        }
        total
    }

    /// The size of a side's term after the unifier.
    #[cycle(instance)]
    fn term_size(&self, sizes: &[u64], side: Side, term: &Term) -> u64
        requires { AreSizes self.now.cells.items sizes.now (length self.now.cells.items) }
        ensures { result ≡ capped (tree_size (instance (substitution_of (solved_form self.now) side) (tree_of term.now))) }
    {
        match term {
            Term::Var(variable) => self.variable_size(sizes, side, *variable),
            Term::App(_, arguments) => {
                self.terms_size(sizes, side, arguments.as_slice())
                    .saturating_add(1)
            }
        }
    }

    /// The sizes of a side's terms after the unifier, together.
    #[cycle(instance)]
    fn terms_size(&self, sizes: &[u64], side: Side, terms: &[Term]) -> u64
        requires { AreSizes self.now.cells.items sizes.now (length self.now.cells.items) }
        ensures { result ≡ capped (trees_size (instances (substitution_of (solved_form self.now) side) (trees_of (map tree_of terms.now)))) }
    {
        let mut total: u64 = 0;
        for term in terms {
            total = total.saturating_add(self.term_size(sizes, side, term));
        }
        total
    }

    /// The size of what stands for a side's variable.
    fn variable_size(&self, sizes: &[u64], side: Side, variable: u32) -> u64
        requires { AreSizes self.now.cells.items sizes.now (length self.now.cells.items) }
        ensures { result ≡ capped (tree_size (substitution_of (solved_form self.now) side variable)) }
    {
        match self.cell_of(code(self.apart, side, variable)) {
            Some(cell) => size_at(sizes, cell),
            None => 1,
        }
    }
}

/// The size of a cell that has one.
fn size_at(sizes: &[u64], cell: usize) -> u64
    requires { cell < length sizes.now }
    ensures { result ≡ slice_index sizes.now cell }
{
    sizes[cell]
}

/// The size of a cell from those of its parts.
fn size_from_parts(cell: Cell, sizes: &[u64]) -> u64
    requires { IsAfterParts (length sizes.now) cell }
    ensures { result ≡ size_by sizes.now cell }
{
    match cell {
        Cell::Variable(_) => 1,
        Cell::Application(_, list) => sizes[list].saturating_add(1),
        Cell::NoTrees => 0,
        Cell::TreeThen(first, rest) => sizes[first].saturating_add(sizes[rest]),
    }
}
