// The parts of a line besides its source: its clause, and the bindings of its items.

ghost use Rattle.std.specs.Prelude.{◌≡◌, [], IfOk, IsTrue, not, map, option_map};
ghost use Rattle.std.specs.List.{list_all};
ghost use Rattle.tptp_tree.specs.Shape.{formula_of};
ghost use Rattle.tptp_source.specs.Shape.{tree_of as general_of};
ghost use Rattle.fol_base.specs.Literal.{clause_of};
ghost use Rattle.signature.specs.Symbol.{has_symbol};
ghost use Rattle.clausal_form.specs.DerivationClause.{ordinary_literals, symbols_in, term_by, clause_by, is_written_clause};
ghost use Rattle.clausal_form.specs.DerivationItems.{bindings_in};
ghost use Rattle.tstp_lines.specs.Bindings.{all_bound};
ghost use Rattle.tstp_lines.specs.Parts.{parts_numbering};

use crate::bindings::Bindings;
use crate::names::NameTable;
use crate::numbers::LineNumbers;
use fol_base::Clause;
use plain_types::Mem;
use signature::Signature;
use std::alloc::Global;
use tptp_source::GeneralTerm;
use tptp_tree::Formula;

/// The clause of a line, what its `bind` items bind, and whether a symbol of either isn't one of the form.
#[derive(Drop)]
pub struct LineParts {
    pub clause: Clause,
    pub bindings: Bindings,
    pub has_new_symbol: bool,
}

impl LineNumbers {
    /// The numbers of a form's symbols, before a line is read.
    pub fn of_form(alloc: Global, signature: &Signature) -> Mem<LineNumbers>
        ensures symbols { IfOk result (λ numbers. numbers.symbols ≡ signature.now) }
        ensures variables { IfOk result (λ numbers. numbers.variables ≡ []) }
    {
        Ok(LineNumbers {
            symbols: signature.copy(alloc)?,
            variables: NameTable::new(alloc),
        })
    }

    /// The parts of a line whose formula is written as a clause; a rule that binds nothing is given no items. Then the numbers are
    /// again those of the form. After out of memory they are spent: nothing is said of them.
    pub fn parts(
        &mut self,
        alloc: Global,
        names: &NameTable,
        formula: &Formula,
        items: &[GeneralTerm],
    ) -> Mem<LineParts>
        requires written { IsTrue (is_written_clause names.now (formula_of formula.now)) }
        requires begun { self.old.variables ≡ [] }
        ensures clause { IfOk result (λ parts. clause_of parts.clause
            ≡ clause_by (parts_numbering self.old.symbols names.now (formula_of formula.now) (map general_of items.now))
            names.now (formula_of formula.now)) }
        ensures bindings { IfOk result (λ parts. parts.bindings
            ≡ map (option_map (map (term_by (parts_numbering self.old.symbols names.now (formula_of formula.now) (map general_of items.now)))))
            (bindings_in (map general_of items.now))) }
        ensures new_symbol { IfOk result (λ parts. parts.has_new_symbol
            ≡ not (list_all (λ x. has_symbol x self.old.symbols)
            (symbols_in (ordinary_literals names.now (formula_of formula.now)) (all_bound (map general_of items.now))))) }
        ensures symbols { IfOk result (λ _. self.new.symbols ≡ self.old.symbols) }
        ensures variables { IfOk result (λ _. self.new.variables ≡ []) }
    {
        let known = self.symbols.len();
        let clause = self.clause(alloc, names, formula)?;
        let bindings = self.bindings(alloc, items)?;
        let has_new_symbol = known < self.symbols.len();
        self.symbols.truncate(known);
        self.variables.clear();
        Ok(LineParts {
            clause,
            bindings,
            has_new_symbol,
        })
    }
}
