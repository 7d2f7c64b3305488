// The table that is read off a propositional model.

ghost use Rattle.std.specs.Prelude.{◌≡◌, ◌<◌, ◌≤◌, ◌+◌, ◌*◌, ◌^◌, ◌++◌, length, if◌then◌else◌, IfOk};
ghost use Rattle.sat_core.specs.Clause.{valuation_of};
ghost use Rattle.signature.specs.Symbol.{is_predicate_kind};
ghost use Rattle.finite_models.specs.EntryNames.{AreEntryNames};
ghost use Rattle.finite_models.specs.Translation.{value_name};
ghost use Rattle.finite_models.specs.Table.{first_passing, entry_value, symbol_cells, table_cells};

use crate::answer::{Cell, Cells, Interpretation, Values};
use crate::digits::{digits_of, power};
use crate::entry_names::EntryNames;
use crate::functions::FunctionNames;
use plain_types::Mem;
use signature::{Signature, SymbolKind};
use std::alloc::Global;

/// The table of every symbol but `$true`.
pub(crate) fn table_of(
    alloc: Global,
    signature: &Signature,
    names: &EntryNames,
    truths: &[bool],
) -> Mem<Interpretation>
    requires names { AreEntryNames signature.now names.now }
    requires size { 1 ≤ names.now.size }
    ensures size { IfOk result (λ table. table.size ≡ names.now.size) }
    ensures cells { IfOk result (λ table. table.cells ≡ table_cells signature.now names.now (valuation_of truths.now)) }
{
    let mut cells = Vec::new(alloc);
    for number in 1..signature.len() {
        push_cells(alloc, signature, number as u32, names, truths, &mut cells)?;
    }
    Ok(Interpretation {
        size: names.size,
        cells: Cells::from_vec(cells),
    })
}

/// Adds the cells of a symbol.
fn push_cells(
    alloc: Global,
    signature: &Signature,
    number: u32,
    names: &EntryNames,
    truths: &[bool],
    cells: &mut Vec<Cell>,
) -> Mem<()>
    requires symbol { number < length signature.now }
    requires names { AreEntryNames signature.now names.now }
    requires size { 1 ≤ names.now.size }
    ensures { IfOk result (λ _. cells.new.items ≡ cells.old.items ++ symbol_cells signature.now names.now (valuation_of truths.now) number) }
{
    let symbol = signature.symbol(number);
    let (kind, arity) = (symbol.kind, symbol.arity);
    let rows = power(names.size, arity)?;
    let function = FunctionNames {
        first: names.first(number),
        rows,
        size: names.size,
    };
    for place in 0..rows {
        let arguments = digits_of(alloc, names.size, arity, rows, place)?;
        let value = entry_value(kind, function, place, truths);
        cells.push(Cell {
            symbol: number,
            arguments: Values::from_vec(arguments),
            value,
        })?;
    }
    Ok(())
}

/// What a symbol gives at the arguments with a number: for a predicate 1 where it holds, else 0.
fn entry_value(kind: SymbolKind, names: FunctionNames, number: u32, truths: &[bool]) -> u32
    requires number { number < names.rows }
    requires fits { names.first + (if is_predicate_kind kind then names.rows else names.size * names.rows) < 2 ^ 32 }
    ensures { result ≡ entry_value (is_predicate_kind kind) names.size names.first names.rows (valuation_of truths.now) number }
{
    match kind {
        SymbolKind::Predicate => u32::from(is_true(truths, names.first + number)),
        SymbolKind::Function => value_of(names, number, truths),
    }
}

/// The first value that the entries of a function have at the arguments with a number, 0 where they have none.
fn value_of(function: FunctionNames, number: u32, truths: &[bool]) -> u32
    requires number { number < function.rows }
    requires fits { function.first + function.size * function.rows < 2 ^ 32 }
    ensures { result
        ≡ first_passing (λ v. valuation_of truths.now (value_name function.first function.rows number v)) 0 function.size }
{
    for value in 0..function.size {
        let name = function.name(number, value);
        if is_true(truths, name) {
            return value;
        }
    }
    0
}

fn is_true(truths: &[bool], name: u32) -> bool
    ensures { result ≡ valuation_of truths.now name }
{
    truths.get(name as usize).copied().unwrap_or(false)
}
