// The text of a model.

ghost use Rattle.std.specs.Prelude.{◌≡◌, ◌++◌, ◌∷◌, [], flat_map, IfOk};
ghost use Rattle.tptp_tree.specs.ProblemSize.{HasProblemSize};
ghost use Rattle.model_writer.specs.TableText.{more_values_text, values_text, named_cell_text, cell_text, shown_cells, size_text, model_text};

use finite_models::{Cell, Interpretation};
use plain_types::{Mem, Text};
use signature::{Signature, Symbol};
use std::alloc::Global;
use tptp_tree::Problem;
use tstp_writer::Page;

/// A line for the size, `% size 2`, and one for each cell of a symbol of the problem, in order: `% f(0,1) = 1`.
pub fn write_model(alloc: Global, problem: &Problem, model: &Interpretation) -> Mem<Text>
    requires { HasProblemSize problem.now.formulas }
    ensures { IfOk result (λ text. text ≡ model_text problem.now.formulas model.now) }
{
    let signature = Signature::of_problem(alloc, problem)?;
    let mut page = Page::new(alloc);
    push_size(&mut page, model.size)?;
    push_cells(&mut page, signature.as_slice(), model.cells.as_slice())?;
    Ok(page.into_text())
}

/// Adds the line of the size.
fn push_size(page: &mut Page, size: u32) -> Mem<()>
    ensures { IfOk result (λ _. page.new ≡ page.old ++ size_text size) }
{
    page.bytes(b"% size ")?;
    page.number(u64::from(size))?;
    page.bytes(b"\n")
}

/// Adds a line for each cell of one of the symbols.
fn push_cells(page: &mut Page, symbols: &[Symbol], cells: &[Cell]) -> Mem<()>
    ensures { IfOk result (λ _. page.new ≡ page.old ++ flat_map (cell_text symbols.now) (shown_cells symbols.now cells.now)) }
{
    for cell in cells {
        push_cell(page, symbols, cell)?;
    }
    Ok(())
}

/// Adds the line of a cell, if it is one of the symbols'.
fn push_cell(page: &mut Page, symbols: &[Symbol], cell: &Cell) -> Mem<()>
    ensures { IfOk result (λ _. page.new ≡ page.old ++ flat_map (cell_text symbols.now) (shown_cells symbols.now (cell.now ∷ []))) }
{
    match symbols.get(cell.symbol as usize) {
        None => Ok(()),
        Some(symbol) => push_named_cell(page, symbol.name.as_slice(), cell),
    }
}

/// Adds the line of a cell, by its symbol's name.
fn push_named_cell(page: &mut Page, name: &[u8], cell: &Cell) -> Mem<()>
    ensures { IfOk result (λ _. page.new ≡ page.old ++ named_cell_text name.now cell.now) }
{
    page.bytes(b"% ")?;
    page.name(name)?;
    push_values(page, cell.arguments.as_slice())?;
    page.bytes(b" = ")?;
    page.number(u64::from(cell.value))?;
    page.bytes(b"\n")
}

/// Adds values between brackets, or nothing where there are none.
fn push_values(page: &mut Page, values: &[u32]) -> Mem<()>
    ensures { IfOk result (λ _. page.new ≡ page.old ++ values_text values.now) }
{
    match values.split_first() {
        None => Ok(()),
        Some((first, rest)) => {
            page.bytes(b"(")?;
            page.number(u64::from(*first))?;
            push_more_values(page, rest)
        }
    }
}

/// Adds the values from the second on, and the closing bracket.
fn push_more_values(page: &mut Page, values: &[u32]) -> Mem<()>
    ensures { IfOk result (λ _. page.new ≡ page.old ++ more_values_text values.now) }
{
    for value in values {
        page.bytes(b",")?;
        page.number(u64::from(*value))?;
    }
    page.bytes(b")")
}
