// The index from symbols to the formulas that have them.

ghost use Rattle.std.specs.Prelude.{◌≡◌, ◌<◌, ℕ, false, ◌++◌, [], ◌∷◌, cond, length, IfOk};
ghost use Rattle.axiom_filter.specs.Tables.{has_number, row_of, rows_with, ends_with_number, AreBelow, AreRowsBelow};

use plain_types::{Mem, Numbers};
use std::alloc::Global;

/// For each symbol the places of the formulas that have it, rising.
pub(crate) fn symbol_index(alloc: Global, rows: &[Numbers], symbols: usize) -> Mem<Vec<Numbers>>
    requires { AreRowsBelow symbols rows.now }
    ensures symbols { IfOk result (λ index. length index.items ≡ symbols) }
    ensures lists { IfOk result (λ index. (n : ℕ) → n < symbols → row_of index.items n ≡ rows_with n rows.now) }
{
    let mut index = empty_lists(alloc, symbols)?;
    for (place, row) in rows.iter().enumerate() {
        enter(row.as_slice(), place as u64, index.as_mut_slice())?;
    }
    Ok(index)
}

fn empty_lists(alloc: Global, count: usize) -> Mem<Vec<Numbers>>
    ensures count { IfOk result (λ lists. length lists.items ≡ count) }
    ensures empty { IfOk result (λ lists. (n : ℕ) → row_of lists.items n ≡ []) }
{
    let mut lists = Vec::with_capacity(alloc, count)?;
    for i in 0..count {
        lists.push(Numbers::new(alloc))?;
    }
    Ok(lists)
}

/// Adds a formula to the lists of its symbols, to each once: a list that it is in ends with it.
fn enter(row: &[u64], place: u64, index: &mut [Numbers]) -> Mem<()>
    requires row { AreBelow (length index.old) row.now }
    requires new { (n : ℕ) → ends_with_number (row_of index.old n) place ≡ false }
    ensures { IfOk result (λ _. (n : ℕ) → n < length index.old → row_of index.new n ≡ row_of index.old n ++ cond (has_number n row.now) (place ∷ []) []) }
{
    for symbol in row {
        let list = &mut index[*symbol as usize];
        if !ends_with(list.as_slice(), place) {
            list.push(place)?;
        }
    }
    Ok(())
}

fn ends_with(list: &[u64], number: u64) -> bool
    ensures { result ≡ ends_with_number list.now number }
{
    match list.last() {
        Some(last) => *last == number,
        None => false,
    }
}
