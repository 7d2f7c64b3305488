// Which formulas a symbol triggers.

ghost use Rattle.std.specs.Prelude.{◌≡◌, ◌<◌, ◌≤◌, ℕ, [], length, map, IfOk, All, slice_index};
ghost use Rattle.axiom_filter.specs.Tables.{row_of, rare_enough, least_length, AreBelow, AreRowsBelow};

use plain_types::{Mem, Numbers};
use std::alloc::Global;

/// For each formula the length of the shortest list of its symbols: how many formulas its rarest symbol has.
pub(crate) fn rarest_counts(alloc: Global, rows: &[Numbers], index: &[Numbers]) -> Mem<Vec<u64>>
    requires { AreRowsBelow (length index.now) rows.now }
    ensures { IfOk result (λ counts. counts.items ≡ map (least_length index.now) rows.now) }
{
    let mut counts = Vec::with_capacity(alloc, rows.len())?;
    for row in rows {
        counts.push(rarest_count(row.as_slice(), index))?;
    }
    Ok(counts)
}

fn rarest_count(row: &[u64], index: &[Numbers]) -> u64
    requires { AreBelow (length index.now) row.now }
    ensures { result ≡ least_length index.now row.now }
{
    let mut least = u64::MAX;
    for symbol in row {
        least = least.min(index[*symbol as usize].len() as u64);
    }
    least
}

/// For each symbol the places of the formulas that it triggers, rising.
pub(crate) fn triggered(
    alloc: Global,
    index: &[Numbers],
    rarest: &[u64],
    tolerance: u32,
) -> Mem<Vec<Numbers>>
    requires { AreRowsBelow (length rarest.now) index.now }
    ensures { IfOk result (λ lists. lists.items ≡ map (rare_enough tolerance rarest.now) index.now) }
{
    let mut lists = Vec::with_capacity(alloc, index.len())?;
    for places in index {
        lists.push(triggered_by(alloc, places.as_slice(), rarest, tolerance)?)?;
    }
    Ok(lists)
}

/// The places of the formulas that a symbol triggers, of those that have it.
fn triggered_by(alloc: Global, places: &[u64], rarest: &[u64], tolerance: u32) -> Mem<Numbers>
    requires { AreBelow (length rarest.now) places.now }
    ensures { IfOk result (λ list. list ≡ rare_enough tolerance rarest.now places.now) }
{
    let count = HUNDREDTHS * places.len() as u128;
    let mut list = Numbers::new(alloc);
    for place in places {
        if count <= u128::from(tolerance) * u128::from(rarest[*place as usize]) {
            list.push(*place)?;
        }
    }
    Ok(list)
}

/// The tolerance is in hundredths.
const HUNDREDTHS: u128 = 100;
