// The rows of places in which a bank keeps its terms. A place is written once and read by any thread, and no term
// is ever moved. Each row has twice as many places as the one before, up to 2^32, as many as a u32 numbers; all
// later rows have this length. There are as many rows as a u8 numbers, but for the one that the default reference names.

ghost use Rattle.std.specs.Prelude.{◌≡◌, ◌<◌, ◌≤◌, ◌+◌, ◌*◌, ◌^◌, [], ◌∷◌, length, ⊤, IfOk, IfSome, IfNone};
ghost use Rattle.term_bank.specs.declared.rows.TheConstants.{ROWS};
ghost use Rattle.term_bank.specs.Rows.{row_length as length_of, places_before, IsPlaceOf, AreNumbered, HasLength};

use boxcar::slot::{OnceSlot, SlotRule, Written};
use boxcar::tag::{Names, Tag};
use fol_base::Term;
use plain_types::{Mem, NoMemory};
use std::alloc::Global;
use std::sync::Wait;

/// The rule of a place: it may have any term.
pub struct AnyTerm;

impl SlotRule<Term> for AnyTerm {
    ghost holds = { λ _ _. ⊤ };
}

pub(crate) type Row = Vec<OnceSlot<Term, AnyTerm>>;

/// The rule of a row: it has as many places as a row of its number has to have.
pub struct FullLength;

impl SlotRule<Row> for FullLength {
    ghost holds = { λ tag row. HasLength tag row.items };
}

pub(crate) type Rows = Vec<OnceSlot<Row, FullLength>>;

/// The rule of the list of rows: all of them are there, each tagged with its number.
pub struct AllRows;

impl SlotRule<Rows> for AllRows {
    ghost holds = { λ _ rows. AreNumbered ROWS rows.items };
}

/// How many rows there are.
pub(crate) const ROWS: usize = 255;

/// The binary logarithm of the first row's length.
const FIRST_BITS: u32 = 5;

/// How many places the first row has.
const FIRST: u64 = 1 << FIRST_BITS;

/// How many rows are shorter than the longest ones.
const SHORTER: usize = 27;

/// How many places each of the longest rows has.
const LONGEST: u64 = 1 << 32;

/// How many places all rows have together: those of the shorter rows are `LONGEST - FIRST`.
const PLACES: u64 = (ROWS - SHORTER + 1) as u64 * LONGEST - FIRST;

/// Proof that a row is of a bank, and a term of the row. It has no bytes.
#[derive(Drop)]
pub struct Shown {
    pub(crate) rows: Written<Rows>,
    pub(crate) row: Written<Row>,
    pub(crate) item: Written<Term>,
}

impl Shown {
    pub(crate) fn again(&self) -> Shown
        ensures { result ≡ self.now }
    {
        Shown {
            rows: self.rows.again(),
            row: self.row.again(),
            item: self.item.again(),
        }
    }
}

/// How a row is tagged.
struct Itself;

impl Names<usize> for Itself {
    ghost numbers = { λ row. row ∷ [] };
}

/// The rows of a new bank, none of which has its places yet.
pub(crate) fn rows_to_lay(alloc: Global) -> Mem<Rows>
    ensures { IfOk result (λ rows. AreNumbered ROWS rows.items) }
{
    let mut rows = Vec::with_capacity(alloc, ROWS)?;
    for row in 0..ROWS {
        rows.push_reserved(OnceSlot::new(&Tag::of::<usize, Itself>(&row)));
    }
    Ok(rows)
}

/// How many places a row has.
fn row_length(row: usize) -> usize
    ensures length { result ≡ length_of row }
    ensures limit { result ≤ LONGEST }
{
    (FIRST as usize) << row.min(SHORTER)
}

/// The row and the place in it of the term that comes after `count` others; none where all rows are full.
pub(crate) fn located(index: u64) -> Option<(u8, u32)>
    ensures place { IfSome result (λ found. IsPlaceOf index found.0 found.1) }
    ensures full { IfNone result (places_before ROWS ≤ index) }
{
    if index >= PLACES {
        return None;
    }
    let shifted = index + FIRST;
    if shifted < LONGEST {
        Some(among_shorter(shifted))
    } else {
        Some((
            (shifted / LONGEST) as u8 + (SHORTER - 1) as u8,
            (shifted % LONGEST) as u32,
        ))
    }
}

/// The row and the place where rows double, of the term that comes after `shifted - 32` others: the highest bit tells the row.
fn among_shorter(shifted: u64) -> (u8, u32)
    requires low { FIRST ≤ shifted }
    requires high { shifted < LONGEST }
    ensures row { result.0 < SHORTER }
    ensures below { result.1 < 32 * 2 ^ result.0 }
    ensures place { 32 * 2 ^ result.0 + result.1 ≡ shifted }
{
    let row = shifted.ilog2() - FIRST_BITS;
    (row as u8, (shifted - (FIRST << row)) as u32)
}

/// A row's places, which it makes where there are none yet. It waits only for a thread that is storing them.
pub(crate) fn laid<R: Wait>(
    rt: &R,
    alloc: Global,
    slot: &OnceSlot<Row, FullLength>,
    row: u8,
) -> Mem<Written<Row>>
    requires { slot.now.tag ≡ row ∷ [] }
    ensures { IfOk result (λ written. written.of ≡ slot.now.id) }
{
    if let Some(written) = slot.witness() {
        return Ok(written);
    }
    let Ok(places) = empty_row(alloc, usize::from(row)) else {
        return laid_meanwhile(slot);
    };
    if let Ok(written) = slot.set_written(places) {
        return Ok(written);
    }
    for _ in rt.forever() {
        if let Some(written) = slot.witness() {
            return Ok(written);
        }
        std::hint::spin_loop();
    }
    unreachable!()
}

/// After an out-of-memory error: the places that another thread has made meanwhile, if it has.
fn laid_meanwhile(slot: &OnceSlot<Row, FullLength>) -> Mem<Written<Row>>
    ensures { IfOk result (λ written. written.of ≡ slot.now.id) }
{
    match slot.witness() {
        Some(written) => Ok(written),
        None => Err(NoMemory),
    }
}

/// The places of a row, none of them written.
fn empty_row(alloc: Global, row: usize) -> Mem<Row>
    ensures { IfOk result (λ places. length places.items ≡ length_of row) }
{
    let count = row_length(row);
    let mut places = Vec::with_capacity(alloc, count)?;
    while places.len() < count {
        places.push_reserved(OnceSlot::new(&Tag::empty()));
    }
    Ok(places)
}
