// What the search answers.

use plain_types::Sequence;

/// Values, each below the size.
pub type Values = Sequence<u32>;

/// What a symbol gives at a list of arguments: for a predicate 1 where it holds and 0 where it doesn't.
#[derive(Drop)]
pub struct Cell {
    /// The symbol's number.
    pub symbol: u32,
    pub arguments: Values,
    pub value: u32,
}

/// Cells, in order.
pub type Cells = Sequence<Cell>;

/// A finite interpretation: how many values there are, and a cell for every symbol but `$true` and every list of values, in order.
#[derive(Drop)]
pub struct Interpretation {
    pub size: u32,
    pub cells: Cells,
}

/// The answer to a search by size.
#[derive(Drop)]
pub enum Found {
    /// A model of the least size that has one.
    Model(Interpretation),
    /// None of the sizes has a model.
    NoModel,
    /// The least size whose measure is over `MOST_MEASURE`. No smaller size has a model.
    TooLarge(u32),
}
