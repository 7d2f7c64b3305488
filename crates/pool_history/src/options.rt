// The options of a pool, and how many workers it may have.

use literal_selection::Selection;

/// The options of a pool.
#[derive(Clone, Copy, Debug, PartialEq, Eq)]
pub struct Options {
    /// The rule by which a literal of a clause is selected.
    pub select: Selection,
    /// Whether clauses that fall into parts are split.
    pub split: bool,
    /// The number of counted inferences at which the pool gives up.
    pub inferences: u32,
}

/// The greatest number of workers of a pool.
pub const MOST_WORKERS: u32 = 16;
