// The limit of a typed problem.

/// The most declared words, sorts in declarations, formulas, occurrences of symbols and variables, and quantified variables of a
/// typed problem together.
pub const MOST_TYPED_SIZE: u64 = 268_435_456;
