// Flat literals and clauses.

use plain_types::Sequence;

/// Slots, by number.
pub(crate) type Slots = Sequence<u32>;

/// What a literal says of the values in slots.
#[derive(Drop)]
pub(crate) enum FlatLiteral {
    /// The values in the slots are, or aren't, an entry of the symbol's table: a function's value and then its arguments, a
    /// predicate's arguments where it holds.
    Entry {
        positive: bool,
        symbol: u32,
        slots: Slots,
    },
    /// Two slots have, or haven't, one value.
    Same {
        positive: bool,
        left: u32,
        right: u32,
    },
    /// True or false whatever the values are.
    Constant(bool),
}

/// Flat literals, in order.
pub(crate) type FlatLiterals = Sequence<FlatLiteral>;

/// A clause over slots: it is true where one of its literals is.
#[derive(Drop)]
pub(crate) struct FlatClause {
    /// How many slots there are.
    pub slots: u32,
    pub literals: FlatLiterals,
}

/// Flat clauses, in order.
pub(crate) type FlatClauses = Sequence<FlatClause>;
