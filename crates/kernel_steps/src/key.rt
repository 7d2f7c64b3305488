// Names of inferences.

use fol_base::{Position, Side};

/// The name of an inference: its clauses by their numbers, and the literals, sides and place that take part.
/// No two inferences of one run have equal names.
#[derive(Drop)]
pub enum Key {
    /// Superposition of literal `from` of the first clause into literal `into` of the second.
    Para {
        first: u32,
        from: u64,
        from_side: Side,
        second: u32,
        into: u64,
        into_side: Side,
        place: Position,
    },
    /// Equality resolution of a literal.
    Refl {
        clause: u32,
        literal: u64,
    },
    /// Equality factoring of two literals.
    Factor {
        clause: u32,
        becomes: u64,
        becomes_side: Side,
        other: u64,
        other_side: Side,
    },
    /// A clause that a reduced one replaced.
    Replaced(u32),
}
