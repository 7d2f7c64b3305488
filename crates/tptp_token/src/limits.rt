// How long a text may be.

/// The most bytes that a text may have, so that each place in it is a `u32`.
pub const MOST_TEXT_BYTES: usize = 67_108_864;
