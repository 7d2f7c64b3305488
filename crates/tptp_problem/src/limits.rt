// The limits of a problem.

/// The most bytes of all files of a problem together.
pub const MOST_PROBLEM_BYTES: usize = 268_435_456;

/// The most levels of includes.
pub const MOST_INCLUDES: u32 = 16;
