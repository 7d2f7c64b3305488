// How large a problem may be, and how deep the levels of formulas may be nested. A level is begun by `~`, by a quantifier and by a
// bracket.

/// The most formulas, occurrences of symbols and variables, and quantified variables of a problem, counted together.
pub const MOST_PROBLEM_SIZE: u64 = 1 << 31;

/// The most levels of a formula of a problem.
pub const MOST_NESTING: u32 = 500;

/// The most levels of a formula of a problem that is printed again: printing puts brackets, which are a level, round an
/// equation that is negated, and a text may have none there.
pub const MOST_PRINTED_NESTING: u32 = 1_000;

/// The most levels of a line of a derivation.
pub const MOST_DERIVATION_NESTING: u32 = 5_000;
