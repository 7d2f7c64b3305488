// Limits of clauses and terms, in occurrences of symbols and variables.

/// The most symbols of a clause: of an input clause, of a conclusion, and of a premise under its unifier. Larger clauses are set aside.
pub const MOST_SYMBOLS: u64 = 4_000;

/// The most symbols of a parent under its binding in a derivation.
pub const MOST_BOUND_SYMBOLS: u64 = 8_000;

/// The most symbols, clauses and Skolem symbols of a whole clausal form, counted together.
pub const MOST_FORM_SYMBOLS: u64 = 1 << 28;

/// Sizes of terms and clauses that calls are handed are below this.
pub const SIZE_LIMIT: u64 = 1 << 31;
