// The limit of sizes that are compared.

/// Terms, literals and clauses that are compared have fewer symbols and variables than this, occurrences counted.
pub const COMPARED_SIZE_LIMIT: u64 = 1 << 62;
