// Limits that crates with and without trees speak of. Each other limit stands in the lowest crate that speaks of it.

/// How many inferences a run counts where no option says it.
pub const DEFAULT_INFERENCES: u32 = 100_000;

/// The most inferences that an option may ask for.
pub const MOST_INFERENCES: u32 = 1_000_000;
