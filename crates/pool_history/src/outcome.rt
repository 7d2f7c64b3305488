// How a pool ends.

/// The outcome with which a run ends.
#[derive(Clone, Copy, Debug, PartialEq, Eq)]
pub enum Outcome {
    /// The empty clause was derived.
    Refuted,
    /// The living awake clauses are saturated.
    Saturated,
    /// The number of counted inferences, at least as many as the options allow.
    Spent(u64),
    /// Nothing is left to do, but an inference of living awake clauses was set aside as too heavy: its place among those
    /// that were set aside.
    Heavy(u64),
}
