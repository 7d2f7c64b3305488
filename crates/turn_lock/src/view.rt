// The knowledge that a pass has of its lock.

use plain_types::{Numbers, Sequence};

/// The knowledge of a pass. It stands in proofs alone: no value of it is made.
pub struct View<E, O> {
    /// The history that was seen.
    pub seen: Sequence<E>,
    /// The places in it that were added through the pass.
    pub own: Numbers,
    /// How many of the lock's shares the pass has. With none it is spent.
    pub shares: u64,
    /// The history with which the lock was made.
    pub start: Sequence<E>,
    /// The origin of the state with which the lock was made, and none once the pass is spent.
    pub origin: Option<O>,
    /// The counted history, while the pass holds the gate.
    pub held: Option<Sequence<E>>,
    /// How many shares the next split gives out.
    pub planned: u64,
    /// Of the two lists that the last join brought together, the shorter, with which `seen` begins.
    pub shorter: Sequence<E>,
    /// What the other pass of the last join had as the history with which the lock was made.
    pub other_start: Sequence<E>,
    /// And as the origin.
    pub other_origin: Option<O>,
}
