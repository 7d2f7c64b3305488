// The events of a pool's history. Contracts see a history as the list of them.

use crate::batch::Batch;
use sat_core::{Log, Truths};

/// One call that changed the pool. The first number is the job.
#[derive(Drop)]
pub enum Event {
    /// A clause was given out.
    Claim(u64),
    /// A batch was taken.
    Return(Batch),
    /// A batch by which the given clause goes was refused, since a clause that justifies it has died. The job stays out.
    Stale { job: u64, justifier: u32 },
    /// A batch was refused, since the given clause has died.
    Void(u64),
    /// The propositional clauses were given out.
    ClaimSolve(u64),
    /// A model of them was taken.
    ReturnModel { job: u64, truths: Truths },
    /// A refutation of them was taken.
    ReturnRefuted { job: u64, log: Log },
    /// A job was given up.
    Abandon(u64),
}
