// A worker's claim, in a turn of the lock of its own.

ghost use Rattle.std.specs.Prelude.{◌≡◌, ◌≤◌, length};
ghost use Rattle.worker_team.specs.Passes.{HasClaimed, IsPassOf};

use plain_types::Mem;
use pool_core::{Claimed, Pool};
use std::alloc::Global;
use std::sync::Wait;
use term_bank::Bank;
use turn_lock::{Historied, Pass, TurnLock};

/// A pass after a claim, and the answer.
#[derive(Drop)]
pub(crate) struct AfterClaim {
    pub pass: Pass<Pool>,
    pub claimed: Mem<Claimed>,
    /// How many events the history has then. It is told so that a worker without a job may wait for more.
    pub length: u64,
}

/// Claims, for a worker that knows the activations and deaths of the first `told` events. After an out-of-memory error the pool is as before.
pub(crate) fn claim<R: Wait>(
    rt: &R,
    alloc: Global,
    lock: &TurnLock<Pool>,
    pass: Pass<Pool>,
    bank: &Bank,
    told: u64,
) -> AfterClaim
    requires lock { pass.lock ≡ lock.now }
    requires pass { IsPassOf bank.now pass }
    requires told { told ≤ length pass.seen }
    ensures lock { result.pass.lock ≡ lock.now }
    ensures claimed { HasClaimed bank.now pass told result.pass result.claimed }
    ensures length { result.length ≡ length result.pass.seen }
{
    // The bank is seen by contracts alone.
    let _ = bank;
    let mut turn = lock.take(rt, pass);
    // The history is lawful, so what follows from it may be relied on.
    let _before = turn.state.history();
    let claimed = turn.state.claim(alloc, told);
    let _after = turn.state.history();
    let length = turn.state.len();
    AfterClaim {
        pass: lock.give(turn),
        claimed,
        length,
    }
}
