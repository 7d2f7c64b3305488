// The workers of a run pass the gate that it is handed, and have their jobs side by side.

use crate::problems::{APART, APART_SATURATED};
use sample_runs::Run;
use std::sync::atomic::{AtomicBool, Ordering};
use std::thread;
use worker_team::Gate;

/// The job that is held: that on `p(a)`, which makes no inference.
const HELD: u64 = 2;

/// The job on `q(a)`, which is there once the job on `~p(X) | q(X)` has returned.
const AWAITED: u64 = 4;

/// How often a held worker looks before it gives up waiting.
const MOST_LOOKS: u32 = 10_000_000;

/// A gate that holds one job until a worker has passed with a later one. Who holds can't be the one that passes.
#[derive(Drop)]
struct HoldingGate {
    has_passed: AtomicBool,
    has_given_up: AtomicBool,
}

impl HoldingGate {
    fn new() -> HoldingGate {
        HoldingGate {
            has_passed: AtomicBool::new(false),
            has_given_up: AtomicBool::new(false),
        }
    }

    fn hold(&self) {
        for _ in 0..MOST_LOOKS {
            if self.has_passed.load(Ordering::SeqCst) {
                return;
            }
            thread::yield_now();
        }
        self.has_given_up.store(true, Ordering::SeqCst);
    }
}

impl Gate for HoldingGate {
    fn pass(&self, _worker: u32, job: u64) {
        match job {
            HELD => self.hold(),
            AWAITED => self.has_passed.store(true, Ordering::SeqCst),
            _ => {}
        }
    }
}

// So the third job returns before the second does: its clause is what the fourth is on. The report is that of one worker.
#[test]
fn jobs_are_side_by_side(rt: HostRuntime) {
    let gate = HoldingGate::new();
    let run = Run::new(&["prove", "--workers=2", "r18.p"], &[("r18.p", APART)]);
    let ended = run.ended_by(&rt, rt.alloc(), &gate).expect(&rt, "memory");
    assert_eq!(rt; ended.status, 1);
    assert!(rt; ended.report.as_slice() == APART_SATURATED);
    assert!(rt; gate.has_passed.load(Ordering::SeqCst));
    assert!(rt; !gate.has_given_up.load(Ordering::SeqCst));
}
