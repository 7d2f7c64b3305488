// A gate before each job, by which tests see that workers have jobs side by side.

/// What a worker passes before each job that it has claimed. It carries nothing.
pub trait Gate {
    /// Called by the worker of a number before its job, be it on a clause or the solver's.
    fn pass(&self, worker: u32, job: u64);
}

/// A gate that does nothing.
#[derive(Clone, Copy, Drop)]
pub struct NoGate;

impl Gate for NoGate {
    fn pass(&self, worker: u32, job: u64) {
        let _ = (worker, job);
    }
}
