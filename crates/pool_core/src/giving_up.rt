// Jobs that are given up.

ghost use Rattle.std.specs.Prelude.{◌≡◌, ◌++◌, [], ◌∷◌, option_map};
ghost use Rattle.pool_history.specs.Lawful.{IsOut};
ghost use Rattle.pool_history.specs.Replay.{replay, without_solver};
ghost use Rattle.pool_history.specs.declared.event.Event.TheVariants.{Abandon};
ghost use Rattle.pool_core.specs.State.{solver_job};

use crate::pool::{Pool, SolverOut};
use pool_history::Event;

impl Pool {
    /// Gives up a job that is out, the solver's or another. A given clause waits again, if it lives, and keeps its position. No memory is taken.
    pub fn abandon(&mut self, job: u64)
        requires { IsOut (replay self.old.origin self.old.history) job }
        ensures bank { self.new.bank ≡ self.old.bank }
        ensures origin { self.new.origin ≡ self.old.origin }
        ensures history { self.new.history ≡ self.old.history ++ Abandon job ∷ [] }
    {
        let given = self.jobs.remove(&job);
        self.solver = without_job(self.solver, job);
        self.notes_before.push_reserved(self.proof.notes.len());
        self.history.push(&Event::Abandon(job));
        if let Some(out) = given {
            if self.proof.register.is_living(u64::from(out.number)) {
                self.proof.wait_again(out.number);
            }
        }
    }
}

/// The solver's job, unless it is the one that is given up.
fn without_job(solver: Option<SolverOut>, job: u64) -> Option<SolverOut>
    ensures { option_map solver_job result ≡ without_solver job (option_map solver_job solver) }
{
    solver.filter(|out| out.job != job)
}
