// The pool as the state of a turn lock: each event is of one job.

ghost use Rattle.std.specs.Prelude.{[]};
ghost use Rattle.pool_history.specs.Events.{job_of};

use crate::pool::Pool;
use pool_history::Event;
use turn_lock::Historied;

impl Historied for Pool {
    type Entry = Event;

    /// The pool before its first event.
    type Origin = Pool;

    ghost history = { λ pool. pool.history };

    ghost origin = { λ pool. record pool { history = [] } };

    ghost key = { job_of };

    fn len(&self) -> u64 {
        self.history.len()
    }
}
