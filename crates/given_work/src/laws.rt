// The laws of indexes and of their work: each is the contract of a function without arguments and with an empty body.

ghost use Rattle.given_work.specs.Laws.{LearnedAreToldFor, LearnedStays, TicketsAreLearned, ToldForJobsAreTold, WorkMakesRightBatches};

/// An index may learn the news of a ticket, and has then learned the whole history. It knows exactly the clauses of the ticket's job then.
pub fn tickets_are_learned()
    ensures learned { TicketsAreLearned }
    ensures told { LearnedAreToldFor }
{}

/// What an index learned of a pool stays learned through further events.
pub fn learned_stays()
    ensures { LearnedStays }
{}

/// What an index knows of a job may be worked with, and the work makes a batch that is right for the job.
pub fn work_makes_right_batches()
    ensures told { ToldForJobsAreTold }
    ensures right { WorkMakesRightBatches }
{}
