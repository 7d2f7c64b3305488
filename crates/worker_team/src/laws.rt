// The law of outcomes: the contract of a function without arguments and with an empty body.

ghost use Rattle.worker_team.specs.Causes.{OutcomesHaveCauses};

/// Each outcome that stands has its cause.
pub fn outcomes_have_causes()
    ensures { OutcomesHaveCauses }
{}
