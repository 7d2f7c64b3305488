// Laws of the solver's logs: each is the contract of a function without arguments and with an empty body.

ghost use Rattle.pool_history.specs.Chains.{ChainsAreSteps, LogsAreSteps, LogsEndInSteps};

/// Each chain of a log is a step of resolution on names whose parents are, as sets, the clauses that it cites: the step gives the
/// chain's clause, sorted. The last chain of a right log gives no names.
pub fn chains_are_steps()
    ensures chains { ChainsAreSteps }
    ensures logs { LogsAreSteps }
    ensures ends { LogsEndInSteps }
{}
