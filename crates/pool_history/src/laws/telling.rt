// Laws of what jobs are told: each is the contract of a function without arguments and with an empty body.

ghost use Rattle.pool_history.specs.Told.{GivenAreTold, JobsWereTold, NewsAreRegistered, ToldAreNews};

/// The clauses told now are those that the news activate, without those that died.
pub fn told_are_news()
    ensures { ToldAreNews }
{}

/// The news tell registered clauses.
pub fn news_are_registered()
    ensures { NewsAreRegistered }
{}

/// A job that is out was told what was told after the first `as_of` events, however many came since.
pub fn jobs_were_told()
    ensures { JobsWereTold }
{}

/// The clause of a job that is out is among those that it was told.
pub fn given_are_told()
    ensures { GivenAreTold }
{}
