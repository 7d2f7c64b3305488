// Laws of lawful histories: each is the contract of a function without arguments and with an empty body.

ghost use Rattle.pool_history.specs.Derived.{ClausesHaveLines, LinesAreDerived, NamesRise, RefutedIsRefutation};
ghost use Rattle.pool_history.specs.Laws.{BatchesStayRight, ClaimedInTime, CountedOnce, DeathsAreJustified, DeathsWereProposed, EndedJobsAreGone, GivenJobsStayOut, HeavyOrNot, JobsAreCounted, JobsWereGiven, NothingComesAfter, NothingFollowsRest, NumbersFit, OneJobAClause, OutcomesStay, PicksAreChosen, PositionsStay, ReplacedWereReduced, SetAsideAreHeavy, SolverJobsStayOut, SpentIsTheCount, TagsFit};
ghost use Rattle.pool_history.specs.Wholeness.{ClausesStay, LivingDiffer, NoneIsEmpty, PositionsAreRegistered, RegisteredAreOnePart, RegisteredAreWhole, ToldHavePositions};

/// A clause that stays awake and alive, with m older ones, is claimed within 6(m + 1) given claims, while no job is given up.
pub fn claimed_in_time()
    ensures { ClaimedInTime }
{}

/// A pool that is spent says how many inferences were counted, at least as many as the limit.
pub fn spent_is_the_count()
    ensures { SpentIsTheCount }
{}

/// Each clause that died was justified by other clauses alone, all registered and alive at that moment.
pub fn deaths_are_justified()
    ensures { DeathsAreJustified }
{}

/// Each clause that died was removed by a batch, and the removal names the clauses that justify its death.
pub fn deaths_were_proposed()
    ensures { DeathsWereProposed }
{}

/// The clause that is given next is the one that the queue's rule picks among those that are ready.
pub fn picks_are_chosen()
    ensures { PicksAreChosen }
{}

/// Once an outcome stands it stays.
pub fn outcomes_stay()
    ensures { OutcomesStay }
{}

/// Once the pool is refuted or spent, nothing is registered or counted, and no clause dies.
pub fn nothing_comes_after()
    ensures { NothingComesAfter }
{}

/// No event follows an outcome that comes by rest.
pub fn nothing_follows_rest()
    ensures { NothingFollowsRest }
{}

/// A key that was set aside was counted, and names a heavy inference of registered clauses.
pub fn set_aside_are_heavy()
    ensures { SetAsideAreHeavy }
{}

/// An inference is heavy or it isn't, whichever most general unifier shows it; so none is both kept and set aside.
pub fn heavy_or_not()
    ensures { HeavyOrNot }
{}

/// The registered clauses are canonical, small and well-formed together, and their names are assertions of parts that were met.
pub fn registered_are_whole()
    ensures { RegisteredAreWhole }
{}

/// No two living clauses have equal literals and equal assertions.
pub fn living_differ()
    ensures { LivingDiffer }
{}

/// No clause without literals is registered, except the one that refutes.
pub fn none_is_empty()
    ensures { NoneIsEmpty }
{}

/// Each registered clause and each propositional clause has a line that says the same.
pub fn clauses_have_lines()
    ensures { ClausesHaveLines }
{}

/// The lines are a derivation from the inputs, of small terms over their symbols alone.
pub fn lines_are_derived()
    ensures { LinesAreDerived }
{}

/// Where splitting is on, no registered clause falls into two parts.
pub fn registered_are_one_part()
    ensures { RegisteredAreOnePart }
{}

/// The component lines introduce the names from 0 on, in order, each once.
pub fn names_rise()
    ensures { NamesRise }
{}

/// The lines of a pool that is refuted are a refutation of the inputs.
pub fn refuted_is_refutation()
    ensures { RefutedIsRefutation }
{}

/// Positions are of registered clauses, each once.
pub fn positions_are_registered()
    ensures { PositionsAreRegistered }
{}

/// The clause of a job that is out, and those that it was told, have positions.
pub fn told_have_positions()
    ensures { ToldHavePositions }
{}

/// No inference is counted twice, and what is counted is an inference of registered clauses or a clause that was replaced.
pub fn counted_once()
    ensures { CountedOnce }
{}

/// A clause was counted as replaced exactly if it died with a reduced result in its place.
pub fn replaced_were_reduced()
    ensures { ReplacedWereReduced }
{}

/// A job stays out until an event ends it, be it on a given clause, with a batch or without, or the solver's.
pub fn jobs_stay_out()
    ensures given { GivenJobsStayOut }
    ensures solver { SolverJobsStayOut }
{}

/// No clause has two jobs that are out, and none that is active has one.
pub fn one_job_a_clause()
    ensures { OneJobAClause }
{}

/// Once an event has ended a job, no job with its number is out again.
pub fn ended_jobs_are_gone()
    ensures { EndedJobsAreGone }
{}

/// The jobs that are given out have the numbers 1, 2, 3 and so on, in order.
pub fn jobs_are_counted()
    ensures { JobsAreCounted }
{}

/// A registered clause keeps its number and its line, a dead one stays dead, and a tag stands for one part.
pub fn clauses_stay()
    ensures { ClausesStay }
{}

/// A position that was given stays.
pub fn positions_stay()
    ensures { PositionsStay }
{}

/// The numbers of clauses and their positions have 32 bits.
pub fn numbers_fit()
    ensures { NumbersFit }
{}

/// The tags have 32 bits.
pub fn tags_fit()
    ensures { TagsFit }
{}

/// Each event is of a job that was given, so the next job is of no event.
pub fn jobs_were_given()
    ensures { JobsWereGiven }
{}

/// A batch that is right for a job stays right through events of other jobs.
pub fn batches_stay_right()
    ensures { BatchesStayRight }
{}
