// Laws of propositional clauses and their models: each is the contract of a function without arguments and with an empty body.

ghost use Rattle.pool_history.specs.Models.{AnswersStayRight, ModelsAreRight, NamesAreMet, PropositionalClausesStay, RestingModels};

/// Propositional clauses are only added, so an answer that is right for the clauses of a job stays right for them.
pub fn propositional_clauses_stay()
    ensures stay { PropositionalClausesStay }
    ensures answers { AnswersStayRight }
{}

/// The model makes the first `modelled` propositional clauses true. If the pool is at rest, it makes all of them true.
pub fn models_are_right()
    ensures each { ModelsAreRight }
    ensures resting { RestingModels }
{}

/// The names in propositional clauses are below the number of names, so the solver is told every name that its clauses have.
pub fn names_are_met()
    ensures { NamesAreMet }
{}
