// Laws of ground instances, of interpretations and of entailment.

ghost use Rattle.fol_base.specs.Ground.{ConstantsGiveGroundTrees, GroundInstancesAreGround};
ghost use Rattle.fol_base.specs.Interpretation.{CongruenceOfValues, ValuesOfInstances, TruthOfInstances, TruthOfGroundClauses};
ghost use Rattle.fol_base.specs.Entails.{EntailsMembers, EntailsMonotone, EntailsCut, EmptyClauseEntailed};

/// Some tree is ground over a list of function symbols exactly where the list has a constant.
#[tactic(auto, using(crate::proofs::AboutClauses::MeaningLemmas::constants_give_ground_trees))]
pub fn ground_trees_need_a_constant()
    ensures { ConstantsGiveGroundTrees }
{}

/// A ground instance has no variables.
pub fn ground_instances_are_ground()
    ensures { GroundInstancesAreGround }
{}

/// A subterm replaced by one of equal value keeps the value of the whole.
#[tactic(auto, using(crate::proofs::AboutClauses::MeaningLemmas::congruence_of_values))]
pub fn congruence()
    ensures { CongruenceOfValues }
{}

/// The value of an instance is that of the tree, where each variable has the value of the tree put in for it.
#[tactic(auto, using(crate::proofs::AboutClauses::MeaningLemmas::values_of_instances))]
pub fn values_of_instances()
    ensures { ValuesOfInstances }
{}

/// An instance of a clause is true where the clause is, each variable having the value of the tree put in for it.
#[tactic(auto, using(crate::proofs::AboutClauses::MeaningLemmas::truth_of_instances))]
pub fn truth_of_instances()
    ensures { TruthOfInstances }
{}

/// The truth of a ground clause doesn't depend on the values of variables.
#[tactic(auto, using(crate::proofs::AboutClauses::MeaningLemmas::truth_of_ground_clauses))]
pub fn truth_of_ground_clauses()
    ensures { TruthOfGroundClauses }
{}

/// A list entails each of its members.
pub fn entailment_of_members()
    ensures { EntailsMembers }
{}

/// A list with more members entails no less.
pub fn entailment_of_more()
    ensures { EntailsMonotone }
{}

/// A clause that entailed clauses entail is entailed.
pub fn entailment_cuts()
    ensures { EntailsCut }
{}

/// The empty clause is entailed exactly by a list that no interpretation makes true.
pub fn empty_clause_entailed()
    ensures { EmptyClauseEntailed }
{}
