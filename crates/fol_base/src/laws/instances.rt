// Laws of instances.

ghost use Rattle.fol_base.specs.InstanceLaws.{
  InstancesOfInstances,
  ClauseInstancesOfInstances,
  GroundInstancesOfInstances,
  InstancesAgree,
  InstancesAgreeBelow,
  SizesOfInstances,
  SizesOfClauseInstances,
  VariablesOfInstances,
  OccurrencesInInstances,
  SubtermsOfInstances,
  PlacesInInstances,
  ReplacedWhereThere,
  ReplacementsInInstances,
  SuperpositionsInInstances,
  ResolutionsInInstances,
  FactoringsInInstances,
  MergesInInstances,
  GroundInstancesOfCanonical,
};

/// An instance of an instance is an instance.
pub fn instances_of_instances()
    ensures trees { InstancesOfInstances }
    ensures clauses { ClauseInstancesOfInstances }
{}

/// Substitutions that agree on a term's variables give one instance.
pub fn agreement_of_instances()
    ensures on_variables { InstancesAgree }
    ensures below { InstancesAgreeBelow }
{}

/// The size of an instance: the symbols, and for each occurrence of a variable the size of the tree put in.
pub fn sizes_of_instances()
    ensures trees { SizesOfInstances }
    ensures clauses { SizesOfClauseInstances }
{}

/// The variables of an instance are those of the trees put in.
pub fn variables_of_instances()
    ensures variables { VariablesOfInstances }
    ensures occurrences { OccurrencesInInstances }
{}

/// The subterms of an instance at the term's places, and replacements there; and each place of an instance is one of the term, or
/// at or below a variable.
pub fn places_in_instances()
    ensures subterms { SubtermsOfInstances }
    ensures replacements { ReplacementsInInstances }
    ensures places { PlacesInInstances }
{}

/// A term can be replaced at a place exactly where it has a subterm there.
pub fn replaced_where_there()
    ensures { ReplacedWhereThere }
{}

/// A ground instance of an instance is one of the clause, where the trees put in for its variables are over the function symbols.
pub fn ground_instances_of_instances()
    ensures { GroundInstancesOfInstances }
{}

/// A clause's ground instances are those of its canonical form.
pub fn ground_instances_of_canonical()
    ensures { GroundInstancesOfCanonical }
{}

/// The conclusions of instances are the instances of the conclusions.
pub fn conclusions_of_instances()
    ensures superposition { SuperpositionsInInstances }
    ensures resolution { ResolutionsInInstances }
    ensures factoring { FactoringsInInstances }
    ensures merging { MergesInInstances }
{}
