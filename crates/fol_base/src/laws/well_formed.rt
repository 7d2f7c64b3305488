// Laws of well-formed literals.

ghost use Rattle.fol_base.specs.WellFormed.{
  WellFormedSides,
  GroundTreesAreOfUse,
  WellFormedInstances,
  WellFormedSuperpositions,
  WellFormedResolutions,
  WellFormedFactorings,
  WellFormedMerges,
};
ghost use Rattle.fol_base.specs.Kind.{GroundTreesAreFunctionTerms};

/// The sides of a well-formed literal are well-formed terms; and ground trees over function symbols with their numbers of arguments
/// may stand for variables in instances.
pub fn terms_are_well_formed()
    ensures sides { WellFormedSides }
    ensures ground_trees { GroundTreesAreOfUse }
{}

/// Instances under function terms, and conclusions of the rules, stay well-formed, whatever the rules' other conditions.
pub fn conclusions_are_well_formed()
    ensures instances { WellFormedInstances }
    ensures superpositions { WellFormedSuperpositions }
    ensures resolutions { WellFormedResolutions }
    ensures factorings { WellFormedFactorings }
    ensures merges { WellFormedMerges }
{}

/// A ground tree over function symbols is a function term.
pub fn ground_trees_are_function_terms()
    ensures { GroundTreesAreFunctionTerms }
{}
