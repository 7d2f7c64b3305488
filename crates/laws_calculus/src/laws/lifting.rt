// Ground inferences are instances of the named ones.

ghost use Rattle.laws_calculus.specs.Lifting.{
  ResolutionsLift,
  FactoringsLift,
  SuperpositionsLift,
  ResolutionsReachAll,
  FactoringsReachAll,
  SuperpositionsReachAll,
  GroundConclusionsCovered,
  GroundConclusionsListed,
};

/// The conclusion of an equality resolution of a ground instance is a ground instance of the conclusion of an inference that is named
/// for the clause, and of each other conclusion that it has by another most general unifier.
pub fn resolutions_lift()
    ensures to_one { ResolutionsLift }
    ensures to_all { ResolutionsReachAll }
{}

/// The conclusion of an equality factoring of a ground instance, likewise.
pub fn factorings_lift()
    ensures to_one { FactoringsLift }
    ensures to_all { FactoringsReachAll }
{}

/// The conclusion of a superposition between ground instances of two clauses, or of one under two substitutions, likewise; or it has
/// a literal `t = t`, at the root of a positive literal alone.
pub fn superpositions_lift()
    ensures to_one { SuperpositionsLift }
    ensures to_all { SuperpositionsReachAll }
{}

/// Clauses that cover the instances of one conclusion of each inference that is named among members, by their numbers, cover the
/// conclusion of each ground inference among these; and so do clauses that have one conclusion of each.
pub fn ground_conclusions_covered()
    ensures covered { GroundConclusionsCovered }
    ensures listed { GroundConclusionsListed }
{}
