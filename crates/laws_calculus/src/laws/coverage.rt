// The laws of simplification: what it removes stays covered.

ghost use Rattle.laws_calculus.specs.Coverage.{
  DroppedLiteralsCovered,
  ReductionsCovered,
  SubsumedCovered,
  PartsCover,
  TautologiesCovered,
  RenamedCovered,
  ReductionsKeepSymbols,
  ReductionsKeepNames,
  ReductionsCompose,
  ReducedAwayCovered,
  MovesCovered,
  MovedAwayCovered,
};

/// The ground instances of a clause of which a literal `t != t` goes, two equal literals are merged, or a unit cuts a literal are
/// covered by the result.
pub fn dropped_literals_covered()
    ensures { DroppedLiteralsCovered }
{}

/// The ground instances of a clause that is reduced by a step are covered by the result and the clauses that may be used, for every
/// list of function symbols that holds those of the clause.
pub fn reductions_covered()
    ensures { ReductionsCovered }
{}

/// The ground instances of a clause that is subsumed are covered by the clause that subsumes it, for every list of function symbols
/// that holds those of the subsumed clause.
pub fn subsumed_covered()
    ensures { SubsumedCovered }
{}

/// The ground instances of a clause are covered by some of its literals, at different places, and by the canonical form of these,
/// under whatever names.
pub fn parts_cover()
    ensures { PartsCover }
{}

/// The ground instances of a tautology are covered by the empty list.
pub fn tautologies_covered()
    ensures { TautologiesCovered }
{}

/// The ground instances of a clause are covered by its canonical form, and the other way round.
pub fn renamed_covered()
    ensures { RenamedCovered }
{}

/// Reducing steps one after another bring in no symbol that neither the clause nor those that may be used have: each test of symbols
/// and their numbers of arguments that all of these pass, the last result and its canonical form pass. They keep the clause's names.
pub fn reductions_keep()
    ensures symbols { ReductionsKeepSymbols }
    ensures names { ReductionsKeepNames }
{}

/// The ground instances of a clause that is reduced by steps one after another are covered by the last result, or its canonical form,
/// and the clauses that may be used, for every list of function symbols that holds those of all these clauses.
pub fn reductions_compose()
    ensures { ReductionsCompose }
{}

/// The ground instances of a clause that is reduced to a tautology, or to what one of the clauses that may be used subsumes, are
/// covered by the clauses that may be used, for every list of function symbols that holds those of all these clauses.
pub fn reduced_away_covered()
    ensures { ReducedAwayCovered }
{}

/// The ground instances of a clause that is reduced by moves, each of which drops or merges literals or rewrites or cuts by a unit, are
/// covered by the last result and the units, for every list of function symbols that holds those of all these clauses. Where the last
/// result is a tautology or subsumed, the units and the clause that subsumes it cover them. So is every reduced clause that the rules make.
pub fn moves_covered()
    ensures reduced { MovesCovered }
    ensures away { MovedAwayCovered }
{}
