// Laws of the order on terms, literals and clauses.

ghost use Rattle.fol_base.specs.Order.{
  TreeEqualityDecided,
  TreeGreaterDecided,
  LiteralGreaterDecided,
  ClauseGreaterDecided,
  TreesEquivalence,
  LiteralsEquivalence,
  ClausesEquivalence,
  ClausesCounted,
  TreesTotallyOrdered,
  LiteralsTotallyOrdered,
  ClausesTotallyOrdered,
  NotGreaterIsTransitive,
};

/// The tests of equality and of the order agree with the types of the same meaning.
pub fn order_tests_decide()
    ensures equal_trees { TreeEqualityDecided }
    ensures trees { TreeGreaterDecided }
    ensures literals { LiteralGreaterDecided }
    ensures clauses { ClauseGreaterDecided }
{}

/// Equality in the order is an equivalence: of trees, of literals up to the order of their sides, of clauses up to that of their literals.
pub fn order_equivalences()
    ensures trees { TreesEquivalence }
    ensures literals { LiteralsEquivalence }
    ensures clauses { ClausesEquivalence }
    ensures counted { ClausesCounted }
{}

/// The order is total on ground terms, literals and clauses.
pub fn order_is_total()
    ensures trees { TreesTotallyOrdered }
    ensures literals { LiteralsTotallyOrdered }
    ensures clauses { ClausesTotallyOrdered }
    ensures not_greater { NotGreaterIsTransitive }
{}
