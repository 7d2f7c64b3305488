// The laws of the order: each is the contract of a function without arguments and with an empty body.

ghost use Rattle.kbo_order.specs.Laws.{
  TreesOrdered,
  LiteralsOrdered,
  ClausesOrdered,
  TreesStable,
  LiteralsStable,
  ClausesStable,
  ProperSubtermsAreSmaller,
  SmallerSubtermsMakeSmaller,
  SmallerSidesMakeSmaller,
  SmallerLiteralsMakeSmaller,
  PartsAreNotGreater,
  ProperPartsAreSmaller,
  GroundTreesCompare,
  GroundLiteralsCompare,
  GroundClausesCompare,
  GroundLiteralsPreordered,
  GroundClausesPreordered,
};

/// Greater is irreflexive and transitive, and two that are equal for the order are greater than the same ones.
pub fn order_is_strict()
    ensures trees { TreesOrdered }
    ensures literals { LiteralsOrdered }
    ensures clauses { ClausesOrdered }
{}

/// Greater is kept by every substitution.
pub fn order_is_stable()
    ensures trees { TreesStable }
    ensures literals { LiteralsStable }
    ensures clauses { ClausesStable }
{}

/// A proper subterm is smaller, and a smaller subterm makes the term smaller.
pub fn order_of_subterms()
    ensures smaller { ProperSubtermsAreSmaller }
    ensures made_smaller { SmallerSubtermsMakeSmaller }
{}

/// A smaller side makes a smaller literal, and a smaller literal a smaller clause.
pub fn order_of_changed_clauses()
    ensures literals { SmallerSidesMakeSmaller }
    ensures clauses { SmallerLiteralsMakeSmaller }
{}

/// A part of a clause isn't greater than the whole, and a part that isn't the whole is smaller.
pub fn order_of_parts()
    ensures not_greater { PartsAreNotGreater }
    ensures smaller { ProperPartsAreSmaller }
{}

/// Of two ground terms that differ one is greater, and likewise of ground literals and clauses that aren't
/// the same for the order.
pub fn ground_is_never_unordered()
    ensures trees { GroundTreesCompare }
    ensures literals { GroundLiteralsCompare }
    ensures clauses { GroundClausesCompare }
{}

/// "Not greater" is transitive and total on ground literals and clauses.
pub fn not_greater_is_a_preorder()
    ensures literals { GroundLiteralsPreordered }
    ensures clauses { GroundClausesPreordered }
{}
