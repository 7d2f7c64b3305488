// The laws of clauses in banks, and worked examples of their definitions: the contracts of functions
// without arguments and with empty bodies.

ghost use Rattle.std.specs.Prelude.{◌≡◌, true, false, [], ◌∷◌, nat_eq};
ghost use Rattle.std.specs.List.{All};
ghost use Rattle.plain_types.specs.Names.{positive_of, negative_of};
ghost use Rattle.fol_base.specs.Tree.{true_tree};
ghost use Rattle.fol_base.specs.Examples.{x, a, p};
ghost use Rattle.fol_base.specs.Canonical.{IsCanonical, bound_of};
ghost use Rattle.fol_base.specs.Clause.{clause_size, clause_variables};
ghost use Rattle.bank_clause.specs.ClauseHash.{clause_hash, EqualClausesHashAlike, literals_hash, names_hash};
ghost use Rattle.bank_clause.specs.Clause.{AreAssertions, IsKnown, equal_by_numbers, sides};
ghost use Rattle.bank_clause.specs.Examples.{IsOfItsBank, StandsForRow, first_clause, known_sides, other_clause, row, row_of_another};
ghost use Rattle.bank_clause.specs.Laws.{
  KeepsKnownLiterals,
  KeepsLiteralsOnTheWay,
  MembersHaveLiterals,
  RisingNamesAreAssertions,
  SameAreEqual,
};

/// Literals keep the references that the table has for their sides, also where memory runs out on the way.
pub fn kept_literals()
    ensures all { KeepsKnownLiterals }
    ensures on_the_way { KeepsLiteralsOnTheWay }
{}

/// Rising numbers are assertions with the negative sign: so `of_clause` takes a clause whose names are made of them.
pub fn rising_names()
    ensures { RisingNamesAreAssertions }
{}

/// Members are of a bank exactly where the literals of each of their clauses are.
pub fn members_of_a_bank()
    ensures { MembersHaveLiterals }
{}

/// Clauses that are the same, and whose references one table has, are equal by numbers: so a map of a table's clauses finds them.
pub fn same_clauses()
    ensures { SameAreEqual }
{}

/// Clauses that are equal by numbers have one hash: so a register finds them by it.
pub fn hashes()
    ensures { EqualClausesHashAlike }
{}

/// A clause with other assertions has another hash.
pub fn hash_examples()
    ensures without_name { nat_eq (clause_hash first_clause) (clause_hash (record { literals = first_clause.literals; names = [] })) ≡ false }
    ensures other_name { nat_eq (clause_hash first_clause) (clause_hash (record { literals = first_clause.literals; names = 4 ∷ [] })) ≡ false }
    ensures literals_first { clause_hash first_clause ≡ names_hash (literals_hash first_clause.literals) (3 ∷ []) }
{}

/// The clause for which a bank clause stands, and which clauses are of a bank.
pub fn examples()
    ensures stands_for { StandsForRow }
    ensures of_bank { IsOfItsBank }
    ensures names_not_counted { clause_size row ≡ 5 }
    ensures variables_counted { bound_of (clause_variables row) ≡ 1 }
    ensures known { All (IsKnown known_sides) first_clause.literals }
    ensures not_known { ¬ All (IsKnown known_sides) other_clause.literals }
    ensures equal { equal_by_numbers first_clause first_clause ≡ true }
    ensures other_number { equal_by_numbers first_clause other_clause ≡ false }
    ensures other_name { equal_by_numbers first_clause (record { literals = first_clause.literals; names = [] }) ≡ false }
    ensures numbered_by_first_occurrence { ¬ IsCanonical row_of_another }
    ensures sides_in_order { sides row.literals ≡ (p (x 0)).left ∷ true_tree ∷ x 0 ∷ a ∷ [] }
    ensures rising { AreAssertions (negative_of 3 ∷ negative_of 5 ∷ []) }
    ensures falling { ¬ AreAssertions (negative_of 5 ∷ negative_of 3 ∷ []) }
    ensures twice { ¬ AreAssertions (negative_of 3 ∷ negative_of 3 ∷ []) }
    ensures positive { ¬ AreAssertions (positive_of 3 ∷ []) }
{}
