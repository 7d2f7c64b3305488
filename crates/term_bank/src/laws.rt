// The laws of the words on banks, and worked examples: the contracts of functions without arguments and
// with empty bodies.

ghost use Rattle.std.specs.Prelude.{◌≡◌, ◌-◌, ◌^◌, false, [], ◌∷◌, ◌++◌};
ghost use Rattle.std.specs.Hash as fed;
ghost use Rattle.fol_base.specs.Examples.{x, a, f};
ghost use Rattle.term_bank.specs.Entry.{interned, NoTreeTwice};
ghost use Rattle.term_bank.specs.Equality.{literal_input, reference_input};
ghost use Rattle.term_bank.specs.Hash.{tree_hash};
ghost use Rattle.term_bank.specs.Examples.{numbered_literal, table_of, under};
ghost use Rattle.term_bank.specs.Interning.{first_seen, InternsAll, InternsFirst};
ghost use Rattle.term_bank.specs.Rows.{IsPlaceOf};
ghost use Rattle.term_bank.specs.Laws.{
  LacksDefaults,
  LacksDefaultLiterals,
  DefaultsAreNegative,
  LacksPlaces,
  KeepsNumbers,
  KeepsAllNumbers,
  KeepsNumbersOnTheWay,
  NumbersOnce,
  InternsNone,
  InternsOne,
  InternsOnward,
  InternsPartlyOnward,
  InternsFirstOfMore,
  LearnsOnlyThese,
  InternedAgain,
  NumbersThese,
  InternsAfterFirst,
};

/// A default reference is of no bank, and has a number of no place; a default literal is negative, and of no bank.
pub fn references_of_no_bank()
    ensures of_none { LacksDefaults }
    ensures of_no_place { LacksPlaces }
    ensures negative { DefaultsAreNegative }
    ensures literal_of_none { LacksDefaultLiterals }
{}

/// A table keeps its numbers when a tree is interned, or several are, also where memory runs out on the way.
pub fn kept_numbers()
    ensures one { KeepsNumbers }
    ensures several { KeepsAllNumbers }
    ensures on_the_way { KeepsNumbersOnTheWay }
{}

/// Equal trees that one table interned have equal numbers.
pub fn equal_numbers()
    ensures { NumbersOnce }
{}

/// Interning several trees, one after another: a table learns none but these trees, and the same trees again
/// change nothing. The table has a number for each of them then, also where
/// memory ran out on the way and they were interned once more.
pub fn several_trees()
    ensures none { InternsNone }
    ensures one { InternsOne }
    ensures onward { InternsOnward }
    ensures partly_onward { InternsPartlyOnward }
    ensures first_of_more { InternsFirstOfMore }
    ensures only_these { LearnsOnlyThese }
    ensures again { InternedAgain }
    ensures numbers { NumbersThese }
    ensures after_first { InternsAfterFirst }
{}

/// The entries of a table after each change, which entries are right, and which of several trees a table learns, in which order; where terms
/// stand; and what is hashed.
pub fn examples()
    ensures known_again { interned ((a, 0) ∷ []) a 7 ≡ (a, 0) ∷ [] }
    ensures new_last { interned ((a, 0) ∷ []) (f a) 1 ≡ (a, 0) ∷ (f a, 1) ∷ [] }
    ensures once { NoTreeTwice ((a, 0) ∷ (f a, 1) ∷ []) }
    ensures twice { ¬ NoTreeTwice ((a, 0) ∷ (a, 1) ∷ []) }
    ensures none { first_seen (a ∷ []) [] ≡ [] }
    ensures known { first_seen (a ∷ []) (f a ∷ a ∷ []) ≡ f a ∷ [] }
    ensures repeated { first_seen [] (f a ∷ a ∷ f a ∷ x 0 ∷ a ∷ []) ≡ f a ∷ a ∷ x 0 ∷ [] }
    ensures both_known { first_seen (a ∷ x 0 ∷ []) (x 0 ∷ a ∷ x 0 ∷ []) ≡ [] }
    ensures all_interned { InternsAll (f a ∷ a ∷ []) (table_of ((a, 0) ∷ [])) (table_of ((a, 0) ∷ (f a, 1) ∷ [])) }
    ensures not_interned { ¬ InternsAll (f a ∷ a ∷ []) (table_of ((a, 0) ∷ [])) (table_of ((a, 0) ∷ [])) }
    ensures first_interned { InternsFirst (f a ∷ x 0 ∷ []) (table_of ((a, 0) ∷ [])) (table_of ((a, 0) ∷ (f a, 1) ∷ [])) }
    ensures hash { tree_hash 0 (f a) ≡ 1936993793398074639 }
    ensures hash_of_variable { tree_hash 0 (x 3) ≡ 6 }
    ensures reference_hashed { reference_input (under 7 a) ≡ fed.u64 7 }
    ensures literal_hashed { literal_input numbered_literal ≡ fed.bool false ++ (fed.u64 7 ++ fed.u64 8) }
    ensures first_place { IsPlaceOf 0 0 0 }
    ensures end_of_row { IsPlaceOf 31 0 31 }
    ensures next_row { IsPlaceOf 32 1 0 }
    ensures next_of_the_longest { IsPlaceOf (2 ^ 33 - 32) 28 0 }
    ensures row_not_full { ¬ IsPlaceOf 31 1 0 }
    ensures past_the_row { ¬ IsPlaceOf 32 0 32 }
    ensures place_left_out { ¬ IsPlaceOf 1 0 0 }
{}
