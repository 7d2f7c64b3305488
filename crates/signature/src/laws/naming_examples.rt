// Products that are named, in the form of one axiom.

ghost use Rattle.std.specs.Prelude.{◌≡◌, [], ◌∷◌, ◌++◌, length, codes, true, false, slice_get, Some};
ghost use Rattle.tptp_tree.specs.Formula.{for_all, quantified};
ghost use Rattle.signature.specs.Form.{problem_form};
ghost use Rattle.signature.specs.Examples.{fof_axiom, clauses, x, y, z, p, all_of, one_of, atoms, pairs, v, literal, clause, before_each};

/// A product of over 64 clauses is named. The disjunction of 13 pairs has two clauses with the name of the first 12 pairs, which begins
/// with the name of the first 6; then the clauses that define the two names.
pub fn names_of_names_examples()
    ensures count { length (clauses (one_of (pairs [] 0 13))) ≡ 130 }
    ensures first { slice_get (clauses (one_of (pairs [] 0 13))) 0 ≡ Some (clause (literal true 28 [] ∷ literal true 25 [] ∷ [])) }
    ensures second { slice_get (clauses (one_of (pairs [] 0 13))) 1 ≡ Some (clause (literal true 28 [] ∷ literal true 26 [] ∷ [])) }
    ensures first_defining { slice_get (clauses (one_of (pairs [] 0 13))) 2
        ≡ Some (clause (literal false 27 [] ∷ literal true 1 [] ∷ literal true 3 [] ∷ literal true 5 []
        ∷ literal true 7 [] ∷ literal true 9 [] ∷ literal true 11 [] ∷ [])) }
    ensures last_of_first_name { slice_get (clauses (one_of (pairs [] 0 13))) 65
        ≡ Some (clause (literal false 27 [] ∷ literal true 2 [] ∷ literal true 4 [] ∷ literal true 6 []
        ∷ literal true 8 [] ∷ literal true 10 [] ∷ literal true 12 [] ∷ [])) }
    ensures first_of_second_name { slice_get (clauses (one_of (pairs [] 0 13))) 66
        ≡ Some (clause (literal false 28 [] ∷ literal true 27 [] ∷ literal true 13 [] ∷ literal true 15 [] ∷ literal true 17 []
        ∷ literal true 19 [] ∷ literal true 21 [] ∷ literal true 23 [] ∷ [])) }
    ensures last { slice_get (clauses (one_of (pairs [] 0 13))) 129
        ≡ Some (clause (literal false 28 [] ∷ literal true 27 [] ∷ literal true 14 [] ∷ literal true 16 [] ∷ literal true 18 []
        ∷ literal true 20 [] ∷ literal true 22 [] ∷ literal true 24 [] ∷ [])) }
    ensures no_name { length (clauses (one_of (pairs [] 0 6))) ≡ 64 }
    ensures no_symbol { (problem_form (fof_axiom (one_of (pairs [] 0 6)) ∷ [])).made.naming_arities ≡ [] }
{}

/// A name takes those variables of its list that were made before the work on the product's formula began, in the order in which they
/// were made.
pub fn name_arguments_examples()
    ensures count { length (clauses (quantified for_all (x ∷ []) (one_of (pairs (x ∷ []) 0 7)))) ≡ 66 }
    ensures first { slice_get (clauses (quantified for_all (x ∷ []) (one_of (pairs (x ∷ []) 0 7)))) 0
        ≡ Some (clause (literal true 15 (v 0 ∷ []) ∷ literal true 13 (v 0 ∷ []) ∷ [])) }
    ensures second { slice_get (clauses (quantified for_all (x ∷ []) (one_of (pairs (x ∷ []) 0 7)))) 1
        ≡ Some (clause (literal true 15 (v 0 ∷ []) ∷ literal true 14 (v 0 ∷ []) ∷ [])) }
    ensures defining { slice_get (clauses (quantified for_all (x ∷ []) (one_of (pairs (x ∷ []) 0 7)))) 2
        ≡ Some (clause (literal false 15 (v 0 ∷ []) ∷ literal true 1 (v 0 ∷ []) ∷ literal true 3 (v 0 ∷ [])
        ∷ literal true 5 (v 0 ∷ []) ∷ literal true 7 (v 0 ∷ []) ∷ literal true 9 (v 0 ∷ [])
        ∷ literal true 11 (v 0 ∷ []) ∷ [])) }
    ensures first_of_equally_long { clauses (quantified for_all (x ∷ z ∷ [])
        (one_of (quantified for_all (y ∷ []) (all_of (atoms (codes "a") (x ∷ y ∷ []) 1 9)) ∷ all_of (atoms (codes "b") (z ∷ []) 1 9) ∷ [])))
        ≡ before_each (literal true 19 (v 0 ∷ [])) 10 9 (v 1 ∷ []) ++ before_each (literal false 19 (v 0 ∷ [])) 1 9 (v 0 ∷ v 1 ∷ []) }
    ensures in_order { clauses (quantified for_all (x ∷ y ∷ [])
        (one_of (all_of (atoms (codes "a") (y ∷ x ∷ []) 1 9) ∷ all_of (atoms (codes "b") [] 1 9) ∷ [])))
        ≡ before_each (literal true 19 (v 0 ∷ v 1 ∷ [])) 10 9 [] ++ before_each (literal false 19 (v 0 ∷ v 1 ∷ [])) 1 9 (v 1 ∷ v 0 ∷ []) }
{}

/// A list of one clause makes no name, of two lists the longer one is named, and 65 clauses are enough for a name.
pub fn large_product_examples()
    ensures one_clause { clauses (one_of (p ∷ all_of (atoms (codes "e") [] 0 65) ∷ [])) ≡ before_each (literal true 1 []) 2 65 [] }
    ensures smallest { length (clauses (one_of (all_of (atoms (codes "e") [] 0 5) ∷ all_of (atoms (codes "f") [] 0 13) ∷ []))) ≡ 18 }
    ensures second_is_longer { clauses (one_of (all_of (atoms (codes "e") [] 0 2) ∷ all_of (atoms (codes "f") [] 0 33) ∷ []))
        ≡ clause (literal true 1 [] ∷ literal true 36 [] ∷ []) ∷ clause (literal true 2 [] ∷ literal true 36 [] ∷ [])
        ∷ before_each (literal false 36 []) 3 33 [] }
{}
