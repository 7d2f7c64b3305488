// Worked examples of the definitions. The symbols a, b, c, f, g, p, q rise in precedence in this order.

ghost use Rattle.std.specs.Prelude.{◌≡◌, [], ◌∷◌, Some, None, true, false, IsTrue, IsFalse, Contains};
ghost use Rattle.fol_base.specs.Tree.{variable, tree_size, true_tree};
ghost use Rattle.fol_base.specs.Instance.{instance, substitution};
ghost use Rattle.fol_base.specs.Place.{replaced, subterm};
ghost use Rattle.fol_base.specs.Canonical.{canonical_clause};
ghost use Rattle.fol_base.specs.Ground.{ground_over, GroundInstance};
ghost use Rattle.fol_base.specs.Interpretation.{clause_true, tree_value, no_values, row_in_range, table_value, HoldsIn};
ghost use Rattle.fol_base.specs.Entails.{Entails, IsRefuted};
ghost use Rattle.fol_base.specs.Multiset.{greater, less, equal, unordered};
ghost use Rattle.fol_base.specs.Order.{compare_trees, compare_literals, compare_clauses};
ghost use Rattle.fol_base.specs.Selection.{select_nothing, select_negative, chosen, eligible, eligible_in_instance};
ghost use Rattle.fol_base.specs.GroundInference.{GroundSuperposition, GroundResolution, GroundFactoring, GroundConclusion};
ghost use Rattle.fol_base.specs.Covered.{Covers};
ghost use Rattle.fol_base.specs.Examples.{x, a, b, c, f, f₂, g, p, q, q₂, equation, clause, is_predicate, functions, symbols, row, all_a, all_towers, p_of_a_alone, p_of_each};
ghost use Rattle.fol_base.specs.Rules.{disequation};

/// Instances, replacement and canonical form.
pub fn tree_examples()
    ensures applied { instance (substitution (a ∷ [])) (f (x 0)) ≡ f a }
    ensures replaced_argument { replaced (0 ∷ []) b (f a) ≡ Some (f b) }
    ensures no_such_place { replaced (1 ∷ []) b (f a) ≡ None }
    ensures numbered_by_first_occurrence { canonical_clause (clause (p (x 3) ∷ q₂ (x 1) (x 3) ∷ [])) ≡ clause (p (x 0) ∷ q₂ (x 1) (x 0) ∷ []) }
{}

/// The order on terms, literals and clauses.
pub fn order_examples()
    ensures above_its_variable { compare_trees (f (x 0)) (x 0) ≡ greater }
    ensures other_variable { compare_trees (f (x 0)) (f (x 1)) ≡ unordered }
    ensures variable_and_constant { compare_trees (x 0) a ≡ unordered }
    ensures by_precedence { compare_trees (g a) (f a) ≡ greater }
    ensures by_first_argument { compare_trees (f₂ a b) (f₂ b a) ≡ less }
    ensures same_tree { compare_trees (f (x 0)) (f (x 0)) ≡ equal }
    ensures crossed_variables { compare_trees (f₂ (g (x 0)) (x 1)) (f₂ (g (x 1)) (x 0)) ≡ unordered }
    ensures below_its_negation { compare_literals (equation (f a) b) (disequation (f a) b) ≡ less }
    ensures sides_in_either_order { compare_literals (equation (f a) b) (equation b (f a)) ≡ equal }
    ensures one_more_literal { compare_clauses (p a ∷ []) (p a ∷ q a ∷ []) ≡ less }
    ensures literals_in_any_order { compare_clauses (p a ∷ q a ∷ []) (q a ∷ p a ∷ []) ≡ equal }
{}

/// The chosen literal, and which literals are eligible.
pub fn selection_examples()
    ensures greatest_negative { chosen select_negative (p a ∷ disequation (f a) b ∷ disequation a b ∷ []) ≡ Some 1 }
    ensures first_of_equals { chosen select_negative (disequation a b ∷ disequation b a ∷ []) ≡ Some 0 }
    ensures no_negative { chosen select_negative (p a ∷ q a ∷ []) ≡ None }
    ensures no_selection { chosen select_nothing (p a ∷ disequation (f a) b ∷ disequation a b ∷ []) ≡ None }
    ensures unordered_first { IsTrue (eligible (p (x 0) ∷ p a ∷ []) 0 None true) }
    ensures unordered_second { IsTrue (eligible (p (x 0) ∷ p a ∷ []) 1 None true) }
    ensures smaller { IsFalse (eligible (p a ∷ q a ∷ []) 0 None false) }
    ensures repeated { IsTrue (eligible (p a ∷ p a ∷ []) 0 None false) }
    ensures repeated_strictly { IsFalse (eligible (p a ∷ p a ∷ []) 0 None true) }
    ensures not_chosen { IsFalse (eligible (p a ∷ disequation a b ∷ []) 0 (Some 1) false) }
    ensures choice_stays { IsTrue (eligible_in_instance select_negative (disequation (x 0) a ∷ disequation (f a) b ∷ []) all_towers 1 false) }
    ensures no_later_choice { IsFalse (eligible_in_instance select_negative (disequation (x 0) a ∷ disequation (f a) b ∷ []) all_towers 0 false) }
    ensures maximal_in_instance { IsTrue (eligible_in_instance select_nothing (p (x 0) ∷ p a ∷ []) all_towers 0 true) }
    ensures smaller_in_instance { IsFalse (eligible_in_instance select_nothing (p (x 0) ∷ p a ∷ []) all_towers 1 false) }
    ensures same_in_instance { IsFalse (eligible_in_instance select_nothing (p (x 0) ∷ p a ∷ []) all_a 0 true) }
{}

/// Ground trees, values, and what ground clauses entail.
pub fn meaning_examples()
    ensures over_the_list { IsTrue (ground_over symbols (f a)) }
    ensures wrong_number_of_arguments { IsFalse (ground_over symbols (f₂ a b)) }
    ensures not_of_the_list { IsFalse (ground_over symbols (g a)) }
    ensures first_row { tree_value p_of_a_alone no_values b ≡ 1 }
    ensures first_of_two_rows { table_value (row 4 1 ∷ row 4 0 ∷ []) 4 (0 ∷ []) ≡ 1 }
    ensures predicate_is_true { IsTrue (row_in_range is_predicate 1 (row 6 1)) }
    ensures predicate_out_of_range { IsFalse (row_in_range is_predicate 3 (row 6 2)) }
    ensures function_out_of_range { IsFalse (row_in_range is_predicate 1 (row 4 1)) }
    ensures no_row { tree_value p_of_a_alone no_values a ≡ 0 }
    ensures holds_for_each_value { HoldsIn p_of_each (clause (p (x 0) ∷ [])) }
    ensures fails_for_one_value { HoldsIn p_of_a_alone (clause (p (x 0) ∷ [])) → ⊥ }
    ensures instance_over_the_list { GroundInstance functions (clause (p (x 0) ∷ [])) (p a ∷ []) }
    ensures rewritten { Entails is_predicate ((equation a b ∷ []) ∷ (equation (f a) c ∷ []) ∷ []) (equation (f b) c ∷ []) }
    ensures other_constant { Entails is_predicate ((p a ∷ []) ∷ []) (p b ∷ []) → ⊥ }
    ensures contradiction { IsRefuted is_predicate ((p a ∷ []) ∷ (disequation (p a).left true_tree ∷ []) ∷ []) }
    ensures no_contradiction { IsRefuted is_predicate ((p a ∷ []) ∷ []) → ⊥ }
{}

/// Ground inferences of each kind, and coverage.
pub fn coverage_examples()
    ensures inference { GroundSuperposition functions select_nothing
        (clause (equation (f (x 0)) b ∷ []))
        (clause (p (f (f (x 0))) ∷ []))
        (p (f b) ∷ []) }
    ensures inference_between_listed { GroundConclusion functions select_nothing
        (Contains (clause (equation (f (x 0)) b ∷ []) ∷ clause (p (f (f (x 0))) ∷ []) ∷ []))
        (p (f b) ∷ []) }
    ensures resolution { GroundResolution functions select_negative (clause (p (x 0) ∷ disequation (x 0) a ∷ [])) (p a ∷ []) }
    ensures factoring { GroundFactoring functions select_nothing
        (clause (equation (f (x 0)) a ∷ equation (f a) b ∷ []))
        (equation (f a) a ∷ disequation b a ∷ []) }
    ensures by_a_smaller { Covers functions (clause (p a ∷ []) ∷ []) (p a ∷ p a ∷ []) }
    ensures not_by_a_greater { Covers functions (clause (p a ∷ p a ∷ []) ∷ []) (p a ∷ []) → ⊥ }
{}
