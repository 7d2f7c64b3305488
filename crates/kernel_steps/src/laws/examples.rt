// Worked examples of steps and derivations. The symbols are those of the base's examples.

ghost use Rattle.std.specs.Prelude.{◌≡◌, ◌+◌, ◌^◌, true, false, [], ◌∷◌, Some, None, take, codes, IsTrue, IsFalse};
ghost use Rattle.plain_types.specs.Names.{positive_of, negative_of};
ghost use Rattle.fol_base.specs.Tree.{true_tree};
ghost use Rattle.fol_base.specs.Examples.{x, a, b, p, q, clause};
ghost use Rattle.fol_base.specs.Literal.{clause_of};
ghost use Rattle.fol_base.specs.declared.clause.Side.TheVariants.{Left, Right};
ghost use Rattle.kernel_steps.specs.Names.{sorted_names, chained};
ghost use Rattle.kernel_steps.specs.Split.{is_split, is_rising};
ghost use Rattle.kernel_steps.specs.Conclusion.{verdict, binding_fault, rule_fault, concludes, empty_clause};
ghost use Rattle.kernel_steps.specs.Derivation.{body, ComesBy, IsRefutation, continued, AreSteps, reduced_parents, under_names};
ghost use Rattle.kernel_steps.specs.Keys.{key_text};
ghost use Rattle.kernel_steps.specs.Lines.{own_terms};
ghost use Rattle.kernel_steps.specs.FromTrees.{line_of};
ghost use Rattle.kernel_steps.specs.Marks.{is_marked, marked_numbers};
ghost use Rattle.kernel_steps.specs.Examples.{not_p, not_true, tower, names_only, conclusion, definition, listed, line, introduced, opposites, opposites_lines, opposites_with, reducing_lines, implication, implication_lines, rewrites, rewrites_lines, components, components_lines, four_clauses, four_clauses_lines};
ghost use Rattle.kernel_steps.specs.declared.step.Step.TheVariants as step;
ghost use Rattle.kernel_steps.specs.declared.key.Key.TheVariants as key;

/// Lists of names, and resolution on them.
pub fn name_examples()
    ensures sorted { sorted_names (positive_of 1 ∷ positive_of 0 ∷ negative_of 1 ∷ positive_of 0 ∷ []) ≡ positive_of 0 ∷ negative_of 1 ∷ positive_of 1 ∷ [] }
    ensures resolved { chained ((positive_of 0 ∷ positive_of 1 ∷ []) ∷ (negative_of 0 ∷ []) ∷ (negative_of 1 ∷ []) ∷ []) (positive_of 0 ∷ positive_of 1 ∷ []) ≡ Some [] }
    ensures other_order { chained ((positive_of 0 ∷ positive_of 1 ∷ []) ∷ (negative_of 0 ∷ []) ∷ (negative_of 1 ∷ []) ∷ []) (positive_of 1 ∷ positive_of 0 ∷ []) ≡ None }
    ensures too_few_pivots { chained ((positive_of 0 ∷ []) ∷ (negative_of 0 ∷ []) ∷ []) [] ≡ None }
    ensures other_sign { chained ((negative_of 0 ∷ []) ∷ (positive_of 0 ∷ []) ∷ []) (positive_of 0 ∷ []) ≡ None }
{}

/// The printed names of inferences.
pub fn key_examples()
    ensures para { key_text (key.Para 0 0 Left 1 0 Left (0 ∷ 12 ∷ [])) ≡ codes "para(0,0,left,1,0,left,[0,12])" }
    ensures at_the_side_itself { key_text (key.Para 0 0 Left 1 0 Left []) ≡ codes "para(0,0,left,1,0,left,[])" }
    ensures refl { key_text (key.Refl 7 1) ≡ codes "refl(7,1)" }
    ensures factor { key_text (key.Factor 3 0 Left 1 Right) ≡ codes "factor(3,0,left,1,right)" }
{}

/// Steps on clauses that are parents by their places.
pub fn step_examples()
    ensures chain { verdict (step.Chain (0 ∷ 1 ∷ 2 ∷ []) (positive_of 0 ∷ positive_of 1 ∷ [])) (listed (names_only (positive_of 0 ∷ positive_of 1 ∷ []) ∷ names_only (negative_of 0 ∷ []) ∷ names_only (negative_of 1 ∷ []) ∷ [])) ≡ concludes empty_clause }
    ensures chain_in_other_order { verdict (step.Chain (0 ∷ 1 ∷ 2 ∷ []) (positive_of 1 ∷ positive_of 0 ∷ [])) (listed (names_only (positive_of 0 ∷ positive_of 1 ∷ []) ∷ names_only (negative_of 0 ∷ []) ∷ names_only (negative_of 1 ∷ []) ∷ [])) ≡ rule_fault }
    ensures chain_of_one { verdict (step.Chain (0 ∷ []) []) (listed (names_only (positive_of 1 ∷ negative_of 0 ∷ []) ∷ [])) ≡ concludes (names_only (negative_of 0 ∷ positive_of 1 ∷ [])) }
    ensures chain_of_none { verdict (step.Chain [] []) (listed (names_only [] ∷ [])) ≡ rule_fault }
    ensures chain_of_literals { verdict (step.Chain (0 ∷ []) []) (listed (clause (p a ∷ []) ∷ [])) ≡ rule_fault }
    ensures first_factored { verdict (step.Factor 0 0 Left 1 Left (a ∷ [])) (listed (clause (p (x 0) ∷ p a ∷ []) ∷ [])) ≡ concludes (clause (not_true ∷ p a ∷ [])) }
    ensures second_factored { verdict (step.Factor 0 1 Left 0 Left (a ∷ [])) (listed (clause (p (x 0) ∷ p a ∷ []) ∷ [])) ≡ concludes (clause (p a ∷ not_true ∷ [])) }
    ensures merged { verdict (step.Merge 0 1 0 (a ∷ [])) (listed (under_names (p (x 0) ∷ p a ∷ []) (positive_of 2 ∷ negative_of 1 ∷ []) ∷ [])) ≡ concludes (under_names (p a ∷ []) (negative_of 1 ∷ positive_of 2 ∷ [])) }
    ensures names_united { verdict (step.Para 0 1 0 Left 0 Left [] [] []) (listed (under_names (p a ∷ []) (negative_of 1 ∷ []) ∷ under_names (not_p a ∷ []) (negative_of 0 ∷ negative_of 1 ∷ []) ∷ [])) ≡ concludes (under_names (not_true ∷ []) (negative_of 0 ∷ negative_of 1 ∷ [])) }
    ensures no_such_parent { verdict (step.Para 0 1 0 Left 0 Left [] [] (a ∷ [])) (listed (clause (p a ∷ []) ∷ [])) ≡ rule_fault }
{}

/// Splits: parts of ground literals, or of literals whose variables are apart, with the lines that define them.
pub fn split_examples()
    ensures two_parts { IsTrue (is_split (p (x 0) ∷ q (x 1) ∷ []) (definition (p (x 0) ∷ []) ∷ definition (q (x 0) ∷ []) ∷ []) ((0 ∷ []) ∷ (1 ∷ []) ∷ [])) }
    ensures places_apart { IsTrue (is_split (p (x 1) ∷ q (x 0) ∷ q (x 1) ∷ []) (definition (p (x 0) ∷ q (x 0) ∷ []) ∷ definition (q (x 0) ∷ []) ∷ []) ((0 ∷ 2 ∷ []) ∷ (1 ∷ []) ∷ [])) }
    ensures split_into_one_part { IsTrue (is_split (p (x 0) ∷ q (x 0) ∷ []) (definition (p (x 0) ∷ q (x 0) ∷ []) ∷ []) ((0 ∷ 1 ∷ []) ∷ [])) }
    ensures split_into_no_part { IsFalse (is_split [] [] []) }
    ensures shared_variable { IsFalse (is_split (p (x 0) ∷ q (x 0) ∷ []) (definition (p (x 0) ∷ []) ∷ definition (q (x 0) ∷ []) ∷ []) ((0 ∷ []) ∷ (1 ∷ []) ∷ [])) }
    ensures literal_left_out { IsFalse (is_split (p a ∷ q b ∷ []) (definition (p a ∷ []) ∷ []) ((0 ∷ []) ∷ [])) }
    ensures one_left_out_for_one_twice { IsFalse (is_split (p a ∷ q b ∷ []) (definition (p a ∷ []) ∷ definition (p a ∷ []) ∷ []) ((0 ∷ []) ∷ (0 ∷ []) ∷ [])) }
    ensures literal_in_two_parts { IsFalse (is_split (p a ∷ q b ∷ []) (definition (p a ∷ []) ∷ definition (p a ∷ q b ∷ []) ∷ []) ((0 ∷ []) ∷ (0 ∷ 1 ∷ []) ∷ [])) }
    ensures places_that_fall { IsFalse (is_split (p a ∷ q b ∷ []) (definition (q b ∷ p a ∷ []) ∷ []) ((1 ∷ 0 ∷ []) ∷ [])) }
    ensures part_without_places { IsFalse (is_split (p a ∷ []) (definition (p a ∷ []) ∷ definition [] ∷ []) ((0 ∷ []) ∷ [] ∷ [])) }
    ensures missing_definition { verdict (step.Split 0 (1 ∷ []) ((0 ∷ []) ∷ [])) (listed (clause (p a ∷ []) ∷ [])) ≡ rule_fault }
    ensures introduces_nothing { IsFalse (is_split (p a ∷ []) (conclusion (clause (p a ∷ [])) ∷ []) ((0 ∷ []) ∷ [])) }
    ensures other_literals { IsFalse (is_split (p a ∷ q b ∷ []) (definition (p a ∷ []) ∷ definition (q a ∷ []) ∷ []) ((0 ∷ []) ∷ (1 ∷ []) ∷ [])) }
    ensures definitions_exchanged { IsFalse (is_split (p a ∷ q b ∷ []) (definition (q b ∷ []) ∷ definition (p a ∷ []) ∷ []) ((0 ∷ []) ∷ (1 ∷ []) ∷ [])) }
    ensures one_definition_too_many { IsFalse (is_split (p a ∷ []) (definition (p a ∷ []) ∷ definition (q b ∷ []) ∷ []) ((0 ∷ []) ∷ [])) }
    ensures one_definition_too_few { IsFalse (is_split (p a ∷ q b ∷ []) (definition (p a ∷ []) ∷ []) ((0 ∷ []) ∷ (1 ∷ []) ∷ [])) }
{}

/// Definitions of names, after a line that introduces the name 0 or after none.
pub fn definition_examples()
    ensures component_of_literals { ComesBy (step.Component 1) [] (introduced (p a ∷ [])) (under_names (not_p (x 0) ∷ q (x 1) ∷ []) (negative_of 1 ∷ [])) }
    ensures introduced_twice { ComesBy (step.Component 0) [] (introduced (p a ∷ [])) (under_names (q a ∷ []) (negative_of 0 ∷ [])) → ⊥ }
    ensures component_without_literals { ComesBy (step.Component 0) [] [] (under_names [] (negative_of 0 ∷ [])) → ⊥ }
    ensures opposite { ComesBy (step.Opposite 0) [] (introduced (p a ∷ [])) (under_names (not_p a ∷ []) (positive_of 0 ∷ [])) }
    ensures opposite_of_nothing { ComesBy (step.Opposite 0) [] [] (under_names (not_p a ∷ []) (positive_of 0 ∷ [])) → ⊥ }
    ensures opposite_of_variable { ComesBy (step.Opposite 0) [] (introduced (p (x 0) ∷ [])) (under_names (not_p (x 0) ∷ []) (positive_of 0 ∷ [])) → ⊥ }
    ensures opposite_of_two_literals { ComesBy (step.Opposite 0) [] (introduced (p a ∷ q b ∷ [])) (under_names (not_p a ∷ []) (positive_of 0 ∷ [])) → ⊥ }
    ensures opposite_of_negative_literal { ComesBy (step.Opposite 0) [] (introduced (not_p a ∷ [])) (under_names (p a ∷ []) (positive_of 0 ∷ [])) → ⊥ }
    ensures body_of_name { body (introduced (p a ∷ q b ∷ [])) 0 ≡ clause (p a ∷ q b ∷ []) }
    ensures body_of_no_name { body (introduced (p a ∷ [])) 1 ≡ empty_clause }
{}

/// Numbers of parents where lines go on from clauses: a batch's, and those of the lines of a reduced clause.
pub fn number_examples()
    ensures clause_of_batch { continued (2 ^ 32) (listed opposites) implication_lines 1 ≡ Some (conclusion (clause (not_p a ∷ []))) }
    ensures line_of_batch { continued (2 ^ 32) (listed opposites) implication_lines (2 ^ 32 + 5) ≡ Some (conclusion (clause (p a ∷ []))) }
    ensures formula_of_batch { continued (2 ^ 32) (listed opposites) implication_lines (2 ^ 32) ≡ None }
    ensures past_the_batch { continued (2 ^ 32) (listed opposites) implication_lines (2 ^ 32 + 11) ≡ None }
    ensures clause_by_number { reduced_parents (listed opposites) (clause (q b ∷ [])) 1 ≡ Some (conclusion (clause (not_p a ∷ []))) }
    ensures clause_handed_in { reduced_parents (listed opposites) (clause (q b ∷ [])) (2 ^ 32) ≡ Some (conclusion (clause (q b ∷ []))) }
    ensures no_clause_after { reduced_parents (listed opposites) (clause (q b ∷ [])) (2 ^ 32 + 1) ≡ None }
    ensures line_of_reduced { continued (2 ^ 32 + 1) (reduced_parents (listed opposites) (clause (not_p a ∷ []))) reducing_lines (2 ^ 32 + 1) ≡ Some (conclusion (clause (not_true ∷ []))) }
    ensures reduced { AreSteps (2 ^ 32 + 1) (reduced_parents (listed opposites) (clause (not_p a ∷ []))) reducing_lines }
{}

/// Bindings: before the rule is asked, they are.
pub fn binding_examples()
    ensures truth { verdict (step.Refl 0 0 (true_tree ∷ [])) (listed (clause (p (x 0) ∷ []) ∷ [])) ≡ binding_fault }
    ensures too_short { verdict (step.Refl 0 0 []) (listed (clause (p (x 0) ∷ []) ∷ [])) ≡ binding_fault }
    ensures too_long { verdict (step.Refl 0 0 (a ∷ b ∷ [])) (listed (clause (p (x 0) ∷ []) ∷ [])) ≡ binding_fault }
    ensures right { verdict (step.Refl 0 0 (a ∷ [])) (listed (clause (p (x 0) ∷ []) ∷ [])) ≡ rule_fault }
    ensures largest { verdict (step.Refl 0 0 (tower 7997 ∷ [])) (listed (clause (p (x 0) ∷ []) ∷ [])) ≡ rule_fault }
    ensures too_large { verdict (step.Refl 0 0 (tower 7998 ∷ [])) (listed (clause (p (x 0) ∷ []) ∷ [])) ≡ binding_fault }
    ensures of_the_second { verdict (step.Para 2 0 0 Left 0 Left [] [] []) (listed (clause (p (x 0) ∷ []) ∷ [])) ≡ binding_fault }
{}

/// Whole derivations: the steps of each line compute to its clause.
pub fn derivation_examples()
    ensures opposites { IsRefutation opposites (opposites_lines 3) }
    ensures implication { IsRefutation implication implication_lines }
    ensures rewrites { IsRefutation rewrites rewrites_lines }
    ensures components { IsRefutation components components_lines }
    ensures signed_names { IsRefutation four_clauses four_clauses_lines }
{}

/// Derivations that are no refutations, by one change each.
pub fn changed_derivation_examples()
    ensures other_parent { IsRefutation opposites (opposites_lines 2) → ⊥ }
    ensures other_index { IsRefutation opposites (opposites_with (line (step.Clausify 0) (not_p a ∷ [])) 3) → ⊥ }
    ensures one_literal_fewer { IsRefutation opposites (opposites_with (line (step.Clausify 1) []) 3) → ⊥ }
    ensures last_line_left_out { IsRefutation opposites (take 4 (opposites_lines 3)) → ⊥ }
{}

/// Lines that trees make, the variables of a clause as terms, marks of numbers, and numbers that rise.
pub fn line_examples()
    ensures line { clause_of (line_of (step.Refl 0 0 []) (under_names (p a ∷ []) (positive_of 0 ∷ []))).clause ≡ under_names (p a ∷ []) (positive_of 0 ∷ []) }
    ensures own_terms { own_terms (clause (q (x 1) ∷ [])) ≡ x 0 ∷ x 1 ∷ [] }
    ensures marked { is_marked (false ∷ true ∷ []) 1 ≡ true }
    ensures past_the_marks { is_marked (true ∷ []) 1 ≡ false }
    ensures marked_numbers { marked_numbers 3 (true ∷ false ∷ true ∷ []) ≡ 3 ∷ 5 ∷ [] }
    ensures rising { IsTrue (is_rising (0 ∷ 2 ∷ [])) }
    ensures falling { IsFalse (is_rising (2 ∷ 0 ∷ [])) }
    ensures same_again { IsFalse (is_rising (1 ∷ 1 ∷ [])) }
{}
