// Worked examples of the definitions: the contracts of functions without arguments and with empty bodies.

ghost use Rattle.std.specs.Prelude.{◌≡◌, [], ◌∷◌, true, false, None, Some, IsTrue, IsFalse};
ghost use Rattle.fol_base.specs.Examples.{x, a, p, clause, is_predicate};
ghost use Rattle.fol_base.specs.Rules.{disequation};
ghost use Rattle.fol_base.specs.Selection.{select_negative, select_nothing};
ghost use Rattle.fol_base.specs.declared.clause.Side.TheVariants.{Left, Right};
ghost use Rattle.kernel_steps.specs.Conclusion.{concludes, verdict};
ghost use Rattle.kernel_steps.specs.Examples.{not_true};
ghost use Rattle.kernel_steps.specs.declared.key.Key.TheVariants.{Factor, Refl};
ghost use Rattle.kernel_steps.specs.declared.step.Step.TheVariants as step;
ghost use Rattle.kernel_steps.specs.Sized.{IsSizedInference, SizedFactoring, SizedResolution, is_large};
ghost use Rattle.kernel_steps.specs.Lines.{key_of, clause_parents};
ghost use Rattle.eq_rules.specs.Inferences.{IsConcluded, bindings_of, is_factoring, is_resolution};
ghost use Rattle.eq_rules.specs.Examples.{found_at_four, found_at_three};
ghost use Rattle.eq_rules.specs.Factoring.{are_alike, factors_before};
ghost use Rattle.bank_clause.specs.Clause.{side_number};
ghost use Rattle.eq_rules.specs.Renumbered.{AreNumberedInOrder};

/// Sizes of inferences: of `X0 != a | p(X0)`, with the conclusion `p(a)`, and of `p(X0) | p(a)`, with `~$true | p(a)`.
pub fn size_examples()
    ensures small { IsFalse (is_large (clause (p (x 0) ∷ p a ∷ []))) }
    ensures resolution { SizedResolution select_negative (clause (disequation (x 0) a ∷ p (x 0) ∷ [])) 0 (clause (p a ∷ [])) false }
    ensures factoring { SizedFactoring is_predicate select_nothing
        (clause (p (x 0) ∷ p a ∷ [])) 0 Left 1 Left (clause (not_true ∷ p a ∷ [])) false }
{}

/// Names and steps: the clause `X0 != a | p(X0)` has the number 3, and `X0 != X1 | p(a)` the number 4. A step of this one that puts in atoms
/// for its variables has the right verdict, and is no step of a conclusion.
pub fn step_examples()
    ensures of_step { key_of (step.Refl 3 0 (a ∷ [])) ≡ Some (Refl 3 0) }
    ensures of_factoring { key_of (step.Factor 3 0 Left 1 Right []) ≡ Some (Factor 3 0 Left 1 Right) }
    ensures of_merging { key_of (step.Merge 3 0 1 []) ≡ None }
    ensures bindings { bindings_of (step.Refl 3 0 (a ∷ [])) ≡ a ∷ [] }
    ensures concluded { IsConcluded is_predicate select_negative found_at_three
        (Refl 3 0) (step.Refl 3 0 (a ∷ [])) (clause (p a ∷ [])) }
    ensures right_with_predicates { verdict (step.Refl 4 0 ((p a).left ∷ (p a).left ∷ [])) (clause_parents found_at_four) ≡ concludes (clause (p a ∷ [])) }
    ensures no_predicates_bound { ¬ IsConcluded is_predicate select_negative found_at_four
        (Refl 4 0) (step.Refl 4 0 ((p a).left ∷ (p a).left ∷ [])) (clause (p a ∷ [])) }
    ensures is_resolution { IsTrue (is_resolution (Refl 3 0)) }
    ensures is_no_factoring { IsFalse (is_factoring (Refl 3 0)) }
{}

/// Numbers of variables and of sides.
pub fn number_examples()
    ensures in_order { AreNumberedInOrder (0 ∷ 1 ∷ 0 ∷ 2 ∷ []) }
    ensures not_from_zero { ¬ AreNumberedInOrder (1 ∷ []) }
    ensures left_side { side_number 2 Left ≡ 4 }
    ensures right_side { side_number 2 Right ≡ 5 }
    ensures before { IsTrue (factors_before 1 3 (Factor 3 0 Right 1 Left)) }
    ensures not_before { IsFalse (factors_before 1 2 (Factor 3 0 Right 1 Left)) }
    ensures atoms { IsTrue (are_alike (p (x 0)) Left (p a) Left) }
    ensures truths { IsFalse (are_alike (p (x 0)) Right (p a) Right) }
{}
