// Inferences by their names.

ghost use Rattle.std.specs.Prelude.{[], ◌∷◌, slice_get};
ghost use Rattle.fol_base.specs.Clause.{TreeClause};
ghost use Rattle.fol_base.specs.Selection.{select_nothing, select_negative};
ghost use Rattle.fol_base.specs.Examples.{x, a, p, q, clause, is_predicate};
ghost use Rattle.fol_base.specs.Rules.{disequation};
ghost use Rattle.fol_base.specs.declared.clause.Side.TheVariants.{Left};
ghost use Rattle.kernel_steps.specs.Examples.{not_p, not_true};
ghost use Rattle.kernel_steps.specs.Named.{IsInference};
ghost use Rattle.kernel_steps.specs.declared.key.Key.TheVariants as key;

/// Which conclusion the inference of a name has.
pub fn named_inference_examples()
    ensures para { IsInference is_predicate select_negative (slice_get (clause (not_p (x 0) ∷ q (x 0) ∷ []) ∷ clause (p a ∷ []) ∷ [])) (key.Para 1 0 Left 0 0 Left []) (clause (not_true ∷ q a ∷ [])) }
    ensures refl { IsInference is_predicate select_negative (slice_get (clause (disequation (x 0) a ∷ p (x 0) ∷ []) ∷ [])) (key.Refl 0 0) (clause (p a ∷ [])) }
    ensures factor { IsInference is_predicate select_nothing (slice_get (clause (p (x 0) ∷ p a ∷ []) ∷ [])) (key.Factor 0 1 Left 0 Left) (clause (p a ∷ not_true ∷ [])) }
    ensures no_such_clause { (c : TreeClause) → IsInference is_predicate select_negative (slice_get []) (key.Refl 0 0) c → ⊥ }
    ensures replaced { (c : TreeClause) → IsInference is_predicate select_nothing (slice_get (clause (p a ∷ []) ∷ [])) (key.Replaced 0) c → ⊥ }
{}
