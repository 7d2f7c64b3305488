// The histories of two units that resolve, and of one that cuts another.

ghost use Rattle.std.specs.Prelude.{◌≡◌, [], ◌∷◌, Some, None, take};
ghost use Rattle.fol_base.specs.Examples.{x, a, b, q₂, clause};
ghost use Rattle.kernel_steps.specs.Conclusion.{empty_clause};
ghost use Rattle.kernel_steps.specs.Derivation.{complement};
ghost use Rattle.kernel_steps.specs.Examples.{not_true, opposites};
ghost use Rattle.kernel_steps.specs.declared.key.Key.TheVariants as key;
ghost use Rattle.kernel_steps.specs.declared.step.Step.TheVariants as step;
ghost use Rattle.kernel_steps.specs.FromTrees.{line_of};
ghost use Rattle.pool_history.specs.Outcomes.{outcome_of};
ghost use Rattle.pool_history.specs.Replay.{replay};
ghost use Rattle.laws_pool_examples.specs.Examples.{pool_of, units, units_history, cut_away, at_roots, para_at_roots};
ghost use Rattle.pool_history.specs.declared.outcome.Outcome.TheVariants.{Refuted};

/// `q(X0, a)` and `~q(b, X0)` are claimed and meet; the empty clause is registered, and the lines are a refutation.
pub fn resolved_units()
    ensures first_told { (replay units (take 1 units_history)).given
        ≡ record { job = 1; number = 0; told = 0 ∷ []; as_of = 1; left = 100 } ∷ [] }
    ensures second_told { (replay units (take 3 units_history)).given
        ≡ record { job = 2; number = 1; told = 0 ∷ 1 ∷ []; as_of = 3; left = 100 } ∷ [] }
    ensures no_outcome { outcome_of (replay units (take 3 units_history)) ≡ None }
    ensures counted { (replay units units_history).counted ≡ at_roots 0 1 ∷ [] }
    ensures registered { (replay units units_history).registered ≡ record { clause = clause (q₂ (x 0) a ∷ []); line = 0 }
        ∷ record { clause = clause (complement (q₂ b (x 0)) ∷ []); line = 1 } ∷ record { clause = empty_clause; line = 3 } ∷ [] }
    ensures lines { (replay units units_history).lines ≡ line_of (step.Clausify 0) (clause (q₂ (x 0) a ∷ []))
        ∷ line_of (step.Clausify 1) (clause (complement (q₂ b (x 0)) ∷ []))
        ∷ line_of (para_at_roots 0 1 (b ∷ []) (a ∷ [])) (clause (not_true ∷ []))
        ∷ line_of (step.Refl 2 0 []) empty_clause ∷ [] }
    ensures refuted { outcome_of (replay units units_history) ≡ Some Refuted }
{}

/// `p(a)` cuts its negation, which goes: the empty clause takes its place, which counts as one entry.
pub fn cut_unit()
    ensures counted { (replay (pool_of opposites) cut_away).counted ≡ key.Replaced 1 ∷ [] }
    ensures refuted { outcome_of (replay (pool_of opposites) cut_away) ≡ Some Refuted }
{}
