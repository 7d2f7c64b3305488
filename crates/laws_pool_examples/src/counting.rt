// Histories in which the limit is reached, or an inference is set aside.

ghost use Rattle.std.specs.Prelude.{◌≡◌, [], ◌∷◌, ◌++◌, true, Some, None, length, take, option_map, slice_get};
ghost use Rattle.fol_base.specs.Examples.{a, b, f, p, clause};
ghost use Rattle.kernel_steps.specs.declared.key.Key.TheVariants as key;
ghost use Rattle.kernel_steps.specs.FromTrees.{line_of};
ghost use Rattle.pool_history.specs.Outcomes.{outcome_of};
ghost use Rattle.pool_history.specs.Record.{Registered};
ghost use Rattle.pool_history.specs.Replay.{replay};
ghost use Rattle.laws_pool_examples.specs.Examples.{pool_up_to, growing, growing_history, heavy_history, two_heavy, unifying, units_history, limited, rewrites_history, return, removal, kept, growing_with, at_roots, para_at_roots};
ghost use Rattle.pool_history.specs.declared.batch.Fate.TheVariants.{Dropped};
ghost use Rattle.pool_history.specs.declared.batch.Redundancy.TheVariants.{Tautology};
ghost use Rattle.pool_history.specs.declared.batch.Work.TheVariants as work;
ghost use Rattle.pool_history.specs.declared.outcome.Outcome.TheVariants.{Refuted, Spent, Heavy};

/// Where the count reaches the limit, nothing more is registered, unless the empty clause is among the results.
pub fn spent_examples()
    ensures spent { outcome_of (replay (growing 1) growing_history) ≡ Some (Spent 1) }
    ensures not_registered { length (replay (growing 1) growing_history).registered ≡ 2 }
    ensures not_spent { outcome_of (replay (growing 2) growing_history) ≡ None }
    ensures registered { length (replay (growing 2) growing_history).registered ≡ 3 }
    ensures refuted { outcome_of (replay (pool_up_to 1 true unifying) units_history) ≡ Some Refuted }
{}

/// After that a return counts and registers nothing and no clause dies. The given clause becomes active, even where it would go.
pub fn after_spent_examples()
    ensures spent { outcome_of (replay limited (take 3 rewrites_history)) ≡ Some (Spent 1) }
    ensures registered { length (replay limited (take 3 rewrites_history)).registered ≡ 2 }
    ensures one_death { length (replay limited (take 3 rewrites_history)).deaths ≡ 1 }
    ensures met { (replay limited (take 3 rewrites_history ++ return 1 (work.Met [] []) ∷ [])).active ≡ 0 ∷ [] }
    ensures gone { (replay limited (take 3 rewrites_history ++ return 1 (work.Gone (removal 0 [] (Dropped Tautology))) ∷ [])).active ≡ 0 ∷ [] }
    ensures no_death { length (replay limited (take 3 rewrites_history ++ return 1 (work.Gone (removal 0 [] (Dropped Tautology))) ∷ [])).deaths ≡ 1 }
{}

/// An inference that was set aside is counted. Once nothing else is left to do, the pool ends with its place: that of the first of living
/// clauses.
pub fn heavy_examples()
    ensures counted { (replay (growing 100) heavy_history).counted ≡ at_roots 0 1 ∷ [] }
    ensures set_aside { (replay (growing 100) heavy_history).set_aside ≡ at_roots 0 1 ∷ [] }
    ensures heavy { outcome_of (replay (growing 100) heavy_history) ≡ Some (Heavy 0) }
    ensures first { outcome_of (replay (growing 100) (two_heavy [])) ≡ Some (Heavy 0) }
    ensures first_living { outcome_of (replay (growing 100) (two_heavy (removal 0 [] (Dropped Tautology) ∷ []))) ≡ Some (Heavy 1) }
{}

/// The results of a batch's entries are registered before its removals take effect, and so before their results; where they reach the limit,
/// no clause dies.
pub fn removal_examples()
    ensures one_death { (replay (growing 100) (growing_with (removal 0 (1 ∷ []) (Dropped Tautology)))).deaths
        ≡ record { victim = 0; event = 3; justifiers = 1 ∷ [] } ∷ [] }
    ensures registered { length (replay (growing 100) (growing_with (removal 0 (1 ∷ []) (Dropped Tautology)))).registered ≡ 3 }
    ensures result_dies { (replay (growing 100) (growing_with (removal 2 [] (Dropped Tautology)))).deaths
        ≡ record { victim = 2; event = 3; justifiers = [] } ∷ [] }
    ensures entry_first { option_map (λ (c : Registered). c.clause)
        (slice_get (replay (growing 100) (growing_with (removal 0 (1 ∷ []) (kept (line_of (para_at_roots 0 1 [] []) (clause (p b ∷ [])) ∷ []) (clause (p b ∷ [])))))).registered 2)
        ≡ Some (clause (p (f a) ∷ [])) }
    ensures removal_next { option_map (λ (c : Registered). c.clause)
        (slice_get (replay (growing 100) (growing_with (removal 0 (1 ∷ []) (kept (line_of (para_at_roots 0 1 [] []) (clause (p b ∷ [])) ∷ []) (clause (p b ∷ [])))))).registered 3)
        ≡ Some (clause (p b ∷ [])) }
    ensures counted_after { (replay (growing 100) (growing_with (removal 0 (1 ∷ []) (kept (line_of (para_at_roots 0 1 [] []) (clause (p b ∷ [])) ∷ []) (clause (p b ∷ [])))))).counted
        ≡ at_roots 0 1 ∷ key.Replaced 0 ∷ [] }
    ensures none_dies { (replay (growing 1) (growing_with (removal 0 (1 ∷ []) (Dropped Tautology)))).deaths ≡ [] }
{}
