// The history of a unit that is rewritten by another.

ghost use Rattle.std.specs.Prelude.{◌≡◌, [], ◌∷◌, ◌++◌, Some, None, true, false, length, take, slice_get};
ghost use Rattle.fol_base.specs.Examples.{a, b, c, f, p, equation, clause};
ghost use Rattle.kernel_steps.specs.declared.key.Key.TheVariants as key;
ghost use Rattle.pool_history.specs.Claiming.{ready};
ghost use Rattle.kernel_steps.specs.FromTrees.{line_of};
ghost use Rattle.pool_history.specs.Outcomes.{outcome_of};
ghost use Rattle.pool_history.specs.Record.{told_now, lives, has_living};
ghost use Rattle.pool_history.specs.News.{news_since, activated, died};
ghost use Rattle.pool_history.specs.Replay.{start, replay};
ghost use Rattle.pool_history.specs.Saturated.{members_of};
ghost use Rattle.laws_pool_examples.specs.Examples.{pool_of, rewrites, rewrites_history, comes_again, thrice, thrice_history, return, para_at_roots};
ghost use Rattle.pool_history.specs.declared.batch.Work.TheVariants as work;
ghost use Rattle.pool_history.specs.declared.event.Event.TheVariants as event;
ghost use Rattle.pool_history.specs.declared.outcome.Outcome.TheVariants.{Saturated};

/// Of `f(a) = b` and `f(a) = c` the second is rewritten to `b = c`: it dies, which counts as one entry, and the result is registered. Both
/// jobs are out then. Once the first has returned and `b = c` has met the other, the two are the members.
/// A result that is there, and an input that is there, aren't registered again; one that is equal to a clause that died is.
pub fn rewritten_unit()
    ensures dead { (replay rewrites rewrites_history).deaths ≡ record { victim = 1; event = 2; justifiers = 0 ∷ [] } ∷ [] }
    ensures counted { (replay rewrites rewrites_history).counted ≡ key.Replaced 1 ∷ [] }
    ensures result { slice_get (replay rewrites rewrites_history).registered 2
        ≡ Some (record { clause = clause (equation b c ∷ []); line = 2 }) }
    ensures line { slice_get (replay rewrites rewrites_history).lines 2
        ≡ Some (line_of (para_at_roots 0 1 [] []) (clause (equation b c ∷ []))) }
    ensures told { told_now (replay rewrites rewrites_history) ≡ 0 ∷ [] }
    ensures ready { ready (replay rewrites rewrites_history) ≡ 2 ∷ [] }
    ensures registered_once { (replay thrice thrice_history).counted ≡ key.Replaced 1 ∷ [] }
    ensures three_clauses { length (replay thrice thrice_history).registered ≡ 3 }
    ensures inputs_once { length (start (pool_of (clause (p a ∷ []) ∷ clause (p a ∷ []) ∷ []))).registered ≡ 1 }
    ensures again { has_living (replay rewrites rewrites_history) (clause (equation b c ∷ [])) ≡ true }
    ensures died { has_living (replay rewrites rewrites_history) (clause (equation (f a) c ∷ [])) ≡ false }
    ensures comes_again { length (replay rewrites comes_again).registered ≡ 4 }
    ensures no_outcome { outcome_of (replay rewrites rewrites_history) ≡ None }
    ensures news { news_since rewrites rewrites_history 1 ≡ activated 1 (clause (equation (f a) c ∷ [])) ∷ died 1 ∷ [] }
    ensures saturated { outcome_of (replay rewrites (rewrites_history ++ event.Claim 3 ∷ return 3 (work.Met [] []) ∷ []))
        ≡ Some Saturated }
    ensures members { members_of (replay rewrites (rewrites_history ++ event.Claim 3 ∷ return 3 (work.Met [] []) ∷ []))
        ≡ clause (equation (f a) b ∷ []) ∷ clause (equation b c ∷ []) ∷ [] }
{}
