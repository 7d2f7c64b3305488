// Returns that aren't right.

ghost use Rattle.std.specs.Prelude.{◌≡◌, [], ◌∷◌, ◌++◌, take};
ghost use Rattle.fol_base.specs.Examples.{x, a, f, p, q, equation, clause, is_predicate};
ghost use Rattle.kernel_steps.specs.Examples.{opposites};
ghost use Rattle.kernel_steps.specs.declared.key.Key.TheVariants as key;
ghost use Rattle.pool_history.specs.Lawful.{IsLawful};
ghost use Rattle.laws_pool_examples.specs.Examples.{pool_of, three, rewrites, rewrites_history, rewritten_to_itself, left_uncut, cut_halfway, subsuming, left_subsumed, growing, growing_history, half_step, towering, towering_goes, connected, cut_apart, parting, parting_resolved, unequal, partners, entry, at_roots, return, removal};
ghost use Rattle.pool_history.specs.declared.batch.Fate.TheVariants.{Dropped, Heavy};
ghost use Rattle.pool_history.specs.declared.batch.Redundancy.TheVariants.{Tautology, Subsumed};
ghost use Rattle.pool_history.specs.declared.batch.Work.TheVariants as work;
ghost use Rattle.pool_history.specs.declared.event.Event.TheVariants as event;

/// A clause stays that a told unit cuts, or beside a told clause that it subsumes. A result can be reduced further: that of a clause that
/// goes, or of an inference. A small inference is set aside as heavy. One is dropped as a tautology, or as subsumed by a clause that wasn't
/// told. A victim is among its justifiers, or a clause that the removal doesn't rest on is. The result isn't the one that the lines lead to, or
/// it is handed back whole where its parts are due, be it that of a clause that goes or of an inference. An inference is of two other clauses. A removal is as subsumed by the victim itself, or is of
/// the given clause beside its meeting.
pub fn wrong_return_examples()
    ensures stays_uncut { IsLawful is_predicate (pool_of opposites) left_uncut → ⊥ }
    ensures left_there { IsLawful is_predicate subsuming left_subsumed → ⊥ }
    ensures gone_reducible { IsLawful is_predicate (pool_of opposites) cut_halfway → ⊥ }
    ensures kept_reducible { IsLawful is_predicate (growing 100) (take 3 growing_history ++ return 2 (work.Met (half_step ∷ []) []) ∷ []) → ⊥ }
    ensures small_heavy { IsLawful is_predicate unequal
        (event.Claim 1 ∷ return 1 (work.Met (entry (key.Refl 0 0) Heavy ∷ []) []) ∷ []) → ⊥ }
    ensures no_tautology { IsLawful is_predicate unequal
        (event.Claim 1 ∷ return 1 (work.Met (entry (key.Refl 0 0) (Dropped Tautology) ∷ []) []) ∷ []) → ⊥ }
    ensures subsumed_by_untold { IsLawful is_predicate partners
        (event.Claim 1 ∷ return 1 (work.Met (entry (at_roots 0 0) (Dropped (Subsumed 1)) ∷ []) []) ∷ []) → ⊥ }
    ensures justifies_itself { IsLawful is_predicate (pool_of (clause (p (x 0) ∷ []) ∷ clause (p a ∷ []) ∷ []))
        (event.Claim 1 ∷ event.Claim 2 ∷ return 2 (work.Gone (removal 1 (0 ∷ 1 ∷ []) (Dropped (Subsumed 0)))) ∷ []) → ⊥ }
    ensures superfluous_justifier { IsLawful is_predicate towering (towering_goes (0 ∷ 1 ∷ [])) → ⊥ }
    ensures other_result { IsLawful is_predicate rewrites (take 2 rewrites_history ++ return 2 (work.Gone rewritten_to_itself) ∷ []) → ⊥ }
    ensures whole_result { IsLawful is_predicate connected (cut_apart (clause (p (x 0) ∷ equation (f (x 1)) a ∷ []) ∷ [])) → ⊥ }
    ensures whole_entry { IsLawful is_predicate parting
        (event.Claim 1 ∷ return 1 (work.Met (parting_resolved (clause (p a ∷ q a ∷ []) ∷ []) ∷ []) []) ∷ []) → ⊥ }
    ensures others_met { IsLawful is_predicate three
        (event.Claim 1 ∷ return 1 (work.Met (entry (at_roots 0 1) (Dropped Tautology) ∷ []) []) ∷ []) → ⊥ }
    ensures subsumed_by_itself { IsLawful is_predicate subsuming
        (take 3 left_subsumed ++ return 2 (work.Met [] (removal 0 (1 ∷ []) (Dropped (Subsumed 0)) ∷ [])) ∷ []) → ⊥ }
    ensures removes_itself { IsLawful is_predicate three
        (event.Claim 1 ∷ return 1 (work.Met [] (removal 2 [] (Dropped Tautology) ∷ [])) ∷ []) → ⊥ }
{}
