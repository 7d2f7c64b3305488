// Lawful histories, and events that aren't allowed.

ghost use Rattle.std.specs.Prelude.{◌≡◌, [], ◌∷◌, ◌++◌, true, false, take};
ghost use Rattle.fol_base.specs.Examples.{x, a, p, q, equation, clause, is_predicate};
ghost use Rattle.pool_history.specs.Lawful.{IsLawful};
ghost use Rattle.pool_history.specs.Replay.{replay};
ghost use Rattle.pool_history.specs.Saturated.{members_of};
ghost use Rattle.laws_pool_examples.specs.Examples.{pool_of, alone, alone_history, three, rewrites, rewrites_history, split, both_denied, parting, parting_resolved, justified, removing, unequal, unequal_resolved, partners, cut, growing, one_step, subsuming, subsumed_removed, dropping, tautology_dropped, parted, parted_history, signed, signed_log, signed_history, return, removal};
ghost use Rattle.kernel_steps.specs.Examples.{opposites};
ghost use Rattle.pool_history.specs.declared.batch.Fate.TheVariants.{Dropped};
ghost use Rattle.pool_history.specs.declared.batch.Redundancy.TheVariants.{Tautology, Subsumed};
ghost use Rattle.pool_history.specs.declared.batch.Work.TheVariants as work;
ghost use Rattle.pool_history.specs.declared.event.Event.TheVariants as event;

/// A clause goes: it is a tautology, or another subsumes, rewrites or cuts it. A clause stays: it is alone, or it meets itself with an entry
/// for that, or it removes a clause that it subsumes. Its inference is kept with a reduced result, after which no more may be counted, or is
/// dropped. A job is given up. A clause is given while the solver is out. The solver returns a model, under which a part is given and stays,
/// or a refutation.
pub fn lawful_examples()
    ensures tautology { IsLawful is_predicate (pool_of (clause (equation a a ∷ []) ∷ []))
        (event.Claim 1 ∷ return 1 (work.Gone (removal 0 [] (Dropped Tautology))) ∷ []) }
    ensures no_members { members_of (replay (pool_of (clause (equation a a ∷ []) ∷ []))
        (event.Claim 1 ∷ return 1 (work.Gone (removal 0 [] (Dropped Tautology))) ∷ [])) ≡ [] }
    ensures subsumed { IsLawful is_predicate (pool_of (clause (p (x 0) ∷ []) ∷ clause (p a ∷ []) ∷ []))
        (event.Claim 1 ∷ event.Claim 2 ∷ return 2 (work.Gone (removal 1 (0 ∷ []) (Dropped (Subsumed 0)))) ∷ []) }
    ensures rewritten { IsLawful is_predicate rewrites (take 3 rewrites_history) }
    ensures cut_goes { IsLawful is_predicate (pool_of opposites) (event.Claim 1 ∷ event.Claim 2 ∷ return 2 (work.Gone cut) ∷ []) }
    ensures one_step { IsLawful is_predicate (growing 1) (event.Claim 1 ∷ event.Claim 2 ∷ return 2 (work.Met (one_step ∷ []) []) ∷ []) }
    ensures dropped { IsLawful is_predicate dropping (event.Claim 1 ∷ return 1 (work.Met (tautology_dropped ∷ []) []) ∷ []) }
    ensures removes { IsLawful is_predicate subsuming subsumed_removed }
    ensures solver_and_clause { IsLawful is_predicate split (event.ClaimSolve 1 ∷ event.Claim 2 ∷ []) }
    ensures stays { IsLawful is_predicate alone alone_history }
    ensures model { IsLawful is_predicate parted parted_history }
    ensures log { IsLawful is_predicate signed signed_history }
    ensures met { IsLawful is_predicate unequal (event.Claim 1 ∷ return 1 (work.Met (unequal_resolved ∷ []) []) ∷ []) }
    ensures given_up { IsLawful is_predicate three (event.Claim 1 ∷ event.Abandon 1 ∷ event.Claim 2 ∷ []) }
{}

/// With splitting on. An inference is kept in the parts of its result. A clause under an assertion meets one without, which it doesn't cut,
/// and the empty clause under its assertion comes; then the solver returns a second model. The solver's job is given up.
pub fn lawful_split_examples()
    ensures falls_apart { IsLawful is_predicate parting
        (event.Claim 1 ∷ return 1 (work.Met (parting_resolved (clause (p a ∷ []) ∷ clause (q a ∷ []) ∷ []) ∷ []) []) ∷ []) }
    ensures denied_part { IsLawful is_predicate split (take 8 both_denied) }
    ensures solver_given_up { IsLawful is_predicate split (event.ClaimSolve 1 ∷ event.Abandon 1 ∷ event.ClaimSolve 2 ∷ []) }
{}

/// A job has a number that was given before, be that job out, given up or the solver's. A clause is claimed while there is something to be
/// solved, or the solver while there is nothing. A job that isn't out returns, or is given up. A stale return has a living justifier, a void
/// one a living clause. A model makes a clause false or lacks a name, and a log doesn't end in the empty clause. A return lacks a justifier, or
/// the entry for an inference of the clause with itself or a partner, or has two entries for one.
pub fn unlawful_examples()
    ensures number_twice { IsLawful is_predicate three (event.Claim 1 ∷ event.Claim 1 ∷ []) → ⊥ }
    ensures number_of_solver { IsLawful is_predicate split (event.ClaimSolve 1 ∷ event.Claim 1 ∷ []) → ⊥ }
    ensures number_given_up { IsLawful is_predicate three (event.Claim 1 ∷ event.Abandon 1 ∷ event.Claim 1 ∷ []) → ⊥ }
    ensures justifier_lives { IsLawful is_predicate justified (take 3 removing ++ event.Stale 3 0 ∷ []) → ⊥ }
    ensures solver_first { IsLawful is_predicate split (event.Claim 1 ∷ []) → ⊥ }
    ensures nothing_to_solve { IsLawful is_predicate three (event.ClaimSolve 1 ∷ []) → ⊥ }
    ensures wrong_model { IsLawful is_predicate parted (event.ClaimSolve 1 ∷ event.ReturnModel 1 (false ∷ false ∷ []) ∷ []) → ⊥ }
    ensures short_model { IsLawful is_predicate parted (event.ClaimSolve 1 ∷ event.ReturnModel 1 (true ∷ []) ∷ []) → ⊥ }
    ensures wrong_log { IsLawful is_predicate signed (event.ClaimSolve 1 ∷ event.ReturnRefuted 1 (take 2 signed_log) ∷ []) → ⊥ }
    ensures not_out { IsLawful is_predicate three (return 1 (work.Met [] []) ∷ []) → ⊥ }
    ensures not_void { IsLawful is_predicate three (event.Claim 1 ∷ event.Void 1 ∷ []) → ⊥ }
    ensures never_given { IsLawful is_predicate three (event.Abandon 1 ∷ []) → ⊥ }
    ensures justifier_missing { IsLawful is_predicate (pool_of (clause (p (x 0) ∷ []) ∷ clause (p a ∷ []) ∷ []))
        (event.Claim 1 ∷ event.Claim 2 ∷ return 2 (work.Gone (removal 1 [] (Dropped (Subsumed 0)))) ∷ []) → ⊥ }
    ensures itself_left_out { IsLawful is_predicate unequal (event.Claim 1 ∷ return 1 (work.Met [] []) ∷ []) → ⊥ }
    ensures partner_left_out { IsLawful is_predicate partners (event.Claim 1 ∷ event.Claim 2 ∷ return 2 (work.Met [] []) ∷ []) → ⊥ }
    ensures met_twice { IsLawful is_predicate unequal
        (event.Claim 1 ∷ return 1 (work.Met (unequal_resolved ∷ unequal_resolved ∷ []) []) ∷ []) → ⊥ }
{}
