// Histories with clauses that are split.

ghost use Rattle.std.specs.Prelude.{◌≡◌, [], ◌∷◌, ◌++◌, Some, None, true, false, length, take, map, slice_get, IsTrue, IsFalse};
ghost use Rattle.plain_types.specs.Names.{positive_of, negative_of};
ghost use Rattle.fol_base.specs.Examples.{x, a, f, p, q, r, equation, clause};
ghost use Rattle.kernel_steps.specs.Examples.{not_p, not_q, p₀};
ghost use Rattle.kernel_steps.specs.Derivation.{complement, under_names};
ghost use Rattle.kernel_steps.specs.declared.step.Step.TheVariants as step;
ghost use Rattle.pool_history.specs.Claiming.{ready};
ghost use Rattle.kernel_steps.specs.FromTrees.{line_of};
ghost use Rattle.pool_history.specs.Outcomes.{outcome_of};
ghost use Rattle.pool_history.specs.Record.{GivenJob, Registered, is_awake, is_awake_under, jobs_out, propositional_clauses};
ghost use Rattle.pool_history.specs.Reduction.{handed_back};
ghost use Rattle.pool_history.specs.Replay.{start, replay};
ghost use Rattle.pool_history.specs.Tags.{name_count};
ghost use Rattle.pool_history.specs.Solving.{must_solve};
ghost use Rattle.laws_pool_examples.specs.Examples.{connected, cut_apart, split, first_denied, both_denied, split_history, late_model, parted, parted_history, sharing, four_units, falling_by, part_again, refused_split, split_again, signed, signed_history, denial_first};
ghost use Rattle.laws_pool_examples.specs.CarriedExamples.{all_true, first_true};
ghost use Rattle.pool_history.specs.declared.outcome.Outcome.TheVariants.{Refuted, Saturated};
ghost use Rattle.pool_history.specs.declared.event.Event.TheVariants as event;
ghost use Rattle.pool_history.specs.Saturated.{members_of};

/// `p(X0) | q(X1)` falls into two parts, of which one is asserted and the other sleeps. Where the first is denied, the next model asserts
/// the second, which wakes.
pub fn denied_parts()
    ensures parts { (start split).parts ≡ (p (x 0) ∷ []) ∷ (q (x 0) ∷ []) ∷ [] }
    ensures tagged { slice_get (start split).registered 1
        ≡ Some (record { clause = under_names (q (x 0) ∷ []) (negative_of 1 ∷ []); line = 2 }) }
    ensures split_line { slice_get (start split).lines 3
        ≡ Some (line_of (step.Split 0 (1 ∷ 2 ∷ []) ((0 ∷ []) ∷ (1 ∷ []) ∷ [])) (under_names [] (positive_of 0 ∷ positive_of 1 ∷ []))) }
    ensures propositional { propositional_clauses (start split) ≡ (positive_of 0 ∷ positive_of 1 ∷ []) ∷ [] }
    ensures solve_first { IsTrue (must_solve (start split)) }
    ensures asserted { ready (replay split (take 2 first_denied)) ≡ 0 ∷ 2 ∷ 3 ∷ [] }
    ensures denied { propositional_clauses (replay split first_denied)
        ≡ (positive_of 0 ∷ positive_of 1 ∷ []) ∷ (negative_of 0 ∷ []) ∷ [] }
    ensures solve_again { IsTrue (must_solve (replay split first_denied)) }
    ensures late_clauses { length (replay split late_model).propositional ≡ 2 }
    ensures late_model { (replay split late_model).modelled ≡ 1 }
    ensures solve_later { IsTrue (must_solve (replay split late_model)) }
    ensures not_registered { length (replay split first_denied).registered ≡ 4 }
    ensures put_off { IsFalse (is_awake (replay split both_denied) 0) }
    ensures sleeps { IsFalse (is_awake (replay split first_denied) 1) }
    ensures wakes { IsTrue (is_awake (replay split both_denied) 1) }
    ensures given_then { ready (replay split (take 8 both_denied)) ≡ 1 ∷ 3 ∷ [] }
    ensures told_asleep { (replay split (take 9 both_denied)).given
        ≡ record { job = 5; number = 1; told = 0 ∷ 2 ∷ 1 ∷ []; as_of = 9; left = 99 } ∷ [] }
    ensures refuted { outcome_of (replay split split_history) ≡ Some Refuted }
{}

/// A part that sleeps is no member.
pub fn sleeping_part()
    ensures saturated { outcome_of (replay parted parted_history) ≡ Some Saturated }
    ensures members { members_of (replay parted parted_history) ≡ under_names (p (x 0) ∷ []) (negative_of 0 ∷ []) ∷ [] }
    ensures solver_out { outcome_of (replay parted (event.ClaimSolve 1 ∷ [])) ≡ None }
    ensures one_out { jobs_out (replay parted (event.ClaimSolve 1 ∷ [])) ≡ 1 }
{}

/// A part that two clauses share has one tag and is registered once.
pub fn shared_part()
    ensures parts { (start sharing).parts ≡ (p (x 0) ∷ []) ∷ (q (x 0) ∷ []) ∷ (not_q (x 0) ∷ []) ∷ [] }
    ensures once { map (λ (c : Registered). c.clause) (start sharing).registered ≡ under_names (p (x 0) ∷ []) (negative_of 0 ∷ [])
        ∷ under_names (q (x 0) ∷ []) (negative_of 1 ∷ []) ∷ under_names (not_q (x 0) ∷ []) (negative_of 2 ∷ []) ∷ [] }
    ensures clauses { propositional_clauses (start sharing)
        ≡ (positive_of 0 ∷ positive_of 1 ∷ []) ∷ (positive_of 0 ∷ positive_of 2 ∷ []) ∷ [] }
{}

/// Tags are given in the order in which results come. A removal that has no effect, since its justifier died before, brings none.
pub fn tags_in_order()
    ensures all { (replay four_units (falling_by 1)).parts
        ≡ (p (x 0) ∷ []) ∷ (q (x 0) ∷ []) ∷ (r ∷ []) ∷ (not_p (x 0) ∷ []) ∷ [] }
    ensures one_left_out { (replay four_units (falling_by 0)).parts ≡ (r ∷ []) ∷ (not_p (x 0) ∷ []) ∷ [] }
{}

/// A clause that has parts is handed back as its parts, without names. One that has none, or that isn't to be split, is handed back whole.
pub fn handed_back_examples()
    ensures parts { handed_back true (under_names (p (x 0) ∷ q (x 1) ∷ []) (negative_of 0 ∷ []))
        ≡ clause (p (x 0) ∷ []) ∷ clause (q (x 0) ∷ []) ∷ [] }
    ensures one_part { handed_back true (clause (p (x 0) ∷ q (x 0) ∷ [])) ≡ clause (p (x 0) ∷ q (x 0) ∷ []) ∷ [] }
    ensures whole { handed_back false (clause (p (x 0) ∷ q (x 1) ∷ [])) ≡ clause (p (x 0) ∷ q (x 1) ∷ []) ∷ [] }
{}

/// A clause that is cut falls into parts where its result does.
pub fn cut_parts()
    ensures parts { (replay connected (cut_apart (clause (p (x 0) ∷ []) ∷ clause (equation (f (x 0)) a ∷ []) ∷ []))).parts
        ≡ (p (x 0) ∷ []) ∷ (equation (f (x 0)) a ∷ []) ∷ [] }
    ensures before { (replay connected (event.Claim 1 ∷ event.Claim 2 ∷ [])).parts ≡ [] }
{}

/// A part whose clause died is registered again, under its tag. A clause under an assertion falls into parts: the opposite of its tag's name
/// comes into the propositional clause, and the parts don't assert the tag.
pub fn part_registered_again()
    ensures parts { (replay parted part_again).parts ≡ (p (x 0) ∷ []) ∷ (q (x 0) ∷ []) ∷ (r ∷ []) ∷ [] }
    ensures registered { map (λ (c : Registered). c.clause) (replay parted part_again).registered
        ≡ under_names (p (x 0) ∷ []) (negative_of 0 ∷ []) ∷ under_names (q (x 0) ∷ []) (negative_of 1 ∷ [])
        ∷ under_names (p (x 0) ∷ []) (negative_of 0 ∷ []) ∷ under_names (r ∷ []) (negative_of 2 ∷ []) ∷ [] }
    ensures clauses { propositional_clauses (replay parted part_again)
        ≡ (positive_of 0 ∷ positive_of 1 ∷ []) ∷ (positive_of 0 ∷ negative_of 1 ∷ positive_of 2 ∷ []) ∷ [] }
{}

/// A clause with two tags is awake where the names of both are true.
pub fn two_tags()
    ensures one_true { IsFalse (is_awake_under first_true (start parted).parts (under_names (r ∷ []) (negative_of 0 ∷ negative_of 1 ∷ []))) }
    ensures both_true { IsTrue (is_awake_under all_true (start parted).parts (under_names (r ∷ []) (negative_of 0 ∷ negative_of 1 ∷ []))) }
{}

/// A batch that is refused isn't in the history, so it brings no parts. The next batch for the same job does.
pub fn refused_parts()
    ensures none { (replay four_units refused_split).parts ≡ [] }
    ensures job_out { map (λ (j : GivenJob). j.job) (replay four_units refused_split).given ≡ 1 ∷ 3 ∷ [] }
    ensures again { (replay four_units split_again).parts ≡ (p (x 0) ∷ []) ∷ (q (x 0) ∷ []) ∷ [] }
{}

/// The four clauses of two atoms and their complements need two names. Their refutation ends the pool without a given claim.
pub fn shared_names()
    ensures names { name_count (start signed).parts ≡ 2 }
    ensures clauses { propositional_clauses (start signed)
        ≡ (positive_of 0 ∷ positive_of 1 ∷ []) ∷ (negative_of 0 ∷ positive_of 1 ∷ [])
        ∷ (positive_of 0 ∷ negative_of 1 ∷ []) ∷ (negative_of 0 ∷ negative_of 1 ∷ []) ∷ [] }
    ensures two_names { (replay signed (event.ClaimSolve 1 ∷ [])).solver ≡ Some (record { job = 1; clauses = 4; names = 2 }) }
    ensures opposite_line { slice_get (start signed).lines 5
        ≡ Some (line_of (step.Opposite 0) (under_names (complement p₀ ∷ []) (positive_of 0 ∷ []))) }
    ensures first_model { ready (start signed) ≡ 2 ∷ 3 ∷ [] }
    ensures refuted { outcome_of (replay signed signed_history) ≡ Some Refuted }
{}

/// Where a ground negative literal comes first, its atom gets the name all the same, and its own line is the opposite one.
pub fn negative_first()
    ensures component_line { slice_get (start denial_first).lines 1
        ≡ Some (line_of (step.Component 0) (under_names (p a ∷ []) (negative_of 0 ∷ []))) }
    ensures opposite_line { slice_get (start denial_first).lines 2
        ≡ Some (line_of (step.Opposite 0) (under_names (not_p a ∷ []) (positive_of 0 ∷ []))) }
    ensures clauses { propositional_clauses (start denial_first) ≡ (negative_of 0 ∷ positive_of 1 ∷ []) ∷ [] }
{}
