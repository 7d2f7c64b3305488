// Worked examples: of the words that the laws use; why the places at and below variables are left out; why a root is rewritten only
// below the other side.

ghost use Rattle.std.specs.Prelude.{◌≡◌, ℕ, true, ◌==◌, List, [], ◌∷◌, None, Some, Contains, slice_get, IsTrue, IsFalse};
ghost use Rattle.std.specs.List.{list_any};
ghost use Rattle.fol_base.specs.Clause.{TreeClause};
ghost use Rattle.fol_base.specs.Ground.{literals_instance};
ghost use Rattle.fol_base.specs.Rules.{disequation, superposed};
ghost use Rattle.fol_base.specs.Selection.{select_nothing, select_negative, chosen, eligible_in_instance};
ghost use Rattle.fol_base.specs.GroundInference.{is_greater_side};
ghost use Rattle.fol_base.specs.Order.{clause_greater};
ghost use Rattle.fol_base.specs.Covered.{Covers};
ghost use Rattle.fol_base.specs.Entails.{Entails};
ghost use Rattle.fol_base.specs.Examples.{x, a, b, f, f₂, g, p, q, r, equation, clause, is_predicate, functions, all_b};
ghost use Rattle.fol_base.specs.declared.clause.Side.{Side};
ghost use Rattle.fol_base.specs.declared.clause.Side.TheVariants.{Left};
ghost use Rattle.kernel_steps.specs.Examples.{not_p};
ghost use Rattle.kernel_steps.specs.Inference.{NamedSuperposition, RewritesBy, CutsBy};
ghost use Rattle.laws_calculus.specs.Symbols.{HasSymbolsOf};
ghost use Rattle.laws_calculus.specs.Coverage.{CoversInstancesOf, ReducesThrough, end_of};
ghost use Rattle.laws_calculus.specs.Lifting.{has_equal_sides, IsMember, HasConclusionsOf};

/// Lists of function symbols that hold those of a clause: the list has a, b, and f with one argument.
pub fn symbol_examples()
    ensures held { HasSymbolsOf functions (clause (p (f (x 0)) ∷ equation a b ∷ [])) }
    ensures another_symbol { HasSymbolsOf functions (clause (p (g a) ∷ [])) → ⊥ }
    ensures another_later { HasSymbolsOf functions (clause (p a ∷ p (g a) ∷ [])) → ⊥ }
    ensures two_arguments { HasSymbolsOf functions (clause (p (f₂ a b) ∷ [])) → ⊥ }
{}

/// Reducing steps: by its left side `b = a` rewrites `f(b) != a`, and `p(X0)` cuts `~p(a)`. One after another: `a = b` leads
/// `f(b) != f(a) | r` to `f(a) != f(a) | r`, which is reduced to `r`.
pub fn steps_examples()
    ensures by_left_side { RewritesBy is_predicate (clause (equation b a ∷ [])) (clause (disequation (f b) a ∷ [])) (clause (disequation (f a) a ∷ [])) }
    ensures negative_cut { CutsBy is_predicate (clause (p (x 0) ∷ [])) (clause (not_p a ∷ r ∷ [])) (clause (r ∷ [])) }
    ensures two_steps { ReducesThrough is_predicate (Contains (clause (equation a b ∷ []) ∷ [])) (clause (disequation (f b) (f a) ∷ r ∷ []))
        (clause (disequation (f a) (f a) ∷ r ∷ []) ∷ clause (r ∷ []) ∷ []) }
    ensures end { end_of (clause (disequation (f b) (f a) ∷ r ∷ [])) (clause (disequation (f a) (f a) ∷ r ∷ []) ∷ clause (r ∷ []) ∷ []) ≡ clause (r ∷ []) }
    ensures no_step { end_of (clause (r ∷ [])) [] ≡ clause (r ∷ []) }
{}

/// A literal `t = t`; members; and clauses that have, or don't have, one conclusion of each inference that is named among members, or
/// cover its instances.
pub fn closure_examples()
    ensures equal_sides { IsTrue (has_equal_sides (equation (f a) (f a))) }
    ensures other_sides { IsFalse (has_equal_sides (equation (f a) a)) }
    ensures negative { IsFalse (has_equal_sides (disequation a a)) }
    ensures member { IsMember (λ n. n == 0)
        (slice_get (clause (not_p (x 0) ∷ q (x 0) ∷ []) ∷ clause (p a ∷ []) ∷ [])) (clause (not_p (x 0) ∷ q (x 0) ∷ [])) }
    ensures not_a_member { IsMember (λ n. n == 0)
        (slice_get (clause (not_p (x 0) ∷ q (x 0) ∷ []) ∷ clause (p a ∷ []) ∷ [])) (clause (p a ∷ [])) → ⊥ }
    ensures nothing_named { HasConclusionsOf is_predicate select_nothing (λ n. true) (slice_get (clause (r ∷ []) ∷ [])) (Contains []) }
    ensures one_missing { HasConclusionsOf is_predicate select_negative (λ n. true)
        (slice_get (clause (not_p (x 0) ∷ q (x 0) ∷ []) ∷ clause (p a ∷ []) ∷ [])) (Contains []) → ⊥ }
    ensures no_member { HasConclusionsOf is_predicate select_negative (λ n. n == 0)
        (slice_get (clause (not_p (x 0) ∷ q (x 0) ∷ []) ∷ clause (p a ∷ []) ∷ [])) (Contains []) }
    ensures one_listed { HasConclusionsOf is_predicate select_negative (λ n. true)
        (slice_get (clause (disequation (x 0) a ∷ p (x 1) ∷ []) ∷ [])) (Contains (clause (p (x 1) ∷ []) ∷ [])) }
    ensures one_covered { HasConclusionsOf is_predicate select_negative (λ n. true)
        (slice_get (clause (disequation (x 0) a ∷ p (x 1) ∷ []) ∷ [])) (CoversInstancesOf functions (clause (p (x 0) ∷ []) ∷ [])) }
{}

/// `b = a` can be superposed into the instance `p(b)` of `p(X0)`, at the place of the variable, and into the instance `p(f(b))`, below
/// it, and all else that a ground superposition asks holds in both. But no superposition of `b = a` into `p(X0)` is named, and the
/// conclusions have no literal `t = t`: so the ground inferences have to leave out the places at and below variables.
pub fn superposition_at_a_variable()
    ensures instance { literals_instance all_b (p (x 0) ∷ []) ≡ p b ∷ [] }
    ensures superposed_there { superposed (equation b a ∷ []) 0 Left (p b ∷ []) 0 Left (0 ∷ []) ≡ Some (p a ∷ []) }
    ensures from_greater { IsTrue (is_greater_side all_b Left (equation b a)) }
    ensures from_unchosen { chosen select_nothing (equation b a ∷ []) ≡ None }
    ensures from_eligible { IsTrue (eligible_in_instance select_nothing (equation b a ∷ []) all_b 0 true) }
    ensures into_greater { IsTrue (is_greater_side all_b Left (p (x 0))) }
    ensures into_unchosen { chosen select_nothing (p (x 0) ∷ []) ≡ None }
    ensures into_eligible { IsTrue (eligible_in_instance select_nothing (p (x 0) ∷ []) all_b 0 true) }
    ensures no_equal_sides { IsFalse (list_any has_equal_sides (p a ∷ [])) }
    ensures instance_below { literals_instance (λ v. f b) (p (x 0) ∷ []) ≡ p (f b) ∷ [] }
    ensures superposed_below { superposed (equation b a ∷ []) 0 Left (p (f b) ∷ []) 0 Left (0 ∷ 0 ∷ []) ≡ Some (p (f a) ∷ []) }
    ensures into_greater_below { IsTrue (is_greater_side (λ v. f b) Left (p (x 0))) }
    ensures into_eligible_below { IsTrue (eligible_in_instance select_nothing (p (x 0) ∷ []) (λ v. f b) 0 true) }
    ensures no_equal_sides_below { IsFalse (list_any has_equal_sides (p (f a) ∷ [])) }
    ensures none_named { (i : ℕ) (s : Side) (j : ℕ) (z : Side) (place : List ℕ) (d : TreeClause)
        → NamedSuperposition is_predicate select_nothing (clause (equation b a ∷ [])) i s (clause (p (x 0) ∷ [])) j z place d → ⊥ }
{}

/// The instances of `p(X1) | r` are covered by `p(X0)`.
pub fn covering_example()
    ensures { CoversInstancesOf functions (clause (p (x 0) ∷ []) ∷ []) (clause (p (x 1) ∷ r ∷ [])) }
{}

/// `f(a) = b` would rewrite `f(a) = a` at its root to `b = a`, which with it entails the clause. But the unit is greater than
/// `f(a) = a`, so the two don't cover it, nor its instances.
pub fn rewriting_at_a_root()
    ensures result { superposed (equation (f a) b ∷ []) 0 Left (equation (f a) a ∷ []) 0 Left [] ≡ Some (equation b a ∷ []) }
    ensures entailed { Entails is_predicate ((equation (f a) b ∷ []) ∷ (equation b a ∷ []) ∷ []) (equation (f a) a ∷ []) }
    ensures unit_greater { IsTrue (clause_greater (equation (f a) b ∷ []) (equation (f a) a ∷ [])) }
    ensures not_covered { Covers functions (clause (equation (f a) b ∷ []) ∷ clause (equation b a ∷ []) ∷ []) (equation (f a) a ∷ []) → ⊥ }
    ensures instances_not_covered { CoversInstancesOf functions (clause (equation (f a) b ∷ []) ∷ clause (equation b a ∷ []) ∷ [])
        (clause (equation (f a) a ∷ [])) → ⊥ }
{}
