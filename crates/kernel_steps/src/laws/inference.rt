// Worked examples of the calculus. The symbols are those of the base's examples.

ghost use Rattle.std.specs.Prelude.{◌≡◌, [], ◌∷◌, IsTrue, IsFalse};
ghost use Rattle.plain_types.specs.Names.{positive_of, negative_of};
ghost use Rattle.fol_base.specs.Tree.{true_tree};
ghost use Rattle.fol_base.specs.Selection.{select_nothing, select_negative};
ghost use Rattle.fol_base.specs.Clause.{TreeClause};
ghost use Rattle.fol_base.specs.Examples.{x, a, b, c, f, p, q, r, equation, clause, is_predicate};
ghost use Rattle.fol_base.specs.Rules.{disequation};
ghost use Rattle.fol_base.specs.declared.clause.Side.TheVariants.{Left, Right};
ghost use Rattle.kernel_steps.specs.Derivation.{under_names};
ghost use Rattle.kernel_steps.specs.Examples.{not_p, not_true};
ghost use Rattle.kernel_steps.specs.Inference.{have_heads_of_one_kind, NamedSuperposition, NamedResolution, NamedFactoring, MergesEqual, RewritesBy, CutsBy, Reduces, is_tautology, IsIrreducible};

/// Superposition by most general unifiers, and where it gives nothing.
pub fn superposition_examples()
    ensures superposition { NamedSuperposition is_predicate select_negative (clause (p a ∷ [])) 0 Left (clause (not_p (x 0) ∷ q (x 0) ∷ [])) 0 Left [] (clause (not_true ∷ q a ∷ [])) }
    ensures names_of_both { NamedSuperposition is_predicate select_negative
        (under_names (equation (f a) b ∷ []) (positive_of 1 ∷ [])) 0 Left
        (under_names (p (f (x 0)) ∷ []) (negative_of 0 ∷ [])) 0 Left (0 ∷ [])
        (under_names (p b ∷ []) (negative_of 0 ∷ positive_of 1 ∷ [])) }
    ensures equal_other_sides { (d : TreeClause) → NamedSuperposition is_predicate select_negative (clause (equation b a ∷ [])) 0 Left (clause (equation b a ∷ [])) 0 Left [] d → ⊥ }
    ensures smaller_side { (d : TreeClause) → NamedSuperposition is_predicate select_negative (clause (equation a b ∷ [])) 0 Left (clause (p a ∷ [])) 0 Left (0 ∷ []) d → ⊥ }
    ensures place_of_variable { (d : TreeClause) → NamedSuperposition is_predicate select_negative (clause (equation b a ∷ [])) 0 Left (clause (p (x 0) ∷ [])) 0 Left (0 ∷ []) d → ⊥ }
    ensures another_chosen { (d : TreeClause) → NamedSuperposition is_predicate select_negative (clause (equation (f a) b ∷ disequation b a ∷ [])) 0 Left (clause (p (f a) ∷ [])) 0 Left (0 ∷ []) d → ⊥ }
    ensures from_twice { (d : TreeClause) → NamedSuperposition is_predicate select_negative (clause (equation b a ∷ equation b a ∷ [])) 0 Left (clause (p b ∷ [])) 0 Left (0 ∷ []) d → ⊥ }
    ensures into_twice { (d : TreeClause) → NamedSuperposition is_predicate select_negative (clause (equation b a ∷ [])) 0 Left (clause (p b ∷ p b ∷ [])) 0 Left (0 ∷ []) d → ⊥ }
{}

/// Equality resolution and factoring by most general unifiers.
pub fn inference_examples()
    ensures resolution { NamedResolution select_negative (clause (disequation (x 0) a ∷ p (x 0) ∷ [])) 0 (clause (p a ∷ [])) }
    ensures first_factored { NamedFactoring is_predicate select_nothing (clause (p (x 0) ∷ p a ∷ [])) 0 Left 1 Left (clause (not_true ∷ p a ∷ [])) }
    ensures second_factored { NamedFactoring is_predicate select_nothing (clause (p (x 0) ∷ p a ∷ [])) 1 Left 0 Left (clause (p a ∷ not_true ∷ [])) }
    ensures nothing_selected { (d : TreeClause) → NamedFactoring is_predicate select_negative (clause (p (x 0) ∷ p a ∷ not_p b ∷ [])) 0 Left 1 Left d → ⊥ }
{}

/// Terms of one kind.
pub fn kind_examples()
    ensures atoms { IsTrue (have_heads_of_one_kind is_predicate (p a).left (q b).left) }
    ensures terms { IsTrue (have_heads_of_one_kind is_predicate (x 0) (f a)) }
    ensures atom_and_term { IsFalse (have_heads_of_one_kind is_predicate (p a).left (f a)) }
    ensures truths { IsFalse (have_heads_of_one_kind is_predicate true_tree true_tree) }
{}

/// Reducing steps, and steps that aren't.
pub fn reduction_examples()
    ensures trivial_literal { Reduces is_predicate (λ d. ⊥) (clause (disequation a a ∷ r ∷ [])) (clause (r ∷ [])) }
    ensures merged_literals { Reduces is_predicate (λ d. ⊥) (clause (p a ∷ p a ∷ [])) (clause (p a ∷ [])) }
    ensures other_literals { (d : TreeClause) → MergesEqual (clause (p a ∷ q a ∷ [])) d → ⊥ }
    ensures rewritten { Reduces is_predicate (λ d. d ≡ clause (equation a b ∷ [])) (clause (disequation (f b) c ∷ [])) (clause (disequation (f a) c ∷ [])) }
    ensures rewritten_root { Reduces is_predicate (λ d. d ≡ clause (equation a b ∷ [])) (clause (equation b c ∷ [])) (clause (equation a c ∷ [])) }
    ensures no_greater_term { (d : TreeClause) → RewritesBy is_predicate (clause (equation a b ∷ [])) (clause (disequation (f a) c ∷ [])) d → ⊥ }
    ensures smaller_other_side { (d : TreeClause) → RewritesBy is_predicate (clause (equation c b ∷ [])) (clause (equation c a ∷ [])) d → ⊥ }
    ensures other_variables { (d : TreeClause) → RewritesBy is_predicate (clause (equation (f (x 0)) (x 1) ∷ [])) (clause (p (f a) ∷ [])) d → ⊥ }
    ensures other_assertions { (d : TreeClause) → RewritesBy is_predicate (under_names (equation a b ∷ []) (negative_of 0 ∷ [])) (clause (p b ∷ [])) d → ⊥ }
    ensures cut { Reduces is_predicate (λ d. d ≡ clause (not_p (x 0) ∷ [])) (clause (p a ∷ r ∷ [])) (clause (r ∷ [])) }
    ensures same_sign { (d : TreeClause) → CutsBy is_predicate (clause (p (x 0) ∷ [])) (clause (p a ∷ r ∷ [])) d → ⊥ }
{}

/// Tautologies and irreducible clauses.
pub fn irreducible_examples()
    ensures tautology { IsTrue (is_tautology (clause (equation a b ∷ r ∷ disequation b a ∷ []))) }
    ensures no_tautology { IsFalse (is_tautology (clause (equation a b ∷ disequation b c ∷ []))) }
    ensures irreducible { IsIrreducible is_predicate (λ d. ⊥) (clause (r ∷ [])) }
    ensures subsumed { IsIrreducible is_predicate (λ d. d ≡ clause (p (x 0) ∷ [])) (clause (p a ∷ r ∷ [])) → ⊥ }
{}
