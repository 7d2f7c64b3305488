// Named inferences of ground clauses, and what single conditions of inferences refuse.

ghost use Rattle.std.specs.Prelude.{List, [], ◌∷◌};
ghost use Rattle.plain_types.specs.Names.{positive_of, negative_of};
ghost use Rattle.fol_base.specs.Clause.{TreeClause};
ghost use Rattle.fol_base.specs.Rules.{disequation};
ghost use Rattle.fol_base.specs.Selection.{select_nothing, select_negative};
ghost use Rattle.fol_base.specs.GroundInference.{GroundSuperposition};
ghost use Rattle.fol_base.specs.Tree.{true_tree};
ghost use Rattle.fol_base.specs.Examples.{x, a, b, f, f₂, p, r, equation, clause, is_predicate, functions};
ghost use Rattle.fol_base.specs.declared.clause.Side.TheVariants.{Left, Right};
ghost use Rattle.kernel_steps.specs.Derivation.{under_names};
ghost use Rattle.kernel_steps.specs.Examples.{not_p, not_true};
ghost use Rattle.kernel_steps.specs.Inference.{NamedSuperposition, NamedResolution, NamedFactoring, CutsBy};
ghost use Rattle.laws_calculus.specs.OnGround.{
  ResolutionsOnGround,
  FactoringsOnGround,
  SuperpositionsOnGround,
};

/// The named inferences of ground clauses are ground inferences, with the same literals, sides and place.
pub fn named_on_ground()
    ensures resolutions { ResolutionsOnGround }
    ensures factorings { FactoringsOnGround }
    ensures superpositions { SuperpositionsOnGround }
{}

/// By its right side `a = b` is superposed into the negative literal of `f(b) != a`, and that is named too, as are a resolution of
/// `a != a` and a factoring of `b = a | b = a`. `f(f(X0)) = b`, where X0 is a, is superposed into itself, where X0 is f(a).
pub fn ground_inference_examples()
    ensures by_right_side { GroundSuperposition functions select_nothing (clause (equation a b ∷ [])) (clause (disequation (f b) a ∷ []))
        (disequation (f a) a ∷ []) }
    ensures named_by_right_side { NamedSuperposition is_predicate select_nothing (clause (equation a b ∷ [])) 0 Right
        (clause (disequation (f b) a ∷ [])) 0 Left (0 ∷ []) (clause (disequation (f a) a ∷ [])) }
    ensures named_resolution { NamedResolution select_nothing (clause (disequation a a ∷ [])) 0 (clause []) }
    ensures named_factoring { NamedFactoring is_predicate select_nothing (clause (equation b a ∷ equation b a ∷ [])) 0 Left 1 Left
        (clause (disequation a a ∷ equation b a ∷ [])) }
    ensures of_one_clause { GroundSuperposition functions select_nothing (clause (equation (f (f (x 0))) b ∷ [])) (clause (equation (f (f (x 0))) b ∷ []))
        (equation (f b) b ∷ []) }
{}

/// No superposition is named: of `b = a` into the smaller side of `f(a) = b`; into `b != a` beside `f(b) != a`, which is
/// greater; into `f(b) = a` beside a chosen `a != a`; of the variable of `X0 = b` into an atom; of `f(X0,X1) = f(X1,X0)` into
/// `p(f(a,b))`, since the unifier makes the other side greater; of `f(X0) = X0` into `f(a) = a` at the root, since it makes the other
/// sides equal. And none loses a name.
pub fn refused_superpositions()
    ensures smaller_side { (d : TreeClause)
        → NamedSuperposition is_predicate select_nothing (clause (equation b a ∷ [])) 0 Left (clause (equation (f a) b ∷ [])) 0 Right [] d → ⊥ }
    ensures not_maximal { (d : TreeClause)
        → NamedSuperposition is_predicate select_nothing (clause (equation b a ∷ [])) 0 Left
        (clause (disequation b a ∷ disequation (f b) a ∷ [])) 0 Left [] d → ⊥ }
    ensures not_chosen { (d : TreeClause)
        → NamedSuperposition is_predicate select_negative (clause (equation b a ∷ [])) 0 Left
        (clause (equation (f b) a ∷ disequation a a ∷ [])) 0 Left (0 ∷ []) d → ⊥ }
    ensures other_kind { (d : TreeClause)
        → NamedSuperposition is_predicate select_nothing (clause (equation (x 0) b ∷ [])) 0 Left (clause (p a ∷ [])) 0 Left [] d → ⊥ }
    ensures made_smaller { (d : TreeClause)
        → NamedSuperposition is_predicate select_nothing (clause (equation (f₂ (x 0) (x 1)) (f₂ (x 1) (x 0)) ∷ [])) 0 Left
        (clause (p (f₂ a b) ∷ [])) 0 Left (0 ∷ []) d → ⊥ }
    ensures made_equal { (d : TreeClause)
        → NamedSuperposition is_predicate select_nothing (clause (equation (f (x 0)) (x 0) ∷ [])) 0 Left (clause (equation (f a) a ∷ [])) 0 Left [] d → ⊥ }
    ensures lost_name { NamedSuperposition is_predicate select_nothing (under_names (equation b a ∷ []) (positive_of 1 ∷ [])) 0 Left
        (clause (equation (f b) a ∷ [])) 0 Left (0 ∷ []) (clause (equation (f a) a ∷ [])) → ⊥ }
{}

/// No resolution is named of the smaller `a != a` in `a != a | b != b`, nor of `X0 != a` in `X0 != a | b != b`, which the unifier makes
/// the same, nor of a literal that isn't chosen; and none loses a name.
pub fn refused_resolutions()
    ensures not_maximal { (d : TreeClause) → NamedResolution select_nothing (clause (disequation a a ∷ disequation b b ∷ [])) 0 d → ⊥ }
    ensures not_maximal_made { (d : TreeClause) → NamedResolution select_nothing (clause (disequation (x 0) a ∷ disequation b b ∷ [])) 0 d → ⊥ }
    ensures not_chosen { (d : TreeClause) → NamedResolution select_negative (clause (disequation a a ∷ disequation (f a) (f a) ∷ [])) 0 d → ⊥ }
    ensures lost_name { NamedResolution select_nothing (under_names (disequation a a ∷ []) (positive_of 1 ∷ [])) 0 (clause []) → ⊥ }
{}

/// No factoring is named: by the smaller side of `a = b`; by the side of `f(X0,X1) = f(X1,X0)` that unifying with f(a,b) makes smaller;
/// of `b = a` beside the greater `b = b`; of a variable with an atom; and none loses a name.
pub fn refused_factorings()
    ensures smaller_side { (d : TreeClause)
        → NamedFactoring is_predicate select_nothing (clause (equation a b ∷ equation a a ∷ [])) 0 Left 1 Left d → ⊥ }
    ensures made_smaller { (d : TreeClause)
        → NamedFactoring is_predicate select_nothing
        (clause (equation (f₂ (x 0) (x 1)) (f₂ (x 1) (x 0)) ∷ equation (f₂ a b) a ∷ [])) 0 Left 1 Left d → ⊥ }
    ensures not_maximal { (d : TreeClause)
        → NamedFactoring is_predicate select_nothing (clause (equation b a ∷ equation b b ∷ [])) 0 Left 1 Left d → ⊥ }
    ensures other_kind { (d : TreeClause)
        → NamedFactoring is_predicate select_nothing (clause (equation (x 0) b ∷ p a ∷ [])) 0 Left 1 Left d → ⊥ }
    ensures lost_name { NamedFactoring is_predicate select_nothing (under_names (equation b a ∷ equation b a ∷ []) (positive_of 1 ∷ [])) 0 Left 1 Left
        (clause (disequation a a ∷ equation b a ∷ [])) → ⊥ }
{}

/// A unit doesn't cut where its assertion isn't among the clause's, nor does `$true != $true` cut `$true = $true`.
pub fn refused_cuts()
    ensures not_asserted { CutsBy is_predicate (under_names (p a ∷ []) (negative_of 0 ∷ [])) (clause (not_p a ∷ r ∷ [])) (clause (r ∷ [])) → ⊥ }
    ensures of_truths { CutsBy is_predicate (clause (not_true ∷ [])) (clause (equation true_tree true_tree ∷ r ∷ [])) (clause (r ∷ [])) → ⊥ }
{}
