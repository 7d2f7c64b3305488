// Worked examples of the rules on lists of literals. The symbols are those of the other examples.

ghost use Rattle.std.specs.Prelude.{◌≡◌, [], ◌∷◌, Some, None, IsTrue, IsFalse};
ghost use Rattle.fol_base.specs.declared.clause.Side.TheVariants.{Left, Right};
ghost use Rattle.fol_base.specs.Sides.{side_of, other_side_of, with_side, exchanged};
ghost use Rattle.fol_base.specs.Rules.{superposed, resolved, factored, merged, disequation};
ghost use Rattle.fol_base.specs.Tree.{true_tree};
ghost use Rattle.fol_base.specs.Examples.{x, a, b, c, f, p, q, equation};

/// The sides of a literal.
pub fn side_examples()
    ensures side { side_of Left (equation a b) ≡ a }
    ensures other { other_side_of Left (equation a b) ≡ b }
    ensures replaced { with_side Right c (equation a b) ≡ equation a c }
    ensures exchanged { exchanged (disequation a b) ≡ disequation b a }
{}

/// Superposition, equality resolution, equality factoring and merging.
pub fn rule_examples()
    ensures rewritten { superposed (equation (f a) b ∷ q a ∷ []) 0 Left (p (f a) ∷ []) 0 Left (0 ∷ []) ≡ Some (p b ∷ q a ∷ []) }
    ensures atoms { superposed (p a ∷ []) 0 Left (disequation (p a).left true_tree ∷ []) 0 Left [] ≡ Some (disequation true_tree true_tree ∷ []) }
    ensures from_negative { superposed (disequation (f a) b ∷ []) 0 Left (p (f a) ∷ []) 0 Left (0 ∷ []) ≡ None }
    ensures other_term { superposed (equation (f a) b ∷ []) 0 Left (p (f b) ∷ []) 0 Left (0 ∷ []) ≡ None }
    ensures truth_chosen { superposed (p a ∷ []) 0 Right (q a ∷ []) 0 Right [] ≡ None }
    ensures no_such_literal { superposed (equation (f a) b ∷ []) 1 Left (p (f a) ∷ []) 0 Left (0 ∷ []) ≡ None }
    ensures dropped { resolved (p a ∷ disequation b b ∷ []) 1 ≡ Some (p a ∷ []) }
    ensures sides_differ { resolved (disequation a b ∷ []) 0 ≡ None }
    ensures positive_stays { resolved (equation a a ∷ []) 0 ≡ None }
    ensures first_goes { factored (equation a b ∷ equation a c ∷ []) 0 Left 1 Left ≡ Some (disequation b c ∷ equation a c ∷ []) }
    ensures second_goes { factored (equation a b ∷ equation a c ∷ []) 1 Left 0 Left ≡ Some (equation a b ∷ disequation c b ∷ []) }
    ensures one_literal { factored (equation a b ∷ []) 0 Left 0 Left ≡ None }
    ensures factored_atoms { factored (p a ∷ p a ∷ []) 0 Left 1 Left ≡ Some (disequation true_tree true_tree ∷ p a ∷ []) }
    ensures truths_not_factored { factored (p a ∷ q a ∷ []) 0 Right 1 Right ≡ None }
    ensures merged_other_way_round { merged (equation a b ∷ q a ∷ equation b a ∷ []) 0 2 ≡ Some (equation a b ∷ q a ∷ []) }
    ensures complements_stay { merged (equation a b ∷ disequation a b ∷ []) 0 1 ≡ None }
{}
