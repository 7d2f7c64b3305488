// Worked examples: the contracts of functions without arguments and with an empty body.

ghost use Rattle.std.specs.Prelude.{◌≡◌, [], ◌∷◌, false, true, IsFalse, IsTrue};
ghost use Rattle.fol_base.specs.Tree.{true_tree};
ghost use Rattle.fol_base.specs.Examples.{x, a, b, c, f, p, clause, equation};
ghost use Rattle.fol_base.specs.Rules.{disequation};
ghost use Rattle.fol_base.specs.declared.clause.Side.TheVariants.{Left, Right};
ghost use Rattle.unit_cutting.specs.Cutting.{before_last, fitting_side, last_index, may_fit, open_side, turned, unsolvable};
ghost use Rattle.unit_cutting.specs.Indexed.{HasOneLiteral, may_cover};
ghost use Rattle.unit_cutting.specs.Removing.{is_trivial, plain_without};

/// Literals that come into question for a cut, and not `$true = $true`; what stands before a literal goes, where the unit's literal is
/// positive and where it isn't.
pub fn cutting_examples()
    ensures no_solution { IsTrue (is_trivial (disequation a a)) }
    ensures solution { IsFalse (is_trivial (disequation a b)) }
    ensures left { plain_without (clause (disequation a a ∷ p (x 0) ∷ [])) 0 ≡ p (x 0) ∷ [] }
    ensures may_fit { IsTrue (may_fit (p (x 0)) (p a)) }
    ensures no_truths { IsFalse (may_fit (equation true_tree true_tree) (equation true_tree true_tree)) }
    ensures exchanged { turned true (equation a b) ≡ equation b a }
    ensures atom_side { open_side (p a) ≡ Left }
    ensures other_side { fitting_side true Left ≡ Right }
    ensures in_place { before_last false (disequation a b ∷ p c ∷ []) 0 b ≡ unsolvable b ∷ p c ∷ [] }
    ensures before { before_last true (p c ∷ equation a b ∷ []) 1 b ≡ unsolvable b ∷ p c ∷ [] }
    ensures first { last_index true 1 ≡ 0 }
    ensures same_place { last_index false 1 ≡ 1 }
{}

/// A clause with one literal and one with two; left sides that may have either side of a literal as an instance, or neither.
pub fn unit_examples()
    ensures one { HasOneLiteral (clause (p a ∷ [])) }
    ensures two { HasOneLiteral (clause (p a ∷ equation a b ∷ [])) → ⊥ }
    ensures same_side { IsTrue (may_cover (p (x 0)) (p a)) }
    ensures other_side { IsTrue (may_cover (equation (f (x 0)) (x 0)) (equation b (f b))) }
    ensures neither { IsFalse (may_cover (equation (f a) b) (equation (f b) a)) }
{}
