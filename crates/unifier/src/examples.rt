// Worked examples of the definitions: each is a clause of a function with an empty body.

ghost use Rattle.std.specs.Prelude.{◌≡◌, ◌/◌, [], ◌∷◌, true, false, None, Some, IsTrue, IsFalse};
ghost use Rattle.fol_base.specs.Clause.{literal_instance, literal_size};
ghost use Rattle.fol_base.specs.declared.clause.Side.TheVariants.{Left, Right};
ghost use Rattle.fol_base.specs.Examples.{x, a, b, f₂, p, equation, is_predicate, all_a};
ghost use Rattle.unifier.specs.SolvedForm.{code_of, substitution_of};
ghost use Rattle.unifier.specs.Bindings.{IsUnified, LeavesOthers, occurs};
ghost use Rattle.unifier.specs.Matching.{IsMatched, NoMatcher, are_below, with_further};
ghost use Rattle.unifier.specs.Renaming.{AreRenamed, fits, is_within, renamed};
ghost use Rattle.unifier.specs.Laws.{AreFunctionPairs, are_of_one_kind};
ghost use Rattle.unifier.specs.SharedLaws.{IsAfterBoth};
ghost use Rattle.unifier.specs.Additions.{IsSubtermOf, is_variable_of, stands};
ghost use Rattle.unifier.specs.Examples.{example};

/// Variables of two sides, and what is below their counts.
pub fn variable_examples()
    ensures left_code { code_of true Left 3 ≡ 6 }
    ensures right_code { code_of true Right 3 ≡ 7 }
    ensures code_of_both { code_of false Right 3 ≡ 3 }
    ensures left_is_within { IsTrue (is_within true 1 0 0) }
    ensures right_is_not { IsFalse (is_within true 1 0 1) }
    ensures within_one_count { IsTrue (is_within false 3 0 2) }
    ensures within_neither { IsFalse (is_within false 2 2 2) }
    ensures occurs_in { IsTrue (occurs 0 (f₂ (x 0) b)) }
    ensures does_not_occur { IsFalse (occurs 1 (f₂ (x 0) b)) }
    ensures renamed_to_halves { renamed (λ v. v / 2) (f₂ (x 0) (x 2)) ≡ f₂ (x 0) (x 1) }
{}

/// Matchers that have given pairs.
pub fn matcher_examples()
    ensures matched { IsMatched [] (f₂ (x 0) (x 0)) (f₂ a a) ((0, a) ∷ []) }
    ensures two_terms { NoMatcher [] (f₂ (x 0) (x 0)) (f₂ a b) }
    ensures other_pair { NoMatcher ((0, b) ∷ []) (x 0) a }
    ensures further_variables { with_further (0 ∷ 2 ∷ []) (2 ∷ 1 ∷ 1 ∷ []) ≡ 0 ∷ 2 ∷ 1 ∷ [] }
    ensures pairs_below { IsTrue (are_below 1 ((0, a) ∷ [])) }
    ensures pairs_not_below { IsFalse (are_below 1 ((0, a) ∷ (1, b) ∷ [])) }
{}

/// Sizes of instances, and kinds of terms.
pub fn size_examples()
    ensures instance_of_literal { literal_size (literal_instance all_a (equation (f₂ (x 0) b) b)) ≡ 4 }
    ensures function_terms { IsTrue (are_of_one_kind is_predicate (x 0) a) }
    ensures predicate_terms { IsTrue (are_of_one_kind is_predicate (p a).left (p b).left) }
    ensures predicate_and_truth { IsTrue (are_of_one_kind is_predicate (p a).left (p b).right) }
    ensures other_kinds { IsFalse (are_of_one_kind is_predicate (x 0) (p a).left) }
{}

/// The answer of a unification of `f(X0,b)` and `f(a,X0)` apart, and its two substitutions.
pub fn bindings_examples()
    ensures left { substitution_of example Left 0 ≡ a }
    ensures right { substitution_of example Right 0 ≡ b }
    ensures unified { IsUnified true (f₂ (x 0) b) (f₂ a (x 0)) (Some example) }
    ensures others { LeavesOthers true (f₂ (x 0) b) (f₂ a (x 0)) example }
    ensures counts { fits example 1 1 ≡ true }
    ensures no_count { fits example 0 1 ≡ false }
    ensures lists { AreRenamed example 1 1 (a ∷ []) (b ∷ []) }
{}

/// Pairs without a unifier, and substitutions after two lists; pairs of function terms.
pub fn law_examples()
    ensures contains_itself { IsUnified false (x 0) (f₂ (x 0) b) None }
    ensures clash { IsUnified true a b None }
    ensures after_both { IsAfterBoth (x 0 ∷ []) (f₂ (x 0) b ∷ []) all_a 1 1 all_a (λ v. f₂ a b) }
    ensures function_pair { AreFunctionPairs is_predicate ((0, f₂ a (x 1)) ∷ []) }
    ensures predicate_pair { AreFunctionPairs is_predicate ((0, (p a).left) ∷ []) → ⊥ }
{}

/// The symbols of a tree, which are 2 for b and 4 for f; the variables of two terms; and a subterm.
pub fn addition_examples()
    ensures stands_there { IsTrue (stands 2 0 (f₂ (x 0) b)) }
    ensures other_arguments { IsFalse (stands 4 1 (f₂ (x 0) b)) }
    ensures left_variable { IsTrue (is_variable_of true (f₂ (x 0) b) (f₂ a (x 1)) 0) }
    ensures right_variable { IsTrue (is_variable_of true (f₂ (x 0) b) (f₂ a (x 1)) 3) }
    ensures no_variable { IsFalse (is_variable_of true (f₂ (x 0) b) (f₂ a (x 1)) 1) }
    ensures subterm { IsSubtermOf b (f₂ (x 0) b) }
{}
