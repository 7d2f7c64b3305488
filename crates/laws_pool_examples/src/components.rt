// Worked examples of components and of the names of parts.

ghost use Rattle.std.specs.Prelude.{◌≡◌, true, false, [], ◌∷◌, IsTrue, IsFalse};
ghost use Rattle.plain_types.specs.Names.{positive_of, negative_of};
ghost use Rattle.fol_base.specs.Examples.{x, a, p, q, equation};
ghost use Rattle.kernel_steps.specs.Examples.{not_p, not_q};
ghost use Rattle.pool_history.specs.Components.{components_of, parts_of, is_to_split};
ghost use Rattle.pool_history.specs.Tags.{name_count, line_names};

/// Literals that share variables with one another, directly or through others.
pub fn component_examples()
    ensures shared { components_of (p (x 0) ∷ q (x 1) ∷ q (x 0) ∷ []) ≡ (0 ∷ 2 ∷ []) ∷ (1 ∷ []) ∷ [] }
    ensures chained { components_of (equation (x 0) (x 1) ∷ p (x 2) ∷ equation (x 1) (x 2) ∷ []) ≡ (0 ∷ 1 ∷ 2 ∷ []) ∷ [] }
    ensures ground { components_of (p a ∷ q (x 0) ∷ q a ∷ []) ≡ (0 ∷ []) ∷ (1 ∷ []) ∷ (2 ∷ []) ∷ [] }
    ensures none { components_of [] ≡ [] }
    ensures canonical { parts_of (p (x 1) ∷ q (x 3) ∷ q (x 1) ∷ []) ≡ (p (x 0) ∷ q (x 0) ∷ []) ∷ (q (x 0) ∷ []) ∷ [] }
    ensures two { IsTrue (is_to_split true (p (x 0) ∷ q (x 1) ∷ [])) }
    ensures one { IsFalse (is_to_split true (p (x 0) ∷ q (x 0) ∷ [])) }
    ensures off { IsFalse (is_to_split false (p (x 0) ∷ q (x 1) ∷ [])) }
{}

/// A line has the opposites of the signed names of a clause's tags; a ground negative part has the negative sign.
pub fn line_name_examples()
    ensures count { name_count ((not_p a ∷ []) ∷ (p a ∷ []) ∷ (not_q (x 0) ∷ []) ∷ []) ≡ 2 }
    ensures opposites { line_names ((not_p a ∷ []) ∷ (q (x 0) ∷ []) ∷ []) (negative_of 0 ∷ negative_of 1 ∷ [])
        ≡ positive_of 0 ∷ negative_of 1 ∷ [] }
{}
