// The conclusions of an inference, up to the numbers of their variables.

ghost use Rattle.std.specs.Prelude.{List, [], ◌∷◌};
ghost use Rattle.fol_base.specs.Examples.{x, a, p, q₂, clause};
ghost use Rattle.laws_calculus.specs.Variants.{
  AreVariants,
  CanonicalFormsAreVariants,
  ResolutionsHaveVariants,
  FactoringsHaveVariants,
  SuperpositionsHaveVariants,
  InferencesHaveVariants,
  ConclusionsAreVariants,
};

/// A variant of an inference's conclusion, a clause with its variables renamed so that it can be undone, is a conclusion of the same
/// inference, and all conclusions of an inference are variants of one another. The canonical form of a clause is one of its variants.
pub fn conclusions_have_variants()
    ensures canonical { CanonicalFormsAreVariants }
    ensures of_resolution { ResolutionsHaveVariants }
    ensures of_factoring { FactoringsHaveVariants }
    ensures of_superposition { SuperpositionsHaveVariants }
    ensures of_each_name { InferencesHaveVariants }
    ensures no_others { ConclusionsAreVariants }
{}

/// `q(X0,X1)` and `q(X3,X2)` are variants. `p(X0)` and `p(a)` aren't, nor are `q(X0,X1)` and `q(X0,X0)`.
pub fn variant_examples()
    ensures renamed { AreVariants (clause (q₂ (x 0) (x 1) ∷ [])) (clause (q₂ (x 3) (x 2) ∷ [])) }
    ensures bound { AreVariants (clause (p (x 0) ∷ [])) (clause (p a ∷ [])) → ⊥ }
    ensures merged { AreVariants (clause (q₂ (x 0) (x 1) ∷ [])) (clause (q₂ (x 0) (x 0) ∷ [])) → ⊥ }
{}
