// Canonical forms: laws and worked examples.

ghost use Rattle.std.specs.Prelude.{◌≡◌, [], ◌∷◌};
ghost use Rattle.fol_base.specs.Canonical.{canonical_clause, canonical_renaming, terms_from, IsCanonical};
ghost use Rattle.fol_base.specs.CanonicalLaws.{CanonicalFormsAreCanonical, CanonicalFormsKeepSizes, CanonicalIsOwnForm};
ghost use Rattle.fol_base.specs.Examples.{x, a, p, q₂, equation, clause};

/// A clause is canonical exactly where it is its own canonical form; each canonical form is, and has the clause's size.
pub fn canonical_forms()
    ensures own_form { CanonicalIsOwnForm }
    ensures canonical { CanonicalFormsAreCanonical }
    ensures sizes { CanonicalFormsKeepSizes }
{}

/// Canonical clauses, and clauses whose variables are not numbered by first occurrence.
pub fn canonical_examples()
    ensures numbered { IsCanonical (clause (p (x 0) ∷ q₂ (x 1) (x 0) ∷ [])) }
    ensures no_variable { IsCanonical (clause (p a ∷ [])) }
    ensures gap { IsCanonical (clause (p (x 0) ∷ p (x 2) ∷ [])) → ⊥ }
    ensures second_before_first { IsCanonical (clause (q₂ (x 1) (x 0) ∷ [])) → ⊥ }
    ensures right_side_first { IsCanonical (clause (equation (x 1) (x 0) ∷ [])) → ⊥ }
    ensures left_side_first { canonical_clause (clause (equation (x 5) (x 2) ∷ [])) ≡ clause (equation (x 0) (x 1) ∷ []) }
    ensures renaming { terms_from 0 4 (canonical_renaming (clause (p (x 3) ∷ q₂ (x 1) (x 3) ∷ [])))
        ≡ x 0 ∷ x 1 ∷ x 2 ∷ x 0 ∷ [] }
{}
