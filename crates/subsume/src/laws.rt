// Laws and worked examples of the definitions: the contracts of functions without arguments and with empty bodies.

ghost use Rattle.std.specs.Prelude.{◌≡◌, true, false, [], ◌∷◌};
ghost use Rattle.fol_base.specs.Examples.{x, a, p, q, equation};
ghost use Rattle.subsume.specs.Examples.{counted};
ghost use Rattle.subsume.specs.Features.{NoFeatureGreater, NoMeasureGreater, clause_features, measured, literal_measure, slot};
ghost use Rattle.subsume.specs.Kinds.{are_alike};
ghost use Rattle.subsume.specs.Placing.{is_free};

/// Where a clause subsumes another, none of its features is greater, nor any of the measures by which an index tells clauses apart.
pub fn no_feature_greater()
    ensures features { NoFeatureGreater }
    ensures measures { NoMeasureGreater }
{}

/// Features of `p(f(a)) | q(b) | a != b`: its literals and symbols by sign, as everybody may know them and as an index keeps them.
pub fn feature_examples()
    ensures features { clause_features counted ≡ 2 ∷ 1 ∷ 7 ∷ 2 ∷ [] }
    ensures literals { measured true (literal_measure 0) counted ≡ 2 }
    ensures symbols { measured false (literal_measure 1) counted ≡ 2 }
    ensures positive_place { slot true 3 ≡ 6 }
    ensures negative_place { slot false 3 ≡ 7 }
{}

/// Literals that are alike, and literals that no literal was mapped to yet.
pub fn search_examples()
    ensures atoms { are_alike (p (x 0)) (q a) ≡ true }
    ensures equation_and_atom { are_alike (equation (x 0) (x 1)) (p a) ≡ false }
    ensures free { is_free (true ∷ false ∷ []) 1 ≡ true }
    ensures taken { is_free (true ∷ false ∷ []) 0 ≡ false }
    ensures past_the_end { is_free (true ∷ false ∷ []) 2 ≡ false }
{}
