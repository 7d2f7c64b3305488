// The laws of the translation, and worked examples: each is the contract of a function without arguments and with an empty body.

ghost use Rattle.std.specs.Prelude.{◌≡◌, [], ◌∷◌};
ghost use Rattle.finite_models.specs.Digits.{digits, digits_number};
ghost use Rattle.finite_models.specs.Model.{IsModel};
ghost use Rattle.finite_models.specs.Measure.{form_measure};
ghost use Rattle.finite_models.specs.Flattening.{flat_clause};
ghost use Rattle.finite_models.specs.Agreement.{FlatClausesTellTruth, TablesHaveTheEntries, InterpretationsHaveValuations};
ghost use Rattle.finite_models.specs.Examples.{two_differ, ends_differ, f_is_a, f_is_a_flat, p_of_f, p_of_f_flat};

/// Clauses and their flat clauses, tables and valuations say the same.
pub fn translation_laws()
    ensures clauses { FlatClausesTellTruth }
    ensures tables { TablesHaveTheEntries }
    ensures valuations { InterpretationsHaveValuations }
{}

/// `a != b` has a model with two values, and none with one.
pub fn model_examples()
    ensures two { IsModel two_differ (ends_differ 2 1) }
    ensures three { IsModel two_differ (ends_differ 3 2) }
    ensures one { IsModel two_differ (ends_differ 1 0) → ⊥ }
    ensures no_value_of_it { IsModel two_differ (ends_differ 2 2) → ⊥ }
    ensures measure { form_measure two_differ 1 ≡ 6 }
    ensures measure_of_two { form_measure two_differ 2 ≡ 24 }
{}

/// Numbers as lists of values, and two flat clauses.
pub fn flattening_examples()
    ensures digits { digits 3 2 7 ≡ 2 ∷ 1 ∷ [] }
    ensures number { digits_number 3 (2 ∷ 1 ∷ []) ≡ 7 }
    ensures no_digits { digits 3 0 0 ≡ [] }
    ensures equation { flat_clause f_is_a ≡ f_is_a_flat }
    ensures atom { flat_clause p_of_f ≡ p_of_f_flat }
{}
