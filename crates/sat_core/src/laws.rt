// The laws of the answers: each is the contract of a function without arguments and with an empty body.

ghost use Rattle.std.specs.Prelude.{◌≡◌, true, false, [], ◌∷◌};
ghost use Rattle.plain_types.specs.Names.{positive_of, negative_of};
ghost use Rattle.sat_core.specs.Answer.{IsRightModel, IsRightLog, RightLogsRefute, AnswersExclude};
ghost use Rattle.sat_core.specs.Trimming.{is_trimmed};
ghost use Rattle.sat_core.specs.Examples.{unsatisfiable, one_of_two, link, chain, refutation, refutation_in_two};

/// A list of clauses with a right log is true under no values at all, so a right model and a right log
/// exclude each other (resolution is sound: Robinson 1965).
pub fn right_answers_exclude_each_other()
    ensures logs_refute { RightLogsRefute }
    ensures exclude { AnswersExclude }
{}

/// Worked examples of right and wrong answers.
pub fn answer_examples()
    ensures log { IsRightLog unsatisfiable refutation }
    ensures log_in_two_chains { IsRightLog unsatisfiable refutation_in_two }
    ensures pivot_with_other_sign { IsRightLog unsatisfiable (chain 0 (link (negative_of 0) 1 ∷ link (positive_of 1) 2 ∷ []) ∷ []) → ⊥ }
    ensures pivot_of_other_parent { IsRightLog unsatisfiable (chain 0 (link (positive_of 0) 2 ∷ link (positive_of 1) 1 ∷ []) ∷ []) → ⊥ }
    ensures pivot_already_gone { IsRightLog unsatisfiable (chain 0 (link (positive_of 0) 1 ∷ link (positive_of 0) 1 ∷ link (positive_of 1) 2 ∷ []) ∷ []) → ⊥ }
    ensures number_of_itself { IsRightLog unsatisfiable (chain 3 [] ∷ []) → ⊥ }
    ensures last_not_empty { IsRightLog unsatisfiable (chain 0 (link (positive_of 0) 1 ∷ []) ∷ []) → ⊥ }
    ensures no_chains { IsRightLog unsatisfiable [] → ⊥ }
    ensures empty_clause { IsRightLog ([] ∷ []) (chain 0 [] ∷ []) }
    ensures empty_clause_not_cited { IsRightLog ([] ∷ []) [] → ⊥ }
    ensures trimmed { is_trimmed 3 refutation_in_two ≡ true }
    ensures not_trimmed { is_trimmed 3 (chain 0 (link (positive_of 0) 1 ∷ []) ∷ refutation) ≡ false }
    ensures only_the_last { is_trimmed 3 refutation ≡ true }
    ensures model { IsRightModel 2 one_of_two (true ∷ false ∷ []) }
    ensures both_false { IsRightModel 2 one_of_two (false ∷ false ∷ []) → ⊥ }
    ensures too_short { IsRightModel 2 one_of_two (true ∷ []) → ⊥ }
    ensures too_long { IsRightModel 2 one_of_two (true ∷ false ∷ false ∷ []) → ⊥ }
    ensures no_clauses { IsRightModel 2 [] (false ∷ false ∷ []) }
    ensures empty_clause_has_none { IsRightModel 0 ([] ∷ []) [] → ⊥ }
{}
