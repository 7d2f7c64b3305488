// Worked examples of saturated sets.

ghost use Rattle.std.specs.Prelude.{[], ◌∷◌, List};
ghost use Rattle.fol_base.specs.Clause.{TreeClause};
ghost use Rattle.fol_base.specs.Examples.{a, clause, is_predicate};
ghost use Rattle.fol_base.specs.Selection.{SelectionMode};
ghost use Rattle.fol_base.specs.Symbols.{FunctionSymbols};
ghost use Rattle.kernel_steps.specs.Conclusion.{empty_clause};
ghost use Rattle.kernel_steps.specs.Examples.{not_p};
ghost use Rattle.pool_history.specs.Saturated.{IsSaturated};

/// A negative unit is saturated for the form that is this unit. With the empty clause nothing is.
pub fn saturated_examples()
    ensures unit { (functions : FunctionSymbols is_predicate) (mode : SelectionMode)
        → IsSaturated functions mode (clause (not_p a ∷ []) ∷ []) (clause (not_p a ∷ []) ∷ []) }
    ensures empty { (functions : FunctionSymbols is_predicate) (mode : SelectionMode) (form : List TreeClause)
        → IsSaturated functions mode form (empty_clause ∷ []) → ⊥ }
{}
