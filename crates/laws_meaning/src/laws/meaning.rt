// From a problem's formulas to its clausal form, and what a refutation of the form says of the formulas.

ghost use Rattle.laws_meaning.specs.Laws.{
  ModelsExtend,
  FormsReturn,
  MeaningOfSymbols,
  RefutedProblemsHaveNoModel,
  RefutedConjecturesFollow,
  RefutedAxiomsAreUnsatisfiable,
  AcceptedDerivationsProve,
};

/// Where the formulas are true, the conjecture negated, the clausal form is true in an extended interpretation.
pub fn models_extend()
    ensures { ModelsExtend }
{}

/// Where the clausal form is true, the formulas are, the conjecture negated.
pub fn forms_return()
    ensures { FormsReturn }
{}

/// Whether an interpretation is a model of a problem depends on what the problem's symbols give alone.
pub fn meaning_of_symbols()
    ensures { MeaningOfSymbols }
{}

/// A problem that is refuted by ground instances of its form has no finite model.
pub fn refuted_problems_have_no_model()
    ensures { RefutedProblemsHaveNoModel }
{}

/// The conjecture of such a problem follows from its axioms.
pub fn refuted_conjectures_follow()
    ensures { RefutedConjecturesFollow }
{}

/// Without a conjecture the axioms of such a problem are unsatisfiable.
pub fn refuted_axioms_are_unsatisfiable()
    ensures { RefutedAxiomsAreUnsatisfiable }
{}

/// The conjecture of a problem that has an accepted derivation follows from its axioms.
pub fn accepted_derivations_prove()
    ensures { AcceptedDerivationsProve }
{}
