// A law of the definitions, and the definitions on worked examples: each is the contract of a function without arguments and with an empty body.

ghost use Rattle.typed_problem.specs.Laws.{FunctionTypesFit, PredicateTypesFit};
ghost use Rattle.typed_problem.specs.Examples.{DogsAreSorted, DogsAreProblem, DogsSize, DogsAreTranslated, SortUnknown, DeclaredTwice, CatBarks, MixedEquation, AllBark, OneBarks, NoModels};

/// The type of a symbol has as many arguments as the symbol.
pub fn types_fit()
    ensures functions { FunctionTypesFit }
    ensures predicates { PredicateTypesFit }
{}

/// A problem among entries, its size and its translation.
pub fn typed_problem_examples()
    ensures sorted { DogsAreSorted }
    ensures problem { DogsAreProblem }
    ensures size { DogsSize }
    ensures translated { DogsAreTranslated }
{}

/// The first fault of sorts and types.
pub fn sort_fault_examples()
    ensures unknown { SortUnknown }
    ensures twice { DeclaredTwice }
    ensures clash { CatBarks }
    ensures equation { MixedEquation }
{}

/// Truth in typed interpretations.
pub fn typed_truth_examples()
    ensures all { AllBark }
    ensures one { OneBarks }
    ensures none { NoModels }
{}
