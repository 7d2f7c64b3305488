// The laws of the definitions: each is the contract of a function without arguments and with an empty body.

ghost use Rattle.std.specs.Prelude.{◌≡◌, ◌≢◌, ◌≤◌, ℕ, true, false, count_by, List, [], map, Option, Some};
ghost use Rattle.outside.specs.Library.{Holdings};
ghost use Rattle.tptp_reader.specs.declared.cause.ReadCause.{ReadCause};
ghost use Rattle.tptp_reader.specs.declared.cause.ReadCause.TheVariants.{Load};
ghost use Rattle.std.specs.List.{AllByRecursion};
ghost use Rattle.tptp_tree.specs.Entries.{is_conjecture};
ghost use Rattle.tptp_tree.specs.declared.problem.Annotated.{Annotated};
ghost use Rattle.tptp_tree.specs.ProblemSize.{problem_size, HasProblemSize};
ghost use Rattle.tptp_problem.specs.declared.limits.TheConstants.{MOST_PROBLEM_BYTES};
ghost use Rattle.tptp_problem.specs.Formulas.{Placed, placed};
ghost use Rattle.tptp_problem.specs.Closed.{closed_within};
ghost use Rattle.tptp_problem.specs.Problem.{IsProblem, IsProblemFault};
ghost use Rattle.tptp_problem.specs.Spelled.{FromFile, from_file, SpellsProblem};
ghost use Rattle.tptp_problem.specs.SpelledExamples.{SelectedFormula, WholeFile, NestedInclude, OneClause, SelectedProblem, MissingName};
ghost use Rattle.tptp_problem.specs.FaultExamples.{TwoConjectures, IncludesItself, TooManyBytes, IncludeCutOff, QuoteLeftOpen};
ghost use Rattle.tptp_problem.specs.Levels.{HasFewLevels, TooManyLevels, TooManyPrinted, PrintedWithin};

/// If a library tells its texts, a file has one problem or one first fault, except that a load may fail: there is at most one problem, no
/// other fault beside it, and at most one other fault.
pub fn one_outcome()
    ensures one_problem { (holds : Holdings) (file : List ℕ) (root : Option (List ℕ)) (f g : List Placed)
        → IsProblem (Some holds) file root f → IsProblem (Some holds) file root g → f ≡ g }
    ensures problem_or_fault { (holds : Holdings) (file : List ℕ) (root : Option (List ℕ)) (found : ℕ) (f : List Placed)
        (cause : ReadCause) (name : List ℕ) (place : ℕ) → cause ≢ Load
        → IsProblem (Some holds) file root f → IsProblemFault (Some holds) found file root cause name place → ⊥ }
    ensures one_fault { (holds : Holdings) (file : List ℕ) (root : Option (List ℕ)) (found again : ℕ)
        (cause other : ReadCause) (name elsewhere : List ℕ) (place behind : ℕ) → cause ≢ Load → other ≢ Load
        → IsProblemFault (Some holds) found file root cause name place
        → IsProblemFault (Some holds) again file root other elsewhere behind
        → (cause ≡ other) × (name ≡ elsewhere) × (place ≡ behind) }
{}

/// A problem has at most one conjecture, and it is no clause.
pub fn at_most_one_conjecture()
    ensures one { (told : Option Holdings) (file : List ℕ) (root : Option (List ℕ)) (formulas : List Placed)
        → IsProblem told file root formulas → count_by (λ (f : Placed). is_conjecture f.tree.role) formulas ≤ 1 }
    ensures no_clause { (told : Option Holdings) (file : List ℕ) (root : Option (List ℕ)) (formulas : List Placed)
        → IsProblem told file root formulas
        → AllByRecursion (λ (f : Placed). f.tree.is_clause ≡ true → is_conjecture f.tree.role ≡ false) formulas }
{}

/// No formula of a problem but a clause has a free variable.
pub fn closed_formulas()
    ensures { (told : Option Holdings) (file : List ℕ) (root : Option (List ℕ)) (formulas : List Placed)
        → IsProblem told file root formulas
        → AllByRecursion (λ (f : Placed). f.tree.is_clause ≡ false → closed_within [] f.tree.formula ≡ true) formulas }
{}

/// A problem has at most as many formulas, occurrences and quantified variables as bytes were loaded for it, since each is
/// spelled by a token of its own; and no more than that many bytes are loaded.
pub fn problems_have_a_size()
    ensures loaded { (told : Option Holdings) (file : List ℕ) (root : Option (List ℕ)) (formulas : List Annotated)
        (h : IsProblem told file root (map placed formulas)) → problem_size formulas ≤ h.0.loaded }
    ensures limited { (told : Option Holdings) (file : List ℕ) (root : Option (List ℕ)) (formulas : List Placed)
        (h : IsProblem told file root formulas) → h.0.loaded ≤ MOST_PROBLEM_BYTES }
    ensures sized { (told : Option Holdings) (file : List ℕ) (root : Option (List ℕ)) (formulas : List Annotated)
        → IsProblem told file root (map placed formulas) → HasProblemSize formulas }
{}

/// The formulas of a problem are those that the bytes of its files spell, after includes and selections; and where a library
/// tells what it holds, a file spells at most one list of formulas.
pub fn formulas_are_spelled()
    ensures spelled { (told : Option Holdings) (file : List ℕ) (root : Option (List ℕ)) (formulas : List Placed)
        → IsProblem told file root formulas → SpellsProblem told file root (map from_file formulas) }
    ensures one { (holds : Holdings) (file : List ℕ) (root : Option (List ℕ)) (f g : List FromFile)
        → SpellsProblem (Some holds) file root f → SpellsProblem (Some holds) file root g → f ≡ g }
{}

/// Each formula of a problem is said by one of at most 500 levels, and its printed text spells it within 1,000; 501 negations aren't, nor
/// does any text spell 1,001 of them within the levels of what is printed.
pub fn few_levels()
    ensures problem { (told : Option Holdings) (file : List ℕ) (root : Option (List ℕ)) (formulas : List Placed)
        → IsProblem told file root formulas → AllByRecursion (λ (f : Placed). HasFewLevels f.tree.formula) formulas }
    ensures not_more { TooManyLevels }
    ensures printed { PrintedWithin }
    ensures not_printed { TooManyPrinted }
{}

/// The definitions of a problem, on small files.
pub fn problem_examples()
    ensures selected_formula { SelectedFormula }
    ensures whole_file { WholeFile }
    ensures nested_include { NestedInclude }
    ensures one_clause { OneClause }
    ensures selected_problem { SelectedProblem }
    ensures missing_name { MissingName }
{}

/// The faults of a problem, on small files.
pub fn fault_examples()
    ensures two_conjectures { TwoConjectures }
    ensures includes_itself { IncludesItself }
    ensures too_many_bytes { TooManyBytes }
    ensures include_cut_off { IncludeCutOff }
    ensures quote_left_open { QuoteLeftOpen }
{}
