// The laws of the definitions: each is the contract of a function without arguments and with an empty body.

ghost use Rattle.tptp_tree.specs.Examples.{BoundImplication, NegatedConjunction, NegatedEquation, BareOperands, OccurrencesInImplication, OccurrencesInTruth, SizeOfTwoFormulas, TwoFormulasFit, TooManyFormulas};
ghost use Rattle.tptp_tree.specs.EntryExamples.{ClauseTokens, ClauseMeaning, OneLiteral, ClauseLevels, OpenTokens, OpenCauses, OneName, Roles, FormulaRoles, UnknownRole, LeftOutRole, Balanced, Crossed, EntryOfTruth, NegativeSign, WholeInclude, SelectedInclude, TwoEntries, NoEntries, EmptySelection};
ghost use Rattle.std.specs.Prelude.{◌≡◌, ℕ, true, List};
ghost use Rattle.tptp_token.specs.Lexemes.{Lexeme};
ghost use Rattle.tptp_tree.specs.Formula.{FormulaTree};
ghost use Rattle.tptp_tree.specs.Spelling.{SpellsName, SpellsFormula};
ghost use Rattle.tptp_tree.specs.Equality.{SameFormulasAreEqual};
ghost use Rattle.tptp_tree.specs.LevelExamples.{NegatedEquationLevels, BareNegatedEquation, NegatedQuantifierLevels, NegatedTwiceLevels, JoinedOperandLevels, WrittenBrackets, WrittenClause, DigitsName, QuotedName, BareName, SameImplication, TurnedImplication, OtherConnective, InequationAndNegation};
ghost use Rattle.tptp_tree.specs.LevelLaws.{PrintingAtMostDoubles, PrintedWithinItsLevels, WrittenIsAtMostDoubled, LimitIsOfLevels};
ghost use Rattle.tptp_tree.specs.Entries.{SpellsFormulaName, AnnotatedPhrase, is_right_annotated, annotated_lexemes, AnnotatedTree, SpellsAnnotated, EntryTree, SpellsEntries};

/// Worked examples of printed formulas.
pub fn printing_examples()
    ensures bound_implication { BoundImplication }
    ensures negated_conjunction { NegatedConjunction }
    ensures negated_equation { NegatedEquation }
    ensures bare_operands { BareOperands }
{}

/// Worked examples of sizes.
pub fn size_examples()
    ensures implication { OccurrencesInImplication }
    ensures truth { OccurrencesInTruth }
    ensures two_formulas { SizeOfTwoFormulas }
    ensures two_fit { TwoFormulasFit }
    ensures too_many { TooManyFormulas }
{}

/// Worked examples of levels, printed and written.
pub fn level_examples()
    ensures negated_equation { NegatedEquationLevels }
    ensures bare_equation { BareNegatedEquation }
    ensures negated_quantifier { NegatedQuantifierLevels }
    ensures negated_twice { NegatedTwiceLevels }
    ensures joined_operand { JoinedOperandLevels }
    ensures written_brackets { WrittenBrackets }
    ensures written_clause { WrittenClause }
{}

/// Worked examples of printed names of formulas.
pub fn formula_name_examples()
    ensures digits { DigitsName }
    ensures quoted { QuotedName }
    ensures bare { BareName }
{}

/// Worked examples of formulas that are equal or aren't.
pub fn equality_examples()
    ensures same { SameImplication }
    ensures turned { TurnedImplication }
    ensures connective { OtherConnective }
    ensures inequation { InequationAndNegation }
{}

/// A text spells at most one formula.
pub fn one_formula()
    ensures { (text : List ℕ) (f g : FormulaTree) → SpellsFormula text f → SpellsFormula text g → f ≡ g }
{}

/// A text spells at most one name.
pub fn one_name()
    ensures { (text name other : List ℕ) → SpellsName text name → SpellsName text other → name ≡ other }
{}

/// A text spells at most one name of a formula.
pub fn one_formula_name()
    ensures { (text name other : List ℕ) → SpellsFormulaName text name → SpellsFormulaName text other → name ≡ other }
{}

/// Worked examples of entries: their tokens, their contents, and the causes for which their tokens are refused.
pub fn entry_examples()
    ensures clause_tokens { ClauseTokens }
    ensures clause_meaning { ClauseMeaning }
    ensures one_literal { OneLiteral }
    ensures clause_levels { ClauseLevels }
    ensures open_tokens { OpenTokens }
    ensures open_causes { OpenCauses }
    ensures one_name { OneName }
    ensures roles { Roles }
    ensures formula_roles { FormulaRoles }
    ensures unknown_role { UnknownRole }
    ensures left_out_role { LeftOutRole }
    ensures balanced { Balanced }
    ensures crossed { Crossed }
    ensures entry_of_truth { EntryOfTruth }
    ensures negative_sign { NegativeSign }
{}

/// Worked examples of the entries that texts spell, with includes.
pub fn include_examples()
    ensures whole_include { WholeInclude }
    ensures selected_include { SelectedInclude }
    ensures two_entries { TwoEntries }
    ensures no_entries { NoEntries }
    ensures empty_selection { EmptySelection }
{}

/// Tokens begin with at most one annotated formula.
pub fn one_phrase()
    ensures { (p q : AnnotatedPhrase) (rest more : List Lexeme) → is_right_annotated p ≡ true → is_right_annotated q ≡ true
        → annotated_lexemes p rest ≡ annotated_lexemes q more → (p ≡ q) × (rest ≡ more) }
{}

/// A text spells at most one annotated formula.
pub fn one_annotated()
    ensures { (text : List ℕ) (a b : AnnotatedTree) → SpellsAnnotated text a → SpellsAnnotated text b → a ≡ b }
{}

/// A text spells at most one list of annotated formulas and includes.
pub fn one_problem()
    ensures { (text : List ℕ) (es fs : List EntryTree) → SpellsEntries text es → SpellsEntries text fs → es ≡ fs }
{}

/// A formula that some text spells within a number of levels is printed within at most twice as many.
pub fn printing_at_most_doubles()
    ensures texts { PrintingAtMostDoubles }
    ensures written { WrittenIsAtMostDoubled }
{}

/// The levels of a tree are those of its printed text.
pub fn printed_levels()
    ensures { PrintedWithinItsLevels }
{}

/// The readers' limit of nesting is one of levels: no token of a formula or a clause is too deep exactly where its levels are
/// within the limit.
pub fn limit_is_of_levels()
    ensures { LimitIsOfLevels }
{}

/// The test of equality passes exactly where the formulas are equal.
pub fn same_formulas_are_equal()
    ensures { SameFormulasAreEqual }
{}
