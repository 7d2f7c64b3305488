// The laws of the definitions: each is the contract of a function without arguments and with an empty body.

ghost use Rattle.std.specs.Prelude.{◌≡◌, ◌↔◌, List, Some};
ghost use Rattle.tptp_token.specs.Lexemes.{Lexeme};
ghost use Rattle.tptp_source.specs.Examples.{PhraseTokens, PhraseMeaning, SignedNames, JoinedParts, OneWord, ArgumentsBehindTilde, EmptyArguments, OtherBracket, TwoTerms, NoPartBehindColon, FileSource, InferenceSource, EmptyLists, Definitions, ParentWithArguments, SignedFileName, FractionAsName, DefinitionWithArguments, PhraseLevels, FileLevels, InferenceLevels, DefinitionLevels};
ghost use Rattle.tptp_source.specs.General.{GeneralTree};
ghost use Rattle.tptp_source.specs.ItemExamples.{Sides, SignedNames as SignedItems, Decimals, NoDecimals, NumberLists, FormulaTerms};
ghost use Rattle.tptp_source.specs.Levels.{LimitIsOfGeneralLevels, SourcesHaveTheirLevels, LimitIsOfSourceLevels};
ghost use Rattle.tptp_source.specs.Machine.{read};
ghost use Rattle.tptp_source.specs.Sources.{SourceTree, IsSource, SpellsSource};
ghost use Rattle.tptp_source.specs.Spelling.{SpellsGeneral};
ghost use Rattle.tptp_source.specs.TermSources.{source_in};

/// Worked examples of general terms: their tokens, what they mean, and which tokens spell none.
pub fn term_examples()
    ensures phrase_tokens { PhraseTokens }
    ensures phrase_meaning { PhraseMeaning }
    ensures signed_names { SignedNames }
    ensures joined_parts { JoinedParts }
    ensures one_word { OneWord }
    ensures arguments_behind_tilde { ArgumentsBehindTilde }
    ensures empty_arguments { EmptyArguments }
    ensures other_bracket { OtherBracket }
    ensures two_terms { TwoTerms }
    ensures no_part_behind_colon { NoPartBehindColon }
{}

/// Worked examples of sources, and of terms that are none.
pub fn source_examples()
    ensures file { FileSource }
    ensures inference { InferenceSource }
    ensures empty_lists { EmptyLists }
    ensures definitions { Definitions }
    ensures parent_with_arguments { ParentWithArguments }
    ensures signed_file_name { SignedFileName }
    ensures fraction_as_name { FractionAsName }
    ensures definition_with_arguments { DefinitionWithArguments }
{}

/// Worked examples of the levels of general terms and sources.
pub fn level_examples()
    ensures phrase { PhraseLevels }
    ensures file { FileLevels }
    ensures inference { InferenceLevels }
    ensures definition { DefinitionLevels }
{}

/// Worked examples of what items of an inference say.
pub fn item_examples()
    ensures sides { Sides }
    ensures signed_names { SignedItems }
    ensures decimals { Decimals }
    ensures no_decimals { NoDecimals }
    ensures number_lists { NumberLists }
    ensures formula_terms { FormulaTerms }
{}

/// The machine reads tokens as a term exactly where they spell it.
pub fn terms_are_read()
    ensures { (tokens : List Lexeme) (t : GeneralTree) → (read tokens ≡ Some t) ↔ SpellsGeneral tokens t }
{}

/// A term is a source exactly where the function on terms gives it.
pub fn sources_are_found()
    ensures { (t : GeneralTree) (s : SourceTree) → (source_in t ≡ Some s) ↔ IsSource t s }
{}

/// Tokens spell at most one general term.
pub fn one_term()
    ensures { (tokens : List Lexeme) (t u : GeneralTree) → SpellsGeneral tokens t → SpellsGeneral tokens u → t ≡ u }
{}

/// Tokens spell at most one source.
pub fn one_source()
    ensures { (tokens : List Lexeme) (s r : SourceTree) → SpellsSource tokens s → SpellsSource tokens r → s ≡ r }
{}

/// The readers' limit of nesting is one of levels in annotations too: no token of a general term or of a source is too deep exactly
/// where its levels are within the limit.
pub fn limit_is_of_levels()
    ensures terms { LimitIsOfGeneralLevels }
    ensures sources { LimitIsOfSourceLevels }
{}

/// A source has the levels of its term.
pub fn sources_have_their_levels()
    ensures { SourcesHaveTheirLevels }
{}
