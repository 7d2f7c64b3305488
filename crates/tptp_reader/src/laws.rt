// The laws of the definitions: each is the contract of a function without arguments and with an empty body.

ghost use Rattle.std.specs.Prelude.{◌≡◌, ◌≤◌, ℕ, true, List, None, length, drop};
ghost use Rattle.tptp_token.specs.Lexemes.{Lexeme, lexemes_of};
ghost use Rattle.tptp_token.specs.Lexing.{lexed_of};
ghost use Rattle.tptp_tree.specs.Entries.{AnnotatedPhrase, is_right_annotated, annotated_lexemes, AnnotatedTree, SpellsAnnotated};
ghost use Rattle.tptp_tree.specs.Causes.{Refusal, annotated_causes};
ghost use Rattle.tptp_token.specs.Words.{name_text};
ghost use Rattle.tptp_tree.specs.Spelling.{SpellsName};
ghost use Rattle.tptp_reader.specs.Machine.{read_up_to, refused_at, ran_out};
ghost use Rattle.tptp_reader.specs.Placed.{verdict_at, IsReadFrom, IsRefusedFrom, RunsOutFrom, IsTheAnswerFrom};
ghost use Rattle.tptp_reader.specs.Verdicts.{IsTheAnswer};
ghost use Rattle.tptp_token.specs.declared.token.Token.{Token};
ghost use Rattle.tptp_token.specs.declared.token.Lexed.{Lexed};
ghost use Rattle.tptp_reader.specs.Annotating.{IsReading, IsFaultAt, IsSameReading};
ghost use Rattle.tptp_reader.specs.Answers.{AreFaultless};
ghost use Rattle.tptp_reader.specs.declared.cause.ReadCause.{ReadCause};
ghost use Rattle.tptp_tree.specs.Shape.{entry_of};
ghost use Rattle.tptp_reader.specs.Printed.{IsPrintedAgain};
ghost use Rattle.tptp_reader.specs.Rising.{TokensRise, TwoTokens, EmptyToken, CrossingTokens, TokenTooFar};
ghost use Rattle.tptp_reader.specs.declared.entry.Read.{Read};
ghost use Rattle.tptp_reader.specs.AnswerExamples.{WholeClause, MixedConnectives, NegatedInequality, TruthAsTerm, EmptyNotes, CrossedNotes, FreeVariable, Unbound, UnknownRole, ConjectureClause, TooDeep, TypedFormula, LeftOutRole, NumberTerm, DistinctTerm, DollarAtom, IncludeEntry, NumberRole, CutOff};

/// Tokens have exactly one answer on the annotated formula that they begin with: that it is read, that a token ends the
/// reading, or that the tokens end too early. The verdict of the stack machine is that answer.
pub fn one_answer()
    ensures { (limit : ℕ) (tokens : List Lexeme) → IsTheAnswer limit tokens }
{}

/// The machine's verdict on the annotated formula that begins at some token, told by the places of tokens among
/// all of them: the formula whose tokens stand there is read; a token ends the reading; or the tokens end too early.
pub fn placed_answers()
    ensures read { (limit : ℕ) (tokens : List Lexeme) (first next : ℕ) (p : AnnotatedPhrase)
        → is_right_annotated p ≡ true → drop first tokens ≡ annotated_lexemes p (drop next tokens)
        → verdict_at limit tokens first ≡ read_up_to next → IsReadFrom limit tokens first p next }
    ensures refused { (limit : ℕ) (tokens : List Lexeme) (first index : ℕ) (refusal : Refusal)
        → verdict_at limit tokens first ≡ refused_at index refusal → IsRefusedFrom limit tokens first index refusal }
    ensures runs_out { (limit : ℕ) (tokens : List Lexeme) (first : ℕ)
        → verdict_at limit tokens first ≡ ran_out → RunsOutFrom limit tokens first }
{}

/// Tokens have exactly one answer on the annotated formula that begins at a token, told by the places of tokens among all of
/// them: that it is read up to another token, that a token ends the reading, or that the tokens end too early.
pub fn one_placed_answer()
    ensures { (limit : ℕ) (tokens : List Lexeme) (first : ℕ) → first ≤ length tokens → IsTheAnswerFrom limit tokens first }
{}

/// The answer of `annotated` depends on the formula alone: an entry that is read has no fault, there is at most one fault, and all that
/// is told of a formula is determined by the text.
pub fn one_outcome()
    ensures read_or_fault { (limit : ℕ) (bytes : List ℕ) (lexed : Lexed) (first : ℕ) (read : Read) (cause : ReadCause) (place : ℕ)
        → IsReading limit bytes lexed.tokens first read → IsFaultAt limit bytes lexed first cause place → ⊥ }
    ensures one_fault { (limit : ℕ) (bytes : List ℕ) (lexed : Lexed) (first : ℕ) (cause other : ReadCause) (place elsewhere : ℕ)
        → IsFaultAt limit bytes lexed first cause place → IsFaultAt limit bytes lexed first other elsewhere
        → (cause ≡ other) × (place ≡ elsewhere) }
    ensures one_reading { (limit : ℕ) (bytes : List ℕ) (tokens : List Token) (first : ℕ) (read other : Read)
        → IsReading limit bytes tokens first read → IsReading limit bytes tokens first other → IsSameReading read other }
{}

/// An annotated formula that some tokens spell is printed so that its text spells it again, and so is each that `annotated` reads: the
/// printed formula spells the same tree as a formula, and one that stood in `cnf` also as a clause; the printed name, which
/// may be of digits, spells the name.
pub fn printed_again()
    ensures spelled { (text : List ℕ) (a : AnnotatedTree) → SpellsAnnotated text a → IsPrintedAgain a.is_clause a.formula }
    ensures read { (limit : ℕ) (bytes : List ℕ) (first : ℕ) (read : Read)
        → IsReading limit bytes (lexed_of bytes).tokens first read
        → IsPrintedAgain (entry_of read.annotated).is_clause (entry_of read.annotated).formula }
    ensures spelled_name { (text : List ℕ) (a : AnnotatedTree) → SpellsAnnotated text a → SpellsName (name_text a.name) a.name }
    ensures read_name { (limit : ℕ) (bytes : List ℕ) (first : ℕ) (read : Read)
        → IsReading limit bytes (lexed_of bytes).tokens first read
        → SpellsName (name_text (entry_of read.annotated).name) (entry_of read.annotated).name }
{}

/// Whole texts: the formulas that are read from the first token up to the end are those that the text spells; and where nothing is wrong
/// with any token of a text that spells an annotated formula, the answer is that it is read up to the end.
pub fn whole_texts()
    ensures read_is_spelled { (limit : ℕ) (bytes : List ℕ) (read : Read)
        → IsReading limit bytes (lexed_of bytes).tokens 0 read
        → read.next ≡ length (lexed_of bytes).tokens → (lexed_of bytes).fault ≡ None
        → SpellsAnnotated bytes (entry_of read.annotated) }
    ensures spelled_is_read { (limit : ℕ) (bytes : List ℕ) (a : AnnotatedTree) (s : SpellsAnnotated bytes a)
        → AreFaultless (annotated_causes limit s.0)
        → IsReadFrom limit (lexemes_of bytes (lexed_of bytes).tokens) 0 s.0 (length (lexed_of bytes).tokens) }
{}

/// The tokens of a text stand one after the other, none of them empty, within the text.
pub fn tokens_rise()
    ensures { TokensRise }
{}

/// Tokens that stand so in a text, and tokens that don't.
pub fn rising_examples()
    ensures two_tokens { TwoTokens }
    ensures empty_token { EmptyToken }
    ensures crossing_tokens { CrossingTokens }
    ensures token_too_far { TokenTooFar }
{}

/// The machine's verdict on small texts, one for each cause.
pub fn answer_examples()
    ensures whole_clause { WholeClause }
    ensures mixed_connectives { MixedConnectives }
    ensures negated_inequality { NegatedInequality }
    ensures truth_as_term { TruthAsTerm }
    ensures empty_notes { EmptyNotes }
    ensures crossed_notes { CrossedNotes }
    ensures free_variable { FreeVariable }
    ensures unbound { Unbound }
    ensures unknown_role { UnknownRole }
    ensures conjecture_clause { ConjectureClause }
    ensures too_deep { TooDeep }
    ensures typed_formula { TypedFormula }
    ensures left_out_role { LeftOutRole }
    ensures number_term { NumberTerm }
    ensures distinct_term { DistinctTerm }
    ensures dollar_atom { DollarAtom }
    ensures include_entry { IncludeEntry }
    ensures number_role { NumberRole }
    ensures cut_off { CutOff }
{}
