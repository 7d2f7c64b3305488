// The laws of the machine: each is the contract of a function without arguments and with an empty body.

ghost use Rattle.std.specs.Prelude.{◌≡◌, ◌≤◌, ℕ, true, List, length, drop};
ghost use Rattle.tptp_token.specs.Lexemes.{Lexeme};
ghost use Rattle.typed_tree.specs.TypedEntries.{TypedPhrase, is_right_typed, typed_lexemes};
ghost use Rattle.typed_tree.specs.TypedAnswers.{TypedRefusal, IsReadFrom, IsRefusedFrom, RunsOutFrom};
ghost use Rattle.typed_machine.specs.TypedMachine.{read_up_to, refused_at, ran_out, verdict_at};
ghost use Rattle.typed_machine.specs.Verdicts.{IsTheAnswerFrom};

/// Tokens have exactly one answer on the entry that begins at a token, told by the places of tokens among all of them: that it is read up to
/// another token, that a token ends the reading, or that the tokens end too early. The verdict of the stack machine is that answer.
pub fn one_typed_answer()
    ensures { (limit : ℕ) (tokens : List Lexeme) (first : ℕ) → first ≤ length tokens → IsTheAnswerFrom limit tokens first }
{}

/// The machine's verdict on the entry that begins at some token: the entry whose tokens stand there is read; a token ends the reading; or
/// the tokens end too early.
pub fn placed_typed_answers()
    ensures read { (limit : ℕ) (tokens : List Lexeme) (first next : ℕ) (p : TypedPhrase)
        → is_right_typed p ≡ true → drop first tokens ≡ typed_lexemes p (drop next tokens)
        → verdict_at limit tokens first ≡ read_up_to next → IsReadFrom limit tokens first p next }
    ensures refused { (limit : ℕ) (tokens : List Lexeme) (first index : ℕ) (refusal : TypedRefusal)
        → verdict_at limit tokens first ≡ refused_at index refusal → IsRefusedFrom limit tokens first index refusal }
    ensures runs_out { (limit : ℕ) (tokens : List Lexeme) (first : ℕ)
        → verdict_at limit tokens first ≡ ran_out → RunsOutFrom limit tokens first }
{}
