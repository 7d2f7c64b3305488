// The laws of the definitions: each is the contract of a function without arguments and with an empty body.

ghost use Rattle.std.specs.Prelude.{◌≡◌, IsTrue, IsFalse, codes};
ghost use Rattle.tptp_token.specs.Spelling.{spells};
ghost use Rattle.tptp_token.specs.Words.{is_name, token_name, name_text};
ghost use Rattle.tptp_token.specs.declared.token.Kind.TheVariants.{Lower, Variable, Quoted, Distinct, Dollar, Number, Connective, Mark, Other};
ghost use Rattle.tptp_token.specs.Examples.{FourTokens, BadUnderscore, OpenQuote, LongestSigns, EmptyQuote, EarlyNumber, EndlessComment, Comments, SecondToken};
ghost use Rattle.tptp_token.specs.Lexemes.{TokensAreSpelled};

/// Worked examples of the spelling of tokens.
pub fn spelling_examples()
    ensures lower { IsTrue (spells Lower (codes "aB_1")) }
    ensures variable { IsTrue (spells Variable (codes "X0")) }
    ensures quoted { IsTrue (spells Quoted (codes "'A \\' b'")) }
    ensures quoted_empty { IsFalse (spells Quoted (codes "''")) }
    ensures quoted_unclosed { IsFalse (spells Quoted (codes "'ab")) }
    ensures distinct_empty { IsTrue (spells Distinct (codes "\"\"")) }
    ensures dollar { IsTrue (spells Dollar (codes "$true")) }
    ensures dollar_alone { IsFalse (spells Dollar (codes "$$")) }
    ensures real { IsTrue (spells Number (codes "3.5e-2")) }
    ensures fraction { IsTrue (spells Number (codes "12/7")) }
    ensures number_cut { IsFalse (spells Number (codes "3.")) }
    ensures arrow { IsTrue (spells Connective (codes "<=>")) }
    ensures bracket { IsTrue (spells Mark (codes "[")) }
    ensures other_sign { IsTrue (spells Other (codes "*")) }
{}

/// Worked examples of names: which names tokens stand for, and how names are printed.
pub fn name_examples()
    ensures word { IsTrue (is_name Quoted (codes "'A b'")) }
    ensures digits { IsTrue (is_name Number (codes "012")) }
    ensures fraction { IsFalse (is_name Number (codes "1/2")) }
    ensures variable { IsFalse (is_name Variable (codes "X")) }
    ensures one_name { token_name Quoted (codes "'abc'") ≡ token_name Lower (codes "abc") }
    ensures escaped { token_name Quoted (codes "'it\\'s'") ≡ codes "it's" }
    ensures printed_bare { name_text (codes "a1") ≡ codes "a1" }
    ensures printed_quoted { name_text (codes "it's") ≡ codes "'it\\'s'" }
    ensures printed_digits { name_text (codes "12") ≡ codes "'12'" }
{}

/// Worked examples of the tokens of a text.
pub fn lexing_examples()
    ensures four_tokens { FourTokens }
    ensures bad_underscore { BadUnderscore }
    ensures open_quote { OpenQuote }
    ensures longest_signs { LongestSigns }
    ensures empty_quote { EmptyQuote }
    ensures early_number { EarlyNumber }
    ensures endless_comment { EndlessComment }
    ensures comments { Comments }
    ensures second_token { SecondToken }
{}

/// The bytes of each token of a text spell its kind.
pub fn tokens_are_spelled()
    ensures { TokensAreSpelled }
{}
