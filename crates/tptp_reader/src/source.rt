// The tokens of a text, as a reader sees them.

ghost use Rattle.std.specs.Prelude.{◌≡◌, ◌+◌, ◌^◌, ◌<◌, ◌≤◌, ◌||◌, codes, IfOk, IfErr, IfSome, IfNone, false, [], ◌∷◌};
ghost use Rattle.tptp_token.specs.declared.token.Kind.TheVariants.{Mark, Dollar};
ghost use Rattle.tptp_token.specs.Lexemes.{lexeme, is_connective as connective_is};
ghost use Rattle.tptp_token.specs.TextTokens.{lexeme_of};
ghost use Rattle.tptp_tree.specs.Spelling.{connective_lexeme};
ghost use Rattle.tptp_reader.specs.Machine.{Symbol, mark, is_sign_of_equation as equation_sign_is, is_binary_connective};
ghost use Rattle.tptp_reader.specs.Telling.{IsNext, Leads, Ends, term_refusal, is_free_among, binary_of};
ghost use Rattle.std.specs.Cmp.{partial_equiv_from_equiv};
ghost use Rattle.tptp_reader.specs.Bound.{same_name, same_names, same_names_hash_alike};
ghost use Rattle.tptp_reader.specs.declared.cause.Halt.TheVariants.{At};
ghost use Rattle.tptp_reader.specs.declared.cause.Refusal.TheVariants.{Nesting};

use crate::bound::Bound;
use crate::cause::{Form, Halt, Refusal};
use std::hash::{Hash, Hasher};
use tptp_token::{Kind, TextToken, Token};

/// Whether a token stands between the sides of an equation: `=`, or `!=` where the sides may differ.
pub fn is_sign_of_equation(token: &TextToken<'_>, may_differ: bool) -> bool
    ensures { result ≡ equation_sign_is may_differ (lexeme_of token.now) }
{
    token.is_connective(b"=") || may_differ && token.is_connective(b"!=")
}

pub fn is_quantifier(token: &TextToken<'_>) -> bool
    ensures { result ≡ (connective_is (codes "!") (lexeme_of token.now) || connective_is (codes "?") (lexeme_of token.now)) }
{
    token.is_connective(b"!") || token.is_connective(b"?")
}

/// The connective of two operands that a token is.
pub fn binary_connective(token: &TextToken<'_>) -> Option<Binary>
    ensures found { IfSome result (λ binary. lexeme_of token.now ≡ connective_lexeme (binary_of binary)) }
    ensures none { IfNone result (is_binary_connective (lexeme_of token.now) ≡ false) }
{
    if token.is_connective(b"=>") {
        Some(Binary::Implies)
    } else if token.is_connective(b"<=") {
        Some(Binary::Implied)
    } else if token.is_connective(b"<=>") {
        Some(Binary::Iff)
    } else if token.is_connective(b"<~>") {
        Some(Binary::Xor)
    } else if token.is_connective(b"~|") {
        Some(Binary::Nor)
    } else if token.is_connective(b"~&") {
        Some(Binary::Nand)
    } else {
        None
    }
}

/// Why a token can't stand where a term may, if it is neither a word nor a variable.
pub fn refusal_as_term(token: &TextToken<'_>) -> Refusal
    ensures { result ≡ term_refusal token.now.kind token.now.bytes.now }
{
    match token.kind {
        Kind::Number => Refusal::Inappropriate(Form::Number),
        Kind::Distinct => Refusal::Inappropriate(Form::Distinct),
        Kind::Dollar => dollar_refusal(token.bytes),
        _ => Refusal::Syntax,
    }
}

/// Why a dollar word can't stand where a term has to.
fn dollar_refusal(bytes: &[u8]) -> Refusal
    ensures { result ≡ term_refusal Dollar bytes.now }
{
    if bytes == b"$true".as_slice() || bytes == b"$false".as_slice() {
        Refusal::Syntax
    } else {
        Refusal::Inappropriate(Form::Dollar)
    }
}

/// A connective of two operands other than `&` and `|`.
#[derive(Clone, Copy, Debug, PartialEq, Eq)]
pub enum Binary {
    Implies,
    Implied,
    Iff,
    Xor,
    Nor,
    Nand,
}

/// A name that is lent, by which tables find it.
#[derive(Clone, Copy)]
pub struct Name<'a> {
    pub bytes: &'a [u8],
}

impl<'a> PartialEq for Name<'a> {
    ghost eq = { same_name };

    ghost laws = { partial_equiv_from_equiv same_names };

    fn eq(&self, other: &Name<'a>) -> bool {
        self.bytes == other.bytes
    }
}

impl<'a> Eq for Name<'a> {
    ghost laws = { same_names };
}

impl<'a> Hash for Name<'a> {
    ghost hash_input = { λ s. s.bytes.now ∷ [] };

    ghost respects_eq = { same_names_hash_alike };

    fn hash<H: Hasher>(&self, state: &mut H) {
        state.write(self.bytes);
    }
}

/// The tokens of a text, with what holds throughout an annotated formula.
#[derive(Clone, Copy)]
pub struct Reader<'a> {
    pub bytes: &'a [u8],
    pub tokens: &'a [Token],
    /// How many levels may be begun.
    pub limit: u32,
    /// Whether each variable has to be bound by a quantifier.
    pub closed: bool,
}

impl<'a> Reader<'a> {
    /// The token at an index.
    pub fn look(&self, at: usize) -> Result<TextToken<'a>, Halt>
        ensures found { IfOk result (λ token. IsNext self.now at (lexeme_of token)) }
        ensures fits { IfOk result (λ _. at + 1 < 2 ^ 64) }
        ensures ended { IfErr result (λ halt. (x : Symbol) → Ends self.now (x ∷ []) at halt) }
    {
        match TextToken::at(self.bytes, self.tokens, at) {
            Some(token) => Ok(token),
            None => Err(Halt::Ended),
        }
    }

    /// The index after a mark that has to stand here.
    pub fn after(&self, at: usize, bytes: &[u8]) -> Result<usize, Halt>
        ensures found { IfOk result (λ next. (next ≡ at + 1) × IsNext self.now at (lexeme Mark bytes.now)) }
        ensures leads { IfOk result (λ next. Leads self.now (mark bytes.now ∷ []) at [] next) }
        ensures ends { IfErr result (λ halt. Ends self.now (mark bytes.now ∷ []) at halt) }
    {
        let token = self.look(at)?;
        if token.is_mark(bytes) {
            Ok(at + 1)
        } else {
            Err(Halt::At(Refusal::Syntax, at))
        }
    }

    /// The level that a token at this level begins.
    pub fn deeper(&self, at: usize, level: u32) -> Result<u32, Halt>
        ensures ok { IfOk result (λ deep. (deep ≡ level + 1) × (level < self.now.limit)) }
        ensures refused { IfErr result (λ halt. (halt ≡ At Nesting at) × (self.now.limit ≤ level)) }
    {
        if level >= self.limit {
            return Err(Halt::At(Refusal::Nesting, at));
        }
        Ok(level + 1)
    }

    /// Whether a variable has to be bound and is none of these.
    pub fn is_free(&self, bound: &Bound<'a>, bytes: &'a [u8]) -> bool
        ensures { result ≡ is_free_among self.now.closed bound.now bytes.now }
    {
        self.closed && !bound.contains(bytes)
    }
}
