// Tokens with their bytes.

ghost use Rattle.std.specs.Prelude.{◌≡◌, ◌+◌, ◌<◌, ◌^◌, [], ◌∷◌, drop, length, IfOk, IsSome, MatchOption, bytes_eq};
ghost use Rattle.tptp_token.specs.Words.{is_lower_kind, is_variable as variable_is, is_word as word_is, is_digits as digits_are, is_name as name_is, token_name};
ghost use Rattle.tptp_token.specs.Lexemes.{lexeme_at, lexemes_of, is_lexeme, is_mark as mark_is, is_connective as connective_is};
ghost use Rattle.tptp_token.specs.TextTokens.{lexeme_of};

use crate::name::unquoted;
use crate::token::{Kind, Token};
use crate::word::are_digits;
use plain_types::{Mem, Text};
use std::alloc::Global;

/// A token by its kind and its bytes.
#[derive(Clone, Copy)]
pub struct TextToken<'a> {
    pub kind: Kind,
    pub bytes: &'a [u8],
}

impl<'a> TextToken<'a> {
    /// A token of a text.
    pub fn of(text: &'a [u8], token: Token) -> TextToken<'a>
        ensures { lexeme_of result ≡ lexeme_at text.now token }
    {
        let end = text.len().min(token.end as usize);
        let start = end.min(token.start as usize);
        TextToken {
            kind: token.kind,
            bytes: &text[start..end],
        }
    }

    /// The token at an index of a text's tokens, if there is one.
    pub fn at(text: &'a [u8], tokens: &[Token], index: usize) -> Option<TextToken<'a>>
        ensures next { MatchOption result (drop index (lexemes_of text.now tokens.now) ≡ [])
            (λ t. drop index (lexemes_of text.now tokens.now) ≡ lexeme_of t ∷ drop (index + 1) (lexemes_of text.now tokens.now)) }
        ensures within { IsSome result → index < length tokens.now }
        ensures fits { IsSome result → index + 1 < 2 ^ 64 }
    {
        if index >= tokens.len() {
            return None;
        }
        let token = tokens[index];
        Some(TextToken::of(text, token))
    }

    /// Whether it is of this kind and has these bytes.
    pub fn is_exactly(&self, kind: Kind, bytes: &[u8]) -> bool
        ensures { result ≡ is_lexeme kind bytes.now (lexeme_of self.now) }
    {
        self.kind == kind && bytes == self.bytes
    }

    /// Whether it is this bracket, comma, full stop or colon.
    pub fn is_mark(&self, bytes: &[u8]) -> bool
        ensures { result ≡ mark_is bytes.now (lexeme_of self.now) }
    {
        self.is_exactly(Kind::Mark, bytes)
    }

    /// Whether it is this connective.
    pub fn is_connective(&self, bytes: &[u8]) -> bool
        ensures { result ≡ connective_is bytes.now (lexeme_of self.now) }
    {
        self.is_exactly(Kind::Connective, bytes)
    }

    /// Whether it has these bytes.
    pub fn has_bytes(&self, bytes: &[u8]) -> bool
        ensures { result ≡ bytes_eq self.now.bytes.now bytes.now }
    {
        self.bytes == bytes
    }

    /// Whether it is a lower word.
    pub fn is_lower(&self) -> bool
        ensures { result ≡ is_lower_kind self.now.kind }
    {
        matches!(self.kind, Kind::Lower)
    }

    pub fn is_variable(&self) -> bool
        ensures { result ≡ variable_is self.now.kind }
    {
        matches!(self.kind, Kind::Variable)
    }

    /// Whether it is a lower word or a quoted word.
    pub fn is_word(&self) -> bool
        ensures { result ≡ word_is self.now.kind }
    {
        matches!(self.kind, Kind::Lower | Kind::Quoted)
    }

    /// Whether it is a number of digits alone.
    fn is_digits(&self) -> bool
        ensures { result ≡ digits_are self.now.kind self.now.bytes.now }
    {
        match self.kind {
            Kind::Number => are_digits(self.bytes),
            _ => false,
        }
    }

    /// Whether it may be a formula's name: a word, or a number of digits alone.
    pub fn is_name(&self) -> bool
        ensures { result ≡ name_is self.now.kind self.now.bytes.now }
    {
        self.is_word() || self.is_digits()
    }

    /// The name that it is: `abc` and `'abc'` are one name.
    pub fn name(&self, alloc: Global) -> Mem<Text>
        ensures { IfOk result (λ name. name ≡ token_name self.now.kind self.now.bytes.now) }
    {
        match self.kind {
            Kind::Quoted => unquoted(alloc, self.bytes),
            _ => Text::from_slice(alloc, self.bytes),
        }
    }
}
