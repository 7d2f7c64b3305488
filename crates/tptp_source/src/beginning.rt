// The tokens with which parts of general terms begin.

ghost use Rattle.std.specs.Prelude.{◌≡◌};
ghost use Rattle.tptp_token.specs.TextTokens.{lexeme_of};
ghost use Rattle.tptp_source.specs.Machine.{beginning_of};

use crate::sign::NumberSign;
use tptp_token::{Kind, TextToken};

/// The part that a token begins, where a part of a general term may stand.
#[derive(Clone, Copy, Debug, PartialEq, Eq)]
pub enum Beginning {
    Variable,
    Word,
    Dollar,
    Number,
    /// The sign of a number.
    Sign(NumberSign),
    Distinct,
    /// `~` before a word.
    Tilde,
    /// The bracket of a list.
    Bracket,
    /// No part.
    Nothing,
}

impl Beginning {
    /// The part that the token begins.
    pub fn of(token: &TextToken<'_>) -> Beginning
        ensures { result ≡ beginning_of (lexeme_of token.now) }
    {
        match token.kind {
            Kind::Lower | Kind::Quoted => Beginning::Word,
            Kind::Variable => Beginning::Variable,
            Kind::Distinct => Beginning::Distinct,
            Kind::Dollar => Beginning::Dollar,
            Kind::Number => Beginning::Number,
            Kind::Connective if token.has_bytes(b"~") => Beginning::Tilde,
            Kind::Mark if token.has_bytes(b"[") => Beginning::Bracket,
            Kind::Other if token.has_bytes(b"+") => Beginning::Sign(NumberSign::Plus),
            Kind::Other if token.has_bytes(b"-") => Beginning::Sign(NumberSign::Minus),
            Kind::Connective | Kind::Mark | Kind::Other => Beginning::Nothing,
        }
    }
}
