// Tokens, by their kinds and places.

use plain_types::Sequence;

/// The kinds of tokens of TPTP's first-order formulas (Sutcliffe 2017).
#[derive(Clone, Copy, Debug, PartialEq, Eq)]
pub enum Kind {
    /// A small letter, then letters, digits and underscores.
    Lower,
    /// A capital letter, then letters, digits and underscores.
    Variable,
    /// In single quotes, and not empty.
    Quoted,
    /// In double quotes.
    Distinct,
    /// One or two dollar signs and a lower word.
    Dollar,
    /// Digits, with a fraction or a denominator and with an exponent, or without.
    Number,
    /// A connective, a quantifier, or a sign of an equation.
    Connective,
    /// A round or a square bracket, a comma, a full stop or a colon.
    Mark,
    /// Any other sign, which stands alone.
    Other,
}

/// A token by its kind, the place of its first byte and the place after its last one.
#[derive(Clone, Copy, Debug, PartialEq, Eq)]
pub struct Token {
    pub kind: Kind,
    pub start: u32,
    pub end: u32,
}

/// Tokens, in order.
pub type Tokens = Sequence<Token>;

/// The fault that ends a list of tokens before the text does, at a place in bytes from 0.
#[derive(Clone, Copy, Debug, PartialEq, Eq)]
pub enum LexFault {
    /// A byte that neither goes on with a token nor begins one.
    BadByte(u32),
    /// The beginning of a quoted word, a distinct object or a block comment without an end.
    Unclosed(u32),
}

/// The tokens of a text up to its first fault.
#[derive(Drop)]
pub struct Lexed {
    pub tokens: Tokens,
    pub fault: Option<LexFault>,
}
