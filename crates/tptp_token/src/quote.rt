// Quoted words and distinct objects.

ghost use Rattle.std.specs.Prelude.{◌≡◌, ◌≤◌, ◌<◌, ◌||◌, ◌∷◌, [], ℕ, true, false, length, take, bytes_eq};
ghost use Rattle.tptp_token.specs.Spelling.{is_end};
ghost use Rattle.tptp_token.specs.Pieces.{plain_piece, is_quote, fills, filled_length as length_filled, IsQuoteKind};

use crate::byte::is_printable;
use crate::piece::{Piece, starts_with, starts_with_either};
use crate::token::Kind;

/// The piece of a quote, by its first byte and the text after it.
pub fn quote_piece(kind: Kind, quote: u8, inside: &[u8]) -> Piece
    requires { IsQuoteKind kind quote }
    ensures { result ≡ plain_piece quote inside.now }
{
    let filled = filled_length(quote, inside);
    let left = &inside[filled..];
    if is_cut_off(left) {
        return Piece::Unclosed;
    }
    if !starts_with(left, quote) {
        return Piece::Bad(filled + 1);
    }
    // A distinct object may be empty, and a quoted word may not.
    if filled == 0 && quote == b'\'' {
        return Piece::Bad(1);
    }
    Piece::Token(kind, filled + 2)
}

/// Whether the text ends here, or after a `\`.
fn is_cut_off(left: &[u8]) -> bool
    ensures { result ≡ (is_end left.now || bytes_eq left.now (92 ∷ [])) }
{
    left.is_empty() || left == b"\\".as_slice()
}

/// How many bytes at the front may stand inside quotes: printable ones but for the quote and `\`, and pairs of `\` and one of these two.
fn filled_length(quote: u8, inside: &[u8]) -> usize
    requires { is_quote quote ≡ true }
    ensures length { result ≡ length_filled quote inside.now }
    ensures within { result ≤ length inside.now }
{
    let mut at = 0;
    while at < inside.len() {
        match unit_length(quote, &inside[at..]) {
            0 => return at,
            unit => at += unit,
        }
    }
    at
}

/// How long the next byte or pair is that may stand inside quotes; 0 where there is none.
fn unit_length(quote: u8, bytes: &[u8]) -> usize
    requires { is_quote quote ≡ true }
    ensures within { result ≤ length bytes.now }
    ensures right { 0 < result → fills quote (take result bytes.now) ≡ true }
    ensures stopped { result ≡ 0 → (n : ℕ) → 0 < n → n ≤ length bytes.now → fills quote (take n bytes.now) ≡ false }
{
    let Some((first, rest)) = bytes.split_first() else {
        return 0;
    };
    if *first == b'\\' {
        return if starts_with_either(rest, quote, b'\\') {
            2
        } else {
            0
        };
    }
    if *first == quote {
        return 0;
    }
    if is_printable(*first) { 1 } else { 0 }
}
