// The piece with which a text begins: a token, a blank, a comment or a fault.

ghost use Rattle.std.specs.Prelude.{◌≡◌, ◌+◌, length};
ghost use Rattle.tptp_token.specs.Pieces.{piece_of, plain_piece, StaysWithin, starts_with as begins_with, starts_with_either as begins_with_either, block_piece as piece_of_block, block_end as end_of_block};

use crate::byte::{is_blank, is_digit, is_lower, is_mark, is_upper};
use crate::comment::{block_end, line_length};
use crate::number::number_length;
use crate::quote::quote_piece;
use crate::sign::sign_piece;
use crate::token::Kind;
use crate::word::{dollar_piece, word_length};

/// A token or a space by its length in bytes, or a fault.
#[derive(Clone, Copy, Debug, PartialEq, Eq)]
pub enum Piece {
    Token(Kind, usize),
    /// A blank or a comment.
    Space(usize),
    /// A bad byte, and its distance in bytes from the beginning.
    Bad(usize),
    /// A quote or a block comment begins here and has no end.
    Unclosed,
}

/// The piece at the beginning of a text, by the text's first byte and the others.
pub fn piece_at(first: u8, rest: &[u8]) -> Piece
    ensures piece { result ≡ piece_of first rest.now }
    ensures within { StaysWithin (length rest.now + 1) result }
{
    if is_blank(first) {
        return Piece::Space(1);
    }
    if first == b'%' {
        return Piece::Space(line_length(rest) + 1);
    }
    if first == b'/' && starts_with(rest, b'*') {
        return block_at(&rest[1..]);
    }
    token_at(first, rest)
}

/// Whether the first byte is this one.
pub fn starts_with(bytes: &[u8], byte: u8) -> bool
    ensures { result ≡ begins_with byte bytes.now }
{
    bytes.first() == Some(&byte)
}

/// Whether the first byte is one of two.
pub fn starts_with_either(bytes: &[u8], one: u8, other: u8) -> bool
    ensures { result ≡ begins_with_either one other bytes.now }
{
    match bytes.first() {
        Some(first) => *first == one || *first == other,
        None => false,
    }
}

/// A block comment, by the text after its `/*`.
fn block_at(inside: &[u8]) -> Piece
    ensures { result ≡ piece_of_block (end_of_block inside.now) }
{
    match block_end(inside) {
        Some(end) => Piece::Space(end + 2),
        None => Piece::Unclosed,
    }
}

/// The piece where neither a blank nor a comment stands.
fn token_at(first: u8, rest: &[u8]) -> Piece
    ensures { result ≡ plain_piece first rest.now }
{
    if is_lower(first) {
        return Piece::Token(Kind::Lower, word_length(rest) + 1);
    }
    if is_upper(first) {
        return Piece::Token(Kind::Variable, word_length(rest) + 1);
    }
    if is_digit(first) {
        return Piece::Token(Kind::Number, number_length(first, rest));
    }
    if is_mark(first) {
        return Piece::Token(Kind::Mark, 1);
    }
    match first {
        b'\'' => quote_piece(Kind::Quoted, first, rest),
        b'"' => quote_piece(Kind::Distinct, first, rest),
        b'$' => dollar_piece(rest),
        _ => sign_piece(first, rest),
    }
}
