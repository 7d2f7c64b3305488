// Connectives and signs that stand alone.

ghost use Rattle.std.specs.Prelude.{◌≡◌, if◌then◌else◌};
ghost use Rattle.tptp_token.specs.declared.piece.Piece.{Piece};
ghost use Rattle.tptp_token.specs.declared.token.Kind.{Kind};
ghost use Rattle.tptp_token.specs.Pieces.{plain_piece, IsSignStart};

use crate::byte::{is_lone_connective, is_other_sign};
use crate::piece::{Piece, starts_with, starts_with_either};
use crate::token::Kind;

/// The piece of a sign, by its first byte and the bytes after it.
pub fn sign_piece(first: u8, rest: &[u8]) -> Piece
    requires { IsSignStart first }
    ensures { result ≡ plain_piece first rest.now }
{
    match first {
        b'<' => arrow_piece(rest),
        b'~' => connective(starts_with_either(rest, b'|', b'&')),
        b'=' => connective(starts_with(rest, b'>')),
        b'!' => connective(starts_with(rest, b'=')),
        _ if is_lone_connective(first) => connective(false),
        _ if is_other_sign(first) => Piece::Token(Kind::Other, 1),
        _ => Piece::Bad(0),
    }
}

/// A connective of one byte or of two.
fn connective(has_second: bool) -> Piece
    ensures { result ≡ Piece.Token Kind.Connective (if has_second then 2 else 1) }
{
    Piece::Token(Kind::Connective, if has_second { 2 } else { 1 })
}

/// `<=>`, `<~>`, `<=` or `<`, by the text after the `<`.
fn arrow_piece(rest: &[u8]) -> Piece
    ensures { result ≡ plain_piece 60 rest.now }
{
    if !starts_with_either(rest, b'=', b'~') {
        return Piece::Token(Kind::Other, 1);
    }
    if starts_with(&rest[1..], b'>') {
        return Piece::Token(Kind::Connective, 3);
    }
    if starts_with(rest, b'=') {
        return Piece::Token(Kind::Connective, 2);
    }
    Piece::Token(Kind::Other, 1)
}
