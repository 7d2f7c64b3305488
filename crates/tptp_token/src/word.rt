// Words and numbers of digits.

ghost use Rattle.std.specs.Prelude.{◌≡◌, ◌≤◌, length};
ghost use Rattle.std.specs.List.{prefix_len, list_all};
ghost use Rattle.tptp_token.specs.Spelling.{is_word_byte as word_byte, is_digit as digit, is_lower_word as lower_word};
ghost use Rattle.tptp_token.specs.Longest.{longest};
ghost use Rattle.tptp_token.specs.Pieces.{plain_piece};

use crate::byte::{is_digit, is_lower, is_word_byte};
use crate::piece::{Piece, starts_with};
use crate::token::Kind;

/// How many letters, digits and underscores stand at the front.
pub fn word_length(bytes: &[u8]) -> usize
    ensures length { result ≡ prefix_len word_byte bytes.now }
    ensures within { result ≤ length bytes.now }
{
    bytes
        .iter()
        .position(|byte| !is_word_byte(*byte))
        .unwrap_or(bytes.len())
}

/// How many digits stand at the front.
pub fn digit_count(bytes: &[u8]) -> usize
    ensures length { result ≡ prefix_len digit bytes.now }
    ensures within { result ≤ length bytes.now }
{
    bytes
        .iter()
        .position(|byte| !is_digit(*byte))
        .unwrap_or(bytes.len())
}

/// Whether bytes are a lower word: a small letter, and then letters, digits and underscores.
pub fn is_lower_word(word: &[u8]) -> bool
    ensures { result ≡ lower_word word.now }
{
    match word.split_first() {
        None => false,
        Some((first, rest)) => is_lower(*first) && are_word_bytes(rest),
    }
}

fn are_word_bytes(bytes: &[u8]) -> bool
    ensures { result ≡ list_all word_byte bytes.now }
{
    bytes.iter().all(|byte| is_word_byte(*byte))
}

/// Whether bytes are digits alone.
pub fn are_digits(bytes: &[u8]) -> bool
    ensures { result ≡ list_all digit bytes.now }
{
    bytes.iter().all(|byte| is_digit(*byte))
}

/// How long the lower word at the front is; 0 where there is none.
fn lower_word_length(bytes: &[u8]) -> usize
    ensures length { result ≡ longest lower_word bytes.now }
    ensures within { result ≤ length bytes.now }
{
    match bytes.split_first() {
        Some((first, rest)) if is_lower(*first) => word_length(rest) + 1,
        _ => 0,
    }
}

/// The piece of a `$`, by the text after it.
pub fn dollar_piece(rest: &[u8]) -> Piece
    ensures { result ≡ plain_piece 36 rest.now }
{
    if starts_with(rest, b'$') {
        match lower_word_length(&rest[1..]) {
            0 => Piece::Bad(0),
            length => Piece::Token(Kind::Dollar, length + 2),
        }
    } else {
        match lower_word_length(rest) {
            0 => Piece::Bad(0),
            length => Piece::Token(Kind::Dollar, length + 1),
        }
    }
}
