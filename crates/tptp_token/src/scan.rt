// The tokens of a text.

ghost use Rattle.std.specs.Prelude.{◌≡◌, ◌≤◌, IfOk, length};
ghost use Rattle.tptp_token.specs.Lexing.{lexed_of};

use crate::limits::MOST_TEXT_BYTES;
use crate::piece::{Piece, piece_at};
use crate::token::{LexFault, Lexed, Token, Tokens};
use plain_types::Mem;
use std::alloc::Global;

/// The tokens of a text up to its first fault. Blanks are the bytes 9 to 13 and 32; a comment runs from `%` to the end
/// of the line, or from `/*` to the next `*/`. The longest token is taken.
///
/// `BadByte` is the first byte that neither goes on with a token nor starts one: in a quoted word or a distinct object
/// the first byte that can't stand there, a `\` where the next one can't stand after it, and the second quote of an
/// empty quoted word; at a `$` without a lower word, the `$`. `Unclosed` is the first byte of a quoted word, a distinct
/// object or a block comment that the text ends in. The time is linear in the bytes.
pub fn tokens(alloc: Global, bytes: &[u8]) -> Mem<Lexed>
    requires { length bytes.now ≤ MOST_TEXT_BYTES }
    ensures { IfOk result (λ lexed. lexed ≡ lexed_of bytes.now) }
{
    let mut tokens = Tokens::new(alloc);
    let mut rest = bytes;
    while let Some((first, others)) = rest.split_first() {
        let start = (bytes.len() - rest.len()) as u32;
        match piece_at(*first, others) {
            Piece::Token(kind, length) => {
                let end = start + length as u32;
                tokens.push(Token { kind, start, end })?;
                rest = &rest[length..];
            }
            Piece::Space(length) => rest = &rest[length..],
            Piece::Bad(offset) => return Ok(Lexed {
                tokens,
                fault: Some(LexFault::BadByte(start + offset as u32)),
            }),
            Piece::Unclosed => return Ok(Lexed {
                tokens,
                fault: Some(LexFault::Unclosed(start)),
            }),
        }
    }
    Ok(Lexed {
        tokens,
        fault: None,
    })
}
