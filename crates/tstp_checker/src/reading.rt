// One line of a derivation, read from the text's tokens.

ghost use Rattle.std.specs.Prelude.{◌≡◌, ◌<◌, ◌≤◌, ◌-◌, IfOk, IfSome, IfNone, length, take, drop};
ghost use Rattle.tptp_token.specs.Lexing.{lexed_of};
ghost use Rattle.clausal_form.specs.DerivationTexts.{text_tokens, NoLineBegins};
ghost use Rattle.tstp_checker.specs.Reading.{IsLineAt};

use plain_types::{Mem, NoMemory};
use std::alloc::Global;
use tptp_reader::{Read, ReadFault, annotated};
use tptp_source::{Source, read_source};
use tptp_token::{Lexed, MOST_TEXT_BYTES, Token};
use tptp_tree::{Annotated, MOST_DERIVATION_NESTING};

/// A line as it was read, and the token after it by its index.
#[derive(Drop)]
pub(crate) struct ReadLine {
    pub(crate) annotated: Annotated,
    pub(crate) source: Source,
    pub(crate) next: usize,
}

/// Reads the line that begins at a token: an annotated formula whose notes are a source. None where no line can be read there.
pub(crate) fn line_at(
    alloc: Global,
    bytes: &[u8],
    lexed: &Lexed,
    first: usize,
) -> Mem<Option<ReadLine>>
    requires lexed { lexed.now ≡ lexed_of bytes.now }
    requires small { length bytes.now ≤ MOST_TEXT_BYTES }
    requires first { first < length lexed.now.tokens }
    ensures read { IfOk result (λ read. IfSome read (IsLineAt bytes.now first)) }
    ensures none { IfOk result (λ read. IfNone read (NoLineBegins (drop first (text_tokens bytes.now)))) }
{
    let read = match annotated(alloc, bytes, lexed, first, MOST_DERIVATION_NESTING) {
        Ok(read) => read,
        Err(ReadFault::NoMemory) => return Err(NoMemory),
        Err(ReadFault::At(..)) => return Ok(None),
    };
    let notes = notes_of(lexed.tokens.as_slice(), &read);
    let Some(source) = read_source(alloc, bytes, notes)? else {
        return Ok(None);
    };
    Ok(Some(ReadLine {
        annotated: read.annotated,
        source,
        next: read.next,
    }))
}

/// The tokens of a formula's notes.
fn notes_of<'a>(tokens: &'a [Token], read: &Read) -> &'a [Token]
    requires ordered { read.now.notes_start ≤ read.now.notes_end }
    requires within { read.now.notes_end ≤ length tokens.now }
    ensures { result.now ≡ take (read.now.notes_end - read.now.notes_start) (drop read.now.notes_start tokens.now) }
{
    &tokens[read.notes_start..read.notes_end]
}
