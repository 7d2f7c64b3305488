// General terms, read from all tokens of a part of a text.

ghost use Rattle.std.specs.Prelude.{◌≡◌, IfOk, IfSome, IfNone};
ghost use Rattle.tptp_token.specs.Lexemes.{lexemes_of};
ghost use Rattle.tptp_source.specs.General.{GeneralTree};
ghost use Rattle.tptp_source.specs.Shape.{tree_of};
ghost use Rattle.tptp_source.specs.Spelling.{SpellsGeneral};

use crate::reader::{Halt, Reader};
use crate::term::GeneralTerm;
use plain_types::{Mem, NoMemory};
use std::alloc::Global;
use tptp_token::Token;

/// The general term that these tokens of a text spell; none where they spell none. The time is linear in the tokens and
/// their bytes. The calls go as deep as the brackets are nested, so the caller has to see to it that this isn't too deep.
pub fn read_general_term(alloc: Global, bytes: &[u8], tokens: &[Token]) -> Mem<Option<GeneralTerm>>
    ensures spelled { IfOk result (λ read. IfSome read (λ term. SpellsGeneral (lexemes_of bytes.now tokens.now) (tree_of term))) }
    ensures none { IfOk result (λ read. IfNone read ((t : GeneralTree) → SpellsGeneral (lexemes_of bytes.now tokens.now) t → ⊥)) }
{
    let reader = Reader { bytes, tokens };
    match reader.term(alloc, 0) {
        Ok((term, next)) => {
            if next < tokens.len() {
                return Ok(None);
            }
            Ok(Some(term))
        }
        Err(Halt::NoTerm) => Ok(None),
        Err(Halt::NoMemory) => Err(NoMemory),
    }
}
