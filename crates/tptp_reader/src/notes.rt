// Notes of an entry, whose tokens are free but for their brackets.

ghost use Rattle.std.specs.Prelude.{◌≡◌, [], ◌∷◌, IfOk, IfErr, Some, None, map, codes, length, nat_lt};
ghost use Rattle.tptp_tree.specs.Brackets.{closes as bracket_closes, opened as bracket_opened, is_closing as closing_is};
ghost use Rattle.tptp_reader.specs.Machine.{first_note};
ghost use Rattle.tptp_token.specs.TextTokens.{lexeme_of};
ghost use Rattle.tptp_reader.specs.Telling.{Ends};
ghost use Rattle.tptp_reader.specs.TellingNotes.{bracket_of, stack_of, told_bracket, closes_first, GoesOn, IsTooDeep, EntersWith, EntersTooDeep, is_end_of_notes, ReadsNotes};

use crate::cause::{Halt, Refusal};
use crate::source::Reader;
use std::alloc::Global;
use tptp_token::{Kind, TextToken};

/// A kind of brackets.
#[derive(Clone, Copy, Debug, PartialEq, Eq)]
pub enum Bracket {
    Round,
    Square,
    Curly,
}

/// Whether a token closes a bracket of this kind.
fn closes(token: &TextToken<'_>, bracket: Bracket) -> bool
    ensures { result ≡ bracket_closes (bracket_of bracket) (lexeme_of token.now) }
{
    match bracket {
        Bracket::Round => token.is_mark(b")"),
        Bracket::Square => token.is_mark(b"]"),
        Bracket::Curly => token.is_exactly(Kind::Other, b"}"),
    }
}

/// Whether a token closes a bracket of some kind.
fn is_closing(token: &TextToken<'_>) -> bool
    ensures { result ≡ closing_is (lexeme_of token.now) }
{
    token.is_mark(b")") || token.is_mark(b"]") || token.is_exactly(Kind::Other, b"}")
}

/// The kind of bracket that a token opens.
fn opened(token: &TextToken<'_>) -> Option<Bracket>
    ensures { told_bracket result ≡ bracket_opened (lexeme_of token.now) }
{
    if token.is_mark(b"(") {
        Some(Bracket::Round)
    } else if token.is_mark(b"[") {
        Some(Bracket::Square)
    } else if token.is_exactly(Kind::Other, b"{") {
        Some(Bracket::Curly)
    } else {
        None
    }
}

impl<'a> Reader<'a> {
    /// The index after a run of tokens, not empty, that is balanced in brackets of three kinds and ends before a closing
    /// bracket of its own. Each bracket begins a level.
    pub fn notes(&self, alloc: Global, at: usize) -> Result<usize, Halt>
        ensures read { IfOk result (λ next. ReadsNotes self.now at next) }
        ensures halted { IfErr result (λ halt. Ends self.now (first_note self.now.limit ∷ []) at halt) }
    {
        let mut unclosed = Vec::new(alloc);
        let token = self.look(at)?;
        let begins = self.note(&mut unclosed, &token, at)?;
        if !begins {
            return Err(Halt::At(Refusal::Syntax, at));
        }
        let mut next = at + 1;
        loop {
            let sign = self.look(next)?;
            let goes_on = self.note(&mut unclosed, &sign, next)?;
            if !goes_on {
                let ended = ends_notes(unclosed.as_slice(), &sign);
                if ended {
                    return Ok(next);
                }
                return Err(Halt::At(Refusal::Syntax, next));
            }
            next += 1;
        }
    }

    /// Whether a token goes on with notes, where these brackets are unclosed before it, and with those unclosed after it.
    fn note(
        &self,
        unclosed: &mut Vec<Bracket>,
        token: &TextToken<'a>,
        at: usize,
    ) -> Result<bool, Halt>
        ensures goes_on { IfOk result (λ goes. GoesOn self.now.limit (stack_of unclosed.old.items) (lexeme_of token.now) goes (stack_of unclosed.new.items)) }
        ensures halted { IfErr result (IsTooDeep self.now.limit (stack_of unclosed.old.items) (lexeme_of token.now) at) }
    {
        if !closes_innermost(unclosed.as_slice(), token) {
            return self.enter(unclosed, token, at);
        }
        match unclosed.pop() {
            None => Ok(true),
            Some(_) => Ok(true),
        }
    }

    /// Whether one more bracket may be unclosed.
    fn has_room(&self, unclosed: &[Bracket]) -> bool
        ensures { result ≡ nat_lt (length unclosed.now) self.now.limit }
    {
        unclosed.len() < self.limit as usize
    }

    /// Whether the token goes on with notes, where it doesn't close the innermost bracket.
    fn enter(
        &self,
        unclosed: &mut Vec<Bracket>,
        token: &TextToken<'a>,
        at: usize,
    ) -> Result<bool, Halt>
        ensures goes_on { IfOk result (λ goes. EntersWith self.now.limit (stack_of unclosed.old.items) (lexeme_of token.now) goes (stack_of unclosed.new.items)) }
        ensures halted { IfErr result (EntersTooDeep self.now.limit (stack_of unclosed.old.items) (lexeme_of token.now) at) }
    {
        match opened(token) {
            None => Ok(!is_closing(token)),
            Some(bracket) => {
                if !self.has_room(unclosed.as_slice()) {
                    return Err(Halt::At(Refusal::Nesting, at));
                }
                unclosed.push(bracket)?;
                Ok(true)
            }
        }
    }
}

/// Whether a token closes the innermost bracket, which is the last one.
fn closes_innermost(unclosed: &[Bracket], token: &TextToken<'_>) -> bool
    ensures { result ≡ closes_first (stack_of unclosed.now) (lexeme_of token.now) }
{
    match unclosed.split_last() {
        None => false,
        Some((innermost, _)) => closes(token, *innermost),
    }
}

/// Whether a token is the bracket that closes the entry, where no bracket of the notes is unclosed.
fn ends_notes(unclosed: &[Bracket], token: &TextToken<'_>) -> bool
    ensures { result ≡ is_end_of_notes (stack_of unclosed.now) (lexeme_of token.now) }
{
    match unclosed.split_first() {
        None => token.is_mark(b")"),
        Some(_) => false,
    }
}
