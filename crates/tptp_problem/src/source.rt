// The text of a file, by its tokens.

ghost use Rattle.std.specs.Prelude.{◌≡◌, ◌+◌, ◌<◌, ◌≤◌, ◌^◌, ◌&&◌, [], ◌∷◌, length, drop, true, IfOk, IsSome, MatchOption, slice_get, option_map};
ghost use Rattle.tptp_token.specs.Words.{token_name};
ghost use Rattle.tptp_token.specs.TextTokens.{lexeme_of};
ghost use Rattle.tptp_reader.specs.Faults.{IsFaultWhere, IsEndFault};
ghost use Rattle.tptp_problem.specs.Languages.{counts as counts_within, conjecture_begun, begun_counts};
ghost use Rattle.tptp_problem.specs.Includes.{is_include as include_is};
ghost use Rattle.tptp_problem.specs.Problem.{start_of};
ghost use Rattle.tptp_problem.specs.Shape.{lexemes_told, selections};

use crate::entry::Entry;
use crate::selection::Selection;
use plain_types::Mem;
use std::alloc::Global;
use tptp_reader::{ReadCause, ReadFault, fault_at_end};
use tptp_token::{Kind, Lexed, MOST_TEXT_BYTES, TextToken};
use tptp_tree::{FileName, Role};

/// A file that was loaded, by its name, bytes and tokens, with the selections around it, the outermost first.
#[derive(Clone, Copy)]
pub struct Source<'a> {
    pub name: &'a FileName,
    pub bytes: &'a [u8],
    pub lexed: &'a Lexed,
    pub around: &'a [Selection<'a, 'a>],
}

impl<'a> Source<'a> {
    /// The token at an index, if there is one.
    pub fn token(&self, at: usize) -> Option<TextToken<'a>>
        ensures next { MatchOption result (drop at (lexemes_told self.now) ≡ [])
            (λ t. drop at (lexemes_told self.now) ≡ lexeme_of t ∷ drop (at + 1) (lexemes_told self.now)) }
        ensures within { IsSome result → at < length self.now.lexed.now.tokens }
        ensures fits { IsSome result → at + 1 < 2 ^ 64 }
    {
        TextToken::at(self.bytes, self.lexed.tokens.as_slice(), at)
    }

    /// Whether the entry that begins at a token is an include.
    pub fn is_include(&self, first: usize) -> bool
        ensures { result ≡ include_is (drop first (lexemes_told self.now)) }
    {
        match self.token(first) {
            Some(token) => token.is_exactly(Kind::Lower, b"include"),
            None => false,
        }
    }

    /// Whether a conjecture of a language with that first word begins at a token, up to its role word, that each selection
    /// around it selects.
    pub fn begins_conjecture(&self, alloc: Global, language: &[u8], first: usize) -> Mem<bool>
        ensures begins { IfOk result (λ begins. begins
            ≡ begun_counts (selections self.now.around.now) (conjecture_begun language.now (drop first (lexemes_told self.now)))) }
        ensures fits { IfOk result (λ begins. begins ≡ true → first + 4 < 2 ^ 64) }
    {
        match self.conjecture_name(language, first) {
            Some(token) => {
                let name = token.name(alloc)?;
                Ok(self.counts(name.as_slice()))
            }
            None => Ok(false),
        }
    }

    /// Whether each selection around the file selects the name.
    pub fn counts(&self, name: &[u8]) -> bool
        ensures { result ≡ counts_within (selections self.now.around.now) name.now }
    {
        for selection in self.around {
            if !selection.selects(name) {
                return false;
            }
        }
        true
    }

    /// Whether a formula of the file is a conjecture that each selection around the file selects.
    pub fn counts_as_conjecture<E: Entry>(&self, formula: &E) -> bool
        ensures { result ≡ (E.language.is_conjecture (E.placed formula.now).tree
            && counts_within (selections self.now.around.now) (E.language.name (E.placed formula.now).tree)) }
    {
        formula.is_conjecture() && self.counts(formula.name())
    }

    /// The name in `fof ( NAME , conjecture`, where these tokens begin at one, with the first word of a language.
    fn conjecture_name(&self, language: &[u8], first: usize) -> Option<TextToken<'a>>
        ensures name { option_map (λ t. token_name t.kind t.bytes.now) result
            ≡ conjecture_begun language.now (drop first (lexemes_told self.now)) }
        ensures fits { IsSome result → first + 4 < 2 ^ 64 }
    {
        let word = self.token(first)?;
        let open = self.token(first + 1)?;
        let name = self.token(first + 2)?;
        let comma = self.token(first + 3)?;
        let role = self.token(first + 4)?;
        let conjecture = Role::Conjecture.word();
        let heads = word.is_exactly(Kind::Lower, language)
            && open.is_mark(b"(")
            && name.is_name()
            && comma.is_mark(b",")
            && role.is_exactly(Kind::Lower, conjecture);
        if heads { Some(name) } else { None }
    }

    /// A fault at a place of the file.
    pub fn fault_at(&self, alloc: Global, cause: ReadCause, place: u32) -> ReadFault
        ensures { IsFaultWhere (λ c f p. (c ≡ cause) × (f ≡ self.now.name.now) × (p ≡ place)) result }
    {
        ReadFault::at(alloc, cause, self.name.as_slice(), place)
    }

    /// A fault at a token.
    pub fn fault(&self, alloc: Global, cause: ReadCause, at: usize) -> ReadFault
        ensures { IsFaultWhere
            (λ c f p. (c ≡ cause) × (f ≡ self.now.name.now) × (p ≡ start_of (slice_get self.now.lexed.now.tokens at))) result }
    {
        self.fault_at(alloc, cause, self.place_of(at))
    }

    /// The fault after the last token: that of the tokens, or else the end of the text.
    pub fn end_fault(&self, alloc: Global) -> ReadFault
        requires { length self.now.bytes.now ≤ MOST_TEXT_BYTES }
        ensures { IsFaultWhere
            (λ c f p. (f ≡ self.now.name.now) × IsEndFault self.now.lexed.now.fault (length self.now.bytes.now) c p) result }
    {
        let (cause, place) = fault_at_end(self.lexed.fault, self.bytes.len() as u32);
        self.fault_at(alloc, cause, place)
    }

    /// Where a token begins in the text; 0 after the last one.
    fn place_of(&self, at: usize) -> u32
        ensures { result ≡ start_of (slice_get self.now.lexed.now.tokens at) }
    {
        match self.lexed.tokens.as_slice().get(at) {
            Some(token) => token.start,
            None => 0,
        }
    }
}
