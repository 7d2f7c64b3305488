// General terms, read from tokens.

ghost use Rattle.std.specs.Prelude.{◌≡◌, ◌+◌, ◌<◌, ◌≤◌, ◌^◌, [], ◌∷◌, drop, IfOk, IfErr, IsTrue, IsFalse, false};
ghost use Rattle.tptp_token.specs.declared.token.Kind.TheVariants.{Mark};
ghost use Rattle.tptp_token.specs.Lexemes.{lexeme};
ghost use Rattle.tptp_token.specs.TextTokens.{lexeme_of};
ghost use Rattle.tptp_source.specs.Shape.{tree_of};
ghost use Rattle.tptp_source.specs.Machine.{wants, in_list, wants_word, wants_number, bracketed, list_opens, begins_with, is_number as number_is};
ghost use Rattle.tptp_source.specs.declared.reader.Halt.TheVariants.{NoTerm};
ghost use Rattle.tptp_source.specs.Telling.{lexemes, IsNext, Leads, Halts, ReadsPart, ReadsTerm, term_place, ended, ReadsItems, HaltsItems, ReadsArguments, HaltsArguments, parts_place};

use crate::beginning::Beginning;
use crate::sign::NumberSign;
use crate::term::{GeneralTerm, GeneralTerms};
use plain_types::{NoMemory, Text};
use std::alloc::Global;
use tptp_token::{Kind, TextToken, Token};

/// Why no term is read.
#[derive(Clone, Copy, Debug, PartialEq, Eq)]
pub enum Halt {
    NoMemory,
    /// No tokens that begin so spell a term.
    NoTerm,
}

impl From<NoMemory> for Halt {
    ghost use Rattle.std.specs.Prelude.{◌≡◌};
    ghost use Rattle.tptp_source.specs.declared.reader.Halt.TheVariants.{NoMemory as no_memory};

    ghost from_gives = { λ _ e. e ≡ no_memory };

    fn from(_error: NoMemory) -> Halt {
        Halt::NoMemory
    }
}

/// The tokens of a general term, with the text that they stand in. Its brackets are nested as deep as the caller allows:
/// reading goes one call deeper for each.
#[derive(Clone, Copy)]
pub struct Reader<'a> {
    pub bytes: &'a [u8],
    pub tokens: &'a [Token],
}

impl<'a> Reader<'a> {
    /// The token at an index, which has to be there.
    fn look(&self, at: usize) -> Result<TextToken<'a>, Halt>
        ensures found { IfOk result (λ token. IsNext self.now at (lexeme_of token)) }
        ensures fits { IfOk result (λ _. at + 1 < 2 ^ 64) }
        ensures ended { IfErr result (λ halt. drop at (lexemes self.now) ≡ []) }
        ensures halt { IfErr result (λ halt. halt ≡ NoTerm) }
    {
        match TextToken::at(self.bytes, self.tokens, at) {
            Some(token) => Ok(token),
            None => Err(Halt::NoTerm),
        }
    }

    /// Whether this mark stands at an index.
    fn has_mark(&self, at: usize, mark: &[u8]) -> bool
        ensures here { IsTrue result → IsNext self.now at (lexeme Mark mark.now) }
        ensures fits { IsTrue result → at + 1 < 2 ^ 64 }
        ensures missing { IsFalse result → begins_with mark.now (drop at (lexemes self.now)) ≡ false }
    {
        match TextToken::at(self.bytes, self.tokens, at) {
            Some(token) => token.is_mark(mark),
            None => false,
        }
    }

    /// Reads a term: one part, or more between `:`.
    #[cycle(general_terms)]
    #[inline(always)]
    pub fn term(&self, alloc: Global, at: usize) -> Result<(GeneralTerm, usize), Halt>
        ensures read { IfOk result (λ read. ReadsTerm self.now at read.1 (tree_of read.0)) }
        ensures onward { IfOk result (λ read. at < read.1) }
        ensures halted { IfErr result (λ halt. Halts self.now term_place at halt) }
    {
        let (first, next) = self.part(alloc, at)?;
        if self.has_mark(next, b":") {
            return self.joined(alloc, first, next + 1);
        }
        Ok((first, next))
    }

    /// Reads the parts after the first one and a `:`.
    #[cycle(general_terms)]
    fn joined(
        &self,
        alloc: Global,
        first: GeneralTerm,
        at: usize,
    ) -> Result<(GeneralTerm, usize), Halt>
        ensures read { IfOk result (λ read. Leads self.now (parts_place (tree_of first ∷ [])) at (ended (tree_of read.0)) read.1) }
        ensures onward { IfOk result (λ read. at < read.1) }
        ensures halted { IfErr result (λ halt. Halts self.now (parts_place (tree_of first ∷ [])) at halt) }
    {
        let mut parts = GeneralTerms::new(alloc);
        parts.push(first)?;
        let (second, mut next) = self.part(alloc, at)?;
        parts.push(second)?;
        while self.has_mark(next, b":") {
            let (part, after) = self.part(alloc, next + 1)?;
            parts.push(part)?;
            next = after;
        }
        Ok((GeneralTerm::Joined(parts), next))
    }

    /// Reads a part of a term.
    #[cycle(general_terms)]
    fn part(&self, alloc: Global, at: usize) -> Result<(GeneralTerm, usize), Halt>
        ensures read { IfOk result (λ read. ReadsPart self.now wants at read.1 (tree_of read.0)) }
        ensures onward { IfOk result (λ read. at < read.1) }
        ensures halted { IfErr result (λ halt. Halts self.now wants at halt) }
    {
        let token = self.look(at)?;
        let next = at + 1;
        match Beginning::of(&token) {
            Beginning::Variable => Ok((
                GeneralTerm::Variable(Text::from_slice(alloc, token.bytes)?),
                next,
            )),
            Beginning::Distinct => Ok((
                GeneralTerm::Distinct(Text::from_slice(alloc, token.bytes)?),
                next,
            )),
            Beginning::Number => {
                let number = Text::from_slice(alloc, token.bytes)?;
                Ok((GeneralTerm::Number(NumberSign::Unsigned, number), next))
            }
            Beginning::Sign(sign) => self.number(alloc, sign, next),
            Beginning::Tilde => self.negated(alloc, next),
            Beginning::Word => {
                let name = token.name(alloc)?;
                let (arguments, after) = self.arguments(alloc, next)?;
                Ok((GeneralTerm::Word(name, arguments), after))
            }
            Beginning::Dollar => {
                let word = Text::from_slice(alloc, token.bytes)?;
                let (arguments, after) = self.arguments(alloc, next)?;
                Ok((GeneralTerm::Dollar(word, arguments), after))
            }
            Beginning::Bracket => {
                let (items, after) = self.list(alloc, next)?;
                Ok((GeneralTerm::Listed(items), after))
            }
            Beginning::Nothing => Err(Halt::NoTerm),
        }
    }

    /// Reads the number after a sign.
    fn number(
        &self,
        alloc: Global,
        sign: NumberSign,
        at: usize,
    ) -> Result<(GeneralTerm, usize), Halt>
        ensures read { IfOk result (λ read. ReadsPart self.now (wants_number sign) at read.1 (tree_of read.0)) }
        ensures onward { IfOk result (λ read. at < read.1) }
        ensures halted { IfErr result (λ halt. Halts self.now (wants_number sign) at halt) }
    {
        let token = self.look(at)?;
        if !is_number(&token) {
            return Err(Halt::NoTerm);
        }
        let number = Text::from_slice(alloc, token.bytes)?;
        Ok((GeneralTerm::Number(sign, number), at + 1))
    }

    /// Reads the word after `~`.
    fn negated(&self, alloc: Global, at: usize) -> Result<(GeneralTerm, usize), Halt>
        ensures read { IfOk result (λ read. ReadsPart self.now wants_word at read.1 (tree_of read.0)) }
        ensures onward { IfOk result (λ read. at < read.1) }
        ensures halted { IfErr result (λ halt. Halts self.now wants_word at halt) }
    {
        let token = self.look(at)?;
        if !token.is_word() {
            return Err(Halt::NoTerm);
        }
        let name = token.name(alloc)?;
        Ok((GeneralTerm::Negated(name), at + 1))
    }

    /// Reads the arguments after a word or a dollar word: terms in round brackets, or nothing where no bracket opens.
    #[cycle(general_terms)]
    #[inline(always)]
    fn arguments(&self, alloc: Global, at: usize) -> Result<(GeneralTerms, usize), Halt>
        ensures read { IfOk result (λ read. ReadsArguments self.now at read.1 read.0) }
        ensures onward { IfOk result (λ read. at ≤ read.1) }
        ensures halted { IfErr result (λ halt. HaltsArguments self.now at halt) }
    {
        if self.has_mark(at, b"(") {
            return self.items(alloc, b")", at + 1);
        }
        Ok((GeneralTerms::new(alloc), at))
    }

    /// Reads the terms after the bracket of a list, of which there may be none.
    #[cycle(general_terms)]
    #[inline(always)]
    fn list(&self, alloc: Global, at: usize) -> Result<(GeneralTerms, usize), Halt>
        ensures read { IfOk result (λ read. ReadsPart self.now in_list at read.1 (bracketed list_opens read.0)) }
        ensures onward { IfOk result (λ read. at < read.1) }
        ensures halted { IfErr result (λ halt. Halts self.now in_list at halt) }
    {
        if self.has_mark(at, b"]") {
            return Ok((GeneralTerms::new(alloc), at + 1));
        }
        self.items(alloc, b"]", at)
    }

    /// Reads terms between commas, at least one, and the bracket that closes after them.
    #[cycle(general_terms)]
    fn items(&self, alloc: Global, close: &[u8], at: usize) -> Result<(GeneralTerms, usize), Halt>
        ensures read { IfOk result (λ read. ReadsItems close.now self.now at read.1 read.0) }
        ensures onward { IfOk result (λ read. at < read.1) }
        ensures halted { IfErr result (λ halt. HaltsItems close.now self.now at halt) }
    {
        let mut items = GeneralTerms::new(alloc);
        let (first, mut next) = self.term(alloc, at)?;
        items.push(first)?;
        while self.has_mark(next, b",") {
            let (term, after) = self.term(alloc, next + 1)?;
            items.push(term)?;
            next = after;
        }
        if !self.has_mark(next, close) {
            return Err(Halt::NoTerm);
        }
        Ok((items, next + 1))
    }
}

fn is_number(token: &TextToken<'_>) -> bool
    ensures { result ≡ number_is token.now.kind }
{
    matches!(token.kind, Kind::Number)
}
