// Terms, read from tokens.

ghost use Rattle.std.specs.Prelude.{◌≡◌, ◌+◌, IfOk, IfErr};
ghost use Rattle.tptp_tree.specs.Term.{terms_of};
ghost use Rattle.tptp_tree.specs.Shape.{term_of};
ghost use Rattle.tptp_reader.specs.Machine.{a_term, maybe_arguments, arguments as argument_symbols};
ghost use Rattle.tptp_reader.specs.Telling.{one, ReadsTerm, ReadsArguments, ReadsBracketed, Halts};

use crate::bound::Bound;
use crate::cause::{Halt, Refusal};
use crate::lists::fitted_terms;
use crate::source::{Reader, refusal_as_term};
use plain_types::Text;
use std::alloc::Global;
use tptp_tree::{TreeTerm, TreeTerms};

impl<'a> Reader<'a> {
    /// Reads a term at a level of nesting, where the names are bound.
    #[cycle(terms)]
    pub fn term(
        &self,
        alloc: Global,
        bound: &Bound<'a>,
        at: usize,
        level: u32,
    ) -> Result<(TreeTerm, usize), Halt>
        ensures read { IfOk result (λ read. ReadsTerm self.now bound.now level at read.1 (term_of read.0)) }
        ensures halted { IfErr result (λ halt. Halts self.now (one a_term) bound.now level at halt) }
    {
        let token = self.look(at)?;
        if token.is_word() {
            let name = token.name(alloc)?;
            let (arguments, next) = self.arguments(alloc, bound, at + 1, level)?;
            return Ok((TreeTerm::App(name, arguments), next));
        }
        if !token.is_variable() {
            return Err(Halt::At(refusal_as_term(&token), at));
        }
        if self.is_free(bound, token.bytes) {
            return Err(Halt::At(Refusal::FreeVariable, at));
        }
        Ok((TreeTerm::Var(Text::from_slice(alloc, token.bytes)?), at + 1))
    }

    /// Reads terms in brackets, or nothing where no bracket opens.
    #[cycle(terms)]
    pub fn arguments(
        &self,
        alloc: Global,
        bound: &Bound<'a>,
        at: usize,
        level: u32,
    ) -> Result<(TreeTerms, usize), Halt>
        ensures read { IfOk result (λ read. ReadsArguments self.now bound.now level at read.1 (terms_of read.0)) }
        ensures halted { IfErr result (λ halt. Halts self.now (one maybe_arguments) bound.now level at halt) }
    {
        let token = self.look(at)?;
        if !token.is_mark(b"(") {
            return Ok((TreeTerms::new(alloc), at));
        }
        let level = self.deeper(at, level)?;
        self.bracketed(alloc, bound, at + 1, level)
    }

    /// Reads terms between commas, at least one, and the bracket after them.
    #[cycle(terms)]
    fn bracketed(
        &self,
        alloc: Global,
        bound: &Bound<'a>,
        at: usize,
        level: u32,
    ) -> Result<(TreeTerms, usize), Halt>
        ensures read { IfOk result (λ read. ReadsBracketed self.now bound.now level at read.1 read.0) }
        ensures halted { IfErr result (λ halt. Halts self.now argument_symbols bound.now level at halt) }
    {
        let mut terms = TreeTerms::new(alloc);
        let (first, mut next) = self.term(alloc, bound, at, level)?;
        terms.push(first)?;
        loop {
            let token = self.look(next)?;
            if token.is_mark(b")") {
                return Ok((fitted_terms(terms), next + 1));
            }
            if !token.is_mark(b",") {
                return Err(Halt::At(Refusal::Syntax, next));
            }
            let (term, after) = self.term(alloc, bound, next + 1, level)?;
            terms.push(term)?;
            next = after;
        }
    }
}
