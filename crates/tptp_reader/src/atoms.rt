// Atoms, read from tokens.

ghost use Rattle.std.specs.Prelude.{◌≡◌, ◌+◌, ◌^◌, ◌<◌, IfOk, IfErr, true};
ghost use Rattle.tptp_tree.specs.Formula.{equation as equation_tree};
ghost use Rattle.tptp_tree.specs.Shape.{term_of, formula_of};
ghost use Rattle.tptp_reader.specs.Machine.{an_atom};
ghost use Rattle.tptp_token.specs.TextTokens.{lexeme_of};
ghost use Rattle.tptp_token.specs.Words.{is_word as word_is, is_variable as variable_is};
ghost use Rattle.tptp_reader.specs.Telling.{one, IsNext, ReadsAtom, Halts};

use crate::bound::Bound;
use crate::cause::{Halt, Refusal};
use crate::source::{Reader, is_sign_of_equation, refusal_as_term};
use plain_types::Text;
use std::alloc::Global;
use tptp_token::{Kind, TextToken};
use tptp_tree::{Formula, TreeTerm};

impl<'a> Reader<'a> {
    /// Reads an atom, which may be written with `!=` where its sides may differ.
    #[inline(never)]
    pub fn atom(
        &self,
        alloc: Global,
        bound: &Bound<'a>,
        at: usize,
        level: u32,
        may_differ: bool,
    ) -> Result<(Formula, usize), Halt>
        ensures read { IfOk result (λ read. ReadsAtom may_differ self.now bound.now level at read.1 (formula_of read.0)) }
        ensures halted { IfErr result (λ halt. Halts self.now (one (an_atom may_differ)) bound.now level at halt) }
    {
        let token = self.look(at)?;
        if token.is_word() {
            return self.word_atom(alloc, bound, &token, at, level, may_differ);
        }
        if token.is_variable() {
            return self.variable_atom(alloc, bound, &token, at, level, may_differ);
        }
        if token.is_exactly(Kind::Dollar, b"$true") {
            return Ok((Formula::True, at + 1));
        }
        if token.is_exactly(Kind::Dollar, b"$false") {
            return Ok((Formula::False, at + 1));
        }
        Err(Halt::At(refusal_as_term(&token), at))
    }

    /// Reads an atom that begins with a word: a predicate, or a side of an equation.
    fn word_atom(
        &self,
        alloc: Global,
        bound: &Bound<'a>,
        token: &TextToken<'a>,
        at: usize,
        level: u32,
        may_differ: bool,
    ) -> Result<(Formula, usize), Halt>
        requires here { IsNext self.now at (lexeme_of token.now) }
        requires fits { at + 1 < 2 ^ 64 }
        requires word { word_is token.now.kind ≡ true }
        ensures read { IfOk result (λ read. ReadsAtom may_differ self.now bound.now level at read.1 (formula_of read.0)) }
        ensures halted { IfErr result (λ halt. Halts self.now (one (an_atom may_differ)) bound.now level at halt) }
    {
        let name = token.name(alloc)?;
        let (arguments, next) = self.arguments(alloc, bound, at + 1, level)?;
        let sign = self.look(next)?;
        if !is_sign_of_equation(&sign, may_differ) {
            return Ok((Formula::Pred(name, arguments), next));
        }
        let (right, after) = self.term(alloc, bound, next + 1, level)?;
        let left = TreeTerm::App(name, arguments);
        Ok((equation(sign.is_connective(b"="), left, right), after))
    }

    /// Reads an atom that begins with a variable, which is a side of an equation.
    fn variable_atom(
        &self,
        alloc: Global,
        bound: &Bound<'a>,
        token: &TextToken<'a>,
        at: usize,
        level: u32,
        may_differ: bool,
    ) -> Result<(Formula, usize), Halt>
        requires here { IsNext self.now at (lexeme_of token.now) }
        requires fits { at + 1 < 2 ^ 64 }
        requires variable { variable_is token.now.kind ≡ true }
        ensures read { IfOk result (λ read. ReadsAtom may_differ self.now bound.now level at read.1 (formula_of read.0)) }
        ensures halted { IfErr result (λ halt. Halts self.now (one (an_atom may_differ)) bound.now level at halt) }
    {
        if self.is_free(bound, token.bytes) {
            return Err(Halt::At(Refusal::FreeVariable, at));
        }
        let left = TreeTerm::Var(Text::from_slice(alloc, token.bytes)?);
        let next = at + 1;
        let sign = self.look(next)?;
        if !is_sign_of_equation(&sign, may_differ) {
            return Err(Halt::At(Refusal::Syntax, next));
        }
        let (right, after) = self.term(alloc, bound, next + 1, level)?;
        Ok((equation(sign.is_connective(b"="), left, right), after))
    }
}

/// An equation, or its negation.
fn equation(positive: bool, left: TreeTerm, right: TreeTerm) -> Formula
    ensures { formula_of result ≡ equation_tree positive (term_of left) (term_of right) }
{
    if positive {
        Formula::Equal(left, right)
    } else {
        Formula::NotEqual(left, right)
    }
}
