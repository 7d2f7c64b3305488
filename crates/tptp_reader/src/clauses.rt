// Clauses of `cnf` entries, read from tokens.

ghost use Rattle.std.specs.Prelude.{◌≡◌, IfOk, IfErr};
ghost use Rattle.tptp_tree.specs.Shape.{formula_of};
ghost use Rattle.tptp_reader.specs.Machine.{a_clause, a_literal, a_plain_literal};
ghost use Rattle.tptp_reader.specs.Telling.{one, Halts, ReadsClause, ReadsPlainClause, ReadsLiterals, ReadsLiteral, ReadsNegated, further_literals};

use crate::bound::Bound;
use crate::cause::Halt;
use crate::lists::fitted_formulas;
use crate::source::Reader;
use std::alloc::Global;
use tptp_tree::{Formula, FormulaBox, Formulas};

impl<'a> Reader<'a> {
    /// Reads literals between `|`, or a clause in brackets.
    pub fn clause(
        &self,
        alloc: Global,
        bound: &Bound<'a>,
        at: usize,
        level: u32,
    ) -> Result<(Formula, usize), Halt>
        ensures read { IfOk result (λ read. ReadsClause self.now bound.now level at read.1 (formula_of read.0)) }
        ensures halted { IfErr result (λ halt. Halts self.now (one a_clause) bound.now level at halt) }
    {
        let token = self.look(at)?;
        if token.is_mark(b"(") {
            let inside = self.deeper(at, level)?;
            let (grouped, close) = self.clause(alloc, bound, at + 1, inside)?;
            let behind = self.after(close, b")")?;
            return Ok((grouped, behind));
        }
        let (plain, last) = self.literals(alloc, bound, at, level)?;
        Ok((plain, last))
    }

    /// Reads literals between `|`.
    fn literals(
        &self,
        alloc: Global,
        bound: &Bound<'a>,
        at: usize,
        level: u32,
    ) -> Result<(Formula, usize), Halt>
        ensures read { IfOk result (λ read. ReadsPlainClause self.now bound.now level at read.1 (formula_of read.0)) }
        ensures halted { IfErr result (λ halt. Halts self.now further_literals bound.now level at halt) }
    {
        let (first, after) = self.literal(alloc, bound, at, level)?;
        let sign = self.look(after)?;
        if !sign.is_connective(b"|") {
            return Ok((first, after));
        }
        let (all, next) = self.more_literals(alloc, bound, first, after + 1, level)?;
        Ok((Formula::Or(all), next))
    }

    /// Reads the literals after the first one and a `|`.
    fn more_literals(
        &self,
        alloc: Global,
        bound: &Bound<'a>,
        first: Formula,
        at: usize,
        level: u32,
    ) -> Result<(Formulas, usize), Halt>
        ensures read { IfOk result (λ read. ReadsLiterals (formula_of first) self.now bound.now level at read.1 read.0) }
        ensures halted { IfErr result (λ halt. Halts self.now further_literals bound.now level at halt) }
    {
        let mut literals = Formulas::new(alloc);
        literals.push(first)?;
        let (second, mut next) = self.literal(alloc, bound, at, level)?;
        literals.push(second)?;
        loop {
            let token = self.look(next)?;
            if !token.is_connective(b"|") {
                return Ok((fitted_formulas(literals), next));
            }
            let (literal, after) = self.literal(alloc, bound, next + 1, level)?;
            literals.push(literal)?;
            next = after;
        }
    }

    /// Reads an atom, or `~` and what it may stand before.
    fn literal(
        &self,
        alloc: Global,
        bound: &Bound<'a>,
        at: usize,
        level: u32,
    ) -> Result<(Formula, usize), Halt>
        ensures read { IfOk result (λ read. ReadsLiteral self.now bound.now level at read.1 (formula_of read.0)) }
        ensures halted { IfErr result (λ halt. Halts self.now (one a_literal) bound.now level at halt) }
    {
        let token = self.look(at)?;
        if token.is_connective(b"~") {
            let under = self.deeper(at, level)?;
            let (negated, next) = self.negated_atom(alloc, bound, at + 1, under)?;
            let boxed = FormulaBox::new(alloc, negated)?;
            return Ok((Formula::Not(boxed), next));
        }
        let (plain, last) = self.atom(alloc, bound, at, level, true)?;
        Ok((plain, last))
    }

    /// Reads an atom that isn't written with `!=`, in brackets or not.
    fn negated_atom(
        &self,
        alloc: Global,
        bound: &Bound<'a>,
        at: usize,
        level: u32,
    ) -> Result<(Formula, usize), Halt>
        ensures read { IfOk result (λ read. ReadsNegated self.now bound.now level at read.1 (formula_of read.0)) }
        ensures halted { IfErr result (λ halt. Halts self.now (one a_plain_literal) bound.now level at halt) }
    {
        let token = self.look(at)?;
        if token.is_mark(b"(") {
            let inside = self.deeper(at, level)?;
            let (grouped, close) = self.atom(alloc, bound, at + 1, inside, false)?;
            let behind = self.after(close, b")")?;
            return Ok((grouped, behind));
        }
        let (plain, last) = self.atom(alloc, bound, at, level, false)?;
        Ok((plain, last))
    }
}
