// Formulas of `fof` entries, read from tokens.
//
// A formula that is read is put into a place that the caller lends, in place of the formula that stands there. So no function that waits for
// what stands in brackets keeps a formula of its own, and a level of nesting takes little stack. What holds or moves formulas is in
// functions that aren't inlined and from which nothing is read.

ghost use Rattle.std.specs.Prelude.{◌≡◌, ◌++◌, [], ◌∷◌, IfOk, IfErr, codes, true};
ghost use Rattle.tptp_token.specs.declared.token.Kind.TheVariants.{Connective, Mark};
ghost use Rattle.tptp_token.specs.Lexemes.{lexeme};
ghost use Rattle.tptp_tree.specs.Formula.{negation, conjunction, disjunction, formulas_of, connected as connected_tree, quantified as quantified_tree};
ghost use Rattle.tptp_tree.specs.Shape.{formula_of};
ghost use Rattle.tptp_reader.specs.Machine.{an_atom, a_unit, formula_symbols, variables_bracket};
ghost use Rattle.tptp_reader.specs.Telling.{one, IsNext, Halts, ReadsAtom, ReadsFormula, ReadsUnit, ReadsUnits, further_units, ReadsBound, ReadsVariables, ReadsVariable, HaltsVariable, Binds, BindsOne, quantifier_of, binary_of};

use crate::bound::Bound;
use crate::cause::{Halt, Refusal};
use crate::lists::fitted_formulas;
use crate::source::{Binary, Name, Reader, binary_connective, is_quantifier};
use plain_types::{Mem, Text, Texts};
use std::alloc::Global;
use std::mem;
use tptp_tree::{Formula, FormulaBox, Formulas};

impl<'a> Reader<'a> {
    /// Reads a formula: a unit; or at least two units between `&`, or between `|`; or two units with another connective.
    #[cycle(formulas)]
    pub(crate) fn formula(
        &self,
        alloc: Global,
        bound: &mut Bound<'a>,
        read: &mut Formula,
        at: usize,
        level: u32,
    ) -> Result<usize, Halt>
        ensures read { IfOk result (λ next. ReadsFormula self.now bound.old level at next (formula_of read.new)) }
        ensures kept { IfOk result (λ _. bound.new ≡ bound.old) }
        ensures halted { IfErr result (λ halt. Halts self.now formula_symbols bound.old level at halt) }
    {
        let after = self.unit(alloc, bound, read, at, level)?;
        self.after_unit(alloc, bound, read, at, after, level)
    }

    /// Reads what follows a formula's first unit, which begins at an index and ends before another one.
    #[cycle(formulas)]
    #[inline(never)]
    fn after_unit(
        &self,
        alloc: Global,
        bound: &mut Bound<'a>,
        read: &mut Formula,
        at: usize,
        after: usize,
        level: u32,
    ) -> Result<usize, Halt>
        requires { ReadsUnit self.now bound.old level at after (formula_of read.old) }
        ensures read { IfOk result (λ next. ReadsFormula self.now bound.old level at next (formula_of read.new)) }
        ensures kept { IfOk result (λ _. bound.new ≡ bound.old) }
        ensures halted { IfErr result (λ halt. Halts self.now formula_symbols bound.old level at halt) }
    {
        let sign = self.look(after)?;
        if sign.is_connective(b"&") {
            let (all, next) = self.operands(alloc, bound, read, b"&", after + 1, level)?;
            conjoin(all, read);
            return Ok(next);
        }
        if sign.is_connective(b"|") {
            let (some, next) = self.operands(alloc, bound, read, b"|", after + 1, level)?;
            disjoin(some, read);
            return Ok(next);
        }
        match binary_connective(&sign) {
            None => Ok(after),
            Some(connective) => {
                let left = boxed(alloc, read)?;
                let end = self.unit(alloc, bound, read, after + 1, level)?;
                connect(alloc, connective, left, read)?;
                Ok(end)
            }
        }
    }

    /// Reads the units after the first one, which is read, and a connective, with the same connective between them.
    #[cycle(formulas)]
    #[inline(never)]
    fn operands(
        &self,
        alloc: Global,
        bound: &mut Bound<'a>,
        read: &mut Formula,
        sign: &[u8],
        at: usize,
        level: u32,
    ) -> Result<(Formulas, usize), Halt>
        ensures read { IfOk result (λ units. ReadsUnits sign.now (formula_of read.old) self.now bound.old level at units.1 units.0) }
        ensures kept { IfOk result (λ _. bound.new ≡ bound.old) }
        ensures halted { IfErr result (λ halt. Halts self.now (further_units sign.now) bound.old level at halt) }
    {
        let mut operands = Formulas::new(alloc);
        push_read(&mut operands, read)?;
        let mut next = self.unit(alloc, bound, read, at, level)?;
        push_read(&mut operands, read)?;
        loop {
            let token = self.look(next)?;
            if !token.is_connective(sign) {
                return Ok((fitted_formulas(operands), next));
            }
            let after = self.unit(alloc, bound, read, next + 1, level)?;
            push_read(&mut operands, read)?;
            next = after;
        }
    }

    /// Reads a negation, a quantifier with its unit, a formula in brackets, or an atom.
    #[cycle(formulas)]
    fn unit(
        &self,
        alloc: Global,
        bound: &mut Bound<'a>,
        read: &mut Formula,
        at: usize,
        level: u32,
    ) -> Result<usize, Halt>
        ensures read { IfOk result (λ next. ReadsUnit self.now bound.old level at next (formula_of read.new)) }
        ensures kept { IfOk result (λ _. bound.new ≡ bound.old) }
        ensures halted { IfErr result (λ halt. Halts self.now (one a_unit) bound.old level at halt) }
    {
        let token = self.look(at)?;
        if token.is_connective(b"~") {
            return self.negated(alloc, bound, read, at, level);
        }
        if is_quantifier(&token) {
            let scope = self.deeper(at, level)?;
            let for_all = token.is_connective(b"!");
            let end = self.quantified(alloc, bound, read, for_all, at + 1, scope)?;
            return Ok(end);
        }
        if token.is_mark(b"(") {
            return self.in_brackets(alloc, bound, read, at, level);
        }
        let last = self.plain(alloc, &*bound, read, at, level)?;
        Ok(last)
    }

    /// Reads an atom. It stands apart, so that its own frame is gone where a unit within brackets is read.
    #[inline(never)]
    fn plain(
        &self,
        alloc: Global,
        bound: &Bound<'a>,
        read: &mut Formula,
        at: usize,
        level: u32,
    ) -> Result<usize, Halt>
        ensures read { IfOk result (λ next. ReadsAtom true self.now bound.now level at next (formula_of read.new)) }
        ensures halted { IfErr result (λ halt. Halts self.now (one (an_atom true)) bound.now level at halt) }
    {
        let (atom, next) = self.atom(alloc, bound, at, level, true)?;
        *read = atom;
        Ok(next)
    }

    /// Reads a negation, from its `~` on.
    #[cycle(formulas)]
    #[inline(never)]
    fn negated(
        &self,
        alloc: Global,
        bound: &mut Bound<'a>,
        read: &mut Formula,
        at: usize,
        level: u32,
    ) -> Result<usize, Halt>
        requires { IsNext self.now at (lexeme Connective (codes "~")) }
        ensures read { IfOk result (λ next. ReadsUnit self.now bound.old level at next (formula_of read.new)) }
        ensures kept { IfOk result (λ _. bound.new ≡ bound.old) }
        ensures halted { IfErr result (λ halt. Halts self.now (one a_unit) bound.old level at halt) }
    {
        let under = self.deeper(at, level)?;
        let next = self.unit(alloc, bound, read, at + 1, under)?;
        negate(alloc, read)?;
        Ok(next)
    }

    /// Reads a formula in brackets, from the first of them on.
    #[cycle(formulas)]
    #[inline(never)]
    fn in_brackets(
        &self,
        alloc: Global,
        bound: &mut Bound<'a>,
        read: &mut Formula,
        at: usize,
        level: u32,
    ) -> Result<usize, Halt>
        requires { IsNext self.now at (lexeme Mark (codes "(")) }
        ensures read { IfOk result (λ next. ReadsUnit self.now bound.old level at next (formula_of read.new)) }
        ensures kept { IfOk result (λ _. bound.new ≡ bound.old) }
        ensures halted { IfErr result (λ halt. Halts self.now (one a_unit) bound.old level at halt) }
    {
        let inside = self.deeper(at, level)?;
        let close = self.formula(alloc, bound, read, at + 1, inside)?;
        let behind = self.after(close, b")")?;
        Ok(behind)
    }

    /// Reads the variables of a quantifier and its unit, in which they are bound.
    #[cycle(formulas)]
    #[inline(never)]
    fn quantified(
        &self,
        alloc: Global,
        bound: &mut Bound<'a>,
        read: &mut Formula,
        for_all: bool,
        at: usize,
        level: u32,
    ) -> Result<usize, Halt>
        ensures read { IfOk result (λ next. ReadsBound for_all self.now bound.old level at next (formula_of read.new)) }
        ensures kept { IfOk result (λ _. bound.new ≡ bound.old) }
        ensures halted { IfErr result (λ halt. Halts self.now (one variables_bracket) bound.old level at halt) }
    {
        let outer = bound.len();
        let (variables, next) = self.variables(alloc, bound, at, level)?;
        let colon = self.after(next, b":")?;
        let end = self.unit(alloc, bound, read, colon, level)?;
        bound.truncate(outer);
        quantify(alloc, for_all, variables, read)?;
        Ok(end)
    }

    /// Reads variables in square brackets, and binds them.
    #[inline(never)]
    fn variables(
        &self,
        alloc: Global,
        bound: &mut Bound<'a>,
        at: usize,
        level: u32,
    ) -> Result<(Texts, usize), Halt>
        ensures read { IfOk result (λ read. ReadsVariables self.now bound.old level at read.1 read.0) }
        ensures binds { IfOk result (λ read. Binds bound.old bound.new read.0) }
        ensures halted { IfErr result (λ halt. Halts self.now (one variables_bracket) bound.old level at halt) }
    {
        let open = self.look(at)?;
        if !open.is_mark(b"[") {
            return Err(Halt::At(Refusal::Syntax, at));
        }
        self.deeper(at, level)?;
        let mut variables = Texts::new(alloc);
        let mut next = self.next_variable(alloc, bound, &mut variables, at + 1)?;
        loop {
            let token = self.look(next)?;
            if token.is_mark(b"]") {
                return Ok((variables, next + 1));
            }
            if !token.is_mark(b",") {
                return Err(Halt::At(Refusal::Syntax, next));
            }
            next = self.next_variable(alloc, bound, &mut variables, next + 1)?;
        }
    }

    /// Reads one variable of a quantifier, adds its name to those before it, and binds it.
    fn next_variable(
        &self,
        alloc: Global,
        bound: &mut Bound<'a>,
        variables: &mut Texts,
        at: usize,
    ) -> Result<usize, Halt>
        ensures read { IfOk result (λ next. ReadsVariable self.now at next variables.old variables.new) }
        ensures binds { IfOk result (λ _. BindsOne bound.old bound.new variables.old variables.new) }
        ensures halted { IfErr result (λ halt. HaltsVariable self.now at variables.old halt) }
    {
        let token = self.look(at)?;
        if !token.is_variable() {
            return Err(Halt::At(Refusal::Syntax, at));
        }
        variables.push(Text::from_slice(alloc, token.bytes)?)?;
        bound.push(Name { bytes: token.bytes })?;
        Ok(at + 1)
    }
}

/// Takes a read formula out of its place, in which `$true` is left, and adds it to a list.
#[inline(never)]
fn push_read(formulas: &mut Formulas, read: &mut Formula) -> Mem<()>
    ensures { IfOk result (λ _. formulas.new ≡ formulas.old ++ formula_of read.old ∷ []) }
{
    formulas.push(mem::replace(read, Formula::True))
}

/// Takes a read formula out of its place, in which `$true` is left, into a box.
#[inline(never)]
fn boxed(alloc: Global, read: &mut Formula) -> Mem<FormulaBox>
    ensures { IfOk result (λ taken. taken ≡ formula_of read.old) }
{
    FormulaBox::new(alloc, mem::replace(read, Formula::True))
}

/// Puts a conjunction in the place of what was read.
#[inline(never)]
fn conjoin(operands: Formulas, read: &mut Formula)
    ensures { formula_of read.new ≡ conjunction (formulas_of operands) }
{
    *read = Formula::And(operands);
}

/// Puts a disjunction in the place of what was read.
#[inline(never)]
fn disjoin(operands: Formulas, read: &mut Formula)
    ensures { formula_of read.new ≡ disjunction (formulas_of operands) }
{
    *read = Formula::Or(operands);
}

/// Puts the negation of a read formula in its place.
#[inline(never)]
fn negate(alloc: Global, read: &mut Formula) -> Mem<()>
    ensures { IfOk result (λ _. formula_of read.new ≡ negation (formula_of read.old)) }
{
    let inner = boxed(alloc, read)?;
    *read = Formula::Not(inner);
    Ok(())
}

/// Puts a quantifier, `!` or `?`, before a read formula.
#[inline(never)]
fn quantify(alloc: Global, for_all: bool, variables: Texts, read: &mut Formula) -> Mem<()>
    ensures { IfOk result (λ _. formula_of read.new ≡ quantified_tree (quantifier_of for_all) variables (formula_of read.old)) }
{
    let body = boxed(alloc, read)?;
    *read = if for_all {
        Formula::All(variables, body)
    } else {
        Formula::Ex(variables, body)
    };
    Ok(())
}

/// Puts a connective of two operands between a formula and the one that was read after it.
#[inline(never)]
fn connect(alloc: Global, connective: Binary, left: FormulaBox, read: &mut Formula) -> Mem<()>
    ensures { IfOk result (λ _. formula_of read.new ≡ connected_tree (binary_of connective) left (formula_of read.old)) }
{
    let right = boxed(alloc, read)?;
    *read = match connective {
        Binary::Implies => Formula::Implies(left, right),
        Binary::Implied => Formula::Implied(left, right),
        Binary::Iff => Formula::Iff(left, right),
        Binary::Xor => Formula::Xor(left, right),
        Binary::Nor => Formula::Nor(left, right),
        Binary::Nand => Formula::Nand(left, right),
    };
    Ok(())
}
