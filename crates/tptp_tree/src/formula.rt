// Formulas over names.

ghost use Rattle.std.specs.Prelude.{◌≡◌, ◌<◌, ◌^◌, ◌↔◌, ◌++◌, [], ◌∷◌, length, map, IfOk, OnErr, IsTrue};
ghost use Rattle.std.specs.Slice.Iter.{iter_rest};
ghost use Rattle.std.specs.Iterator.Adapters.{IterYieldsInOrder, IterYieldsInReverse};
ghost use Rattle.tptp_tree.specs.Term.{terms_of};
ghost use Rattle.tptp_tree.specs.Formula.{predicate, equation};
ghost use Rattle.tptp_tree.specs.Shape.{term_of, formula_of};

use crate::term::{TreeTerm, TreeTerms};
use plain_types::{Mem, Text, Texts};
use std::alloc::Global;
use std::marker::Model;
use std::slice::Iter;

/// A first-order formula (Sutcliffe 2017). `And` and `Or` hold at least two formulas where a text spells them, `All` and
/// `Ex` at least one variable's name.
#[derive(Drop)]
#[cycle(formulas)]
pub enum Formula {
    True,
    False,
    Pred(Text, TreeTerms),
    Equal(TreeTerm, TreeTerm),
    NotEqual(TreeTerm, TreeTerm),
    Not(FormulaBox),
    And(Formulas),
    Or(Formulas),
    Implies(FormulaBox, FormulaBox),
    Implied(FormulaBox, FormulaBox),
    Iff(FormulaBox, FormulaBox),
    Xor(FormulaBox, FormulaBox),
    Nor(FormulaBox, FormulaBox),
    Nand(FormulaBox, FormulaBox),
    All(Texts, FormulaBox),
    Ex(Texts, FormulaBox),
}

impl Formula {
    /// An equal formula.
    #[cycle(copy_formulas)]
    pub fn copy(&self, alloc: Global) -> Mem<Formula>
        ensures { IfOk result (λ formula. formula_of formula ≡ formula_of self.now) }
    {
        match self {
            Formula::True => Ok(Formula::True),
            Formula::False => Ok(Formula::False),
            Formula::Pred(name, arguments) => copied_predicate(alloc, name, arguments),
            Formula::Equal(left, right) => copied_equation(alloc, true, left, right),
            Formula::NotEqual(left, right) => copied_equation(alloc, false, left, right),
            Formula::Not(inner) => Ok(Formula::Not(inner.copy(alloc)?)),
            Formula::And(formulas) => Ok(Formula::And(formulas.copy(alloc)?)),
            Formula::Or(formulas) => Ok(Formula::Or(formulas.copy(alloc)?)),
            Formula::Implies(left, right) => Ok(Formula::Implies(
                left.copy(alloc)?,
                right.copy(alloc)?,
            )),
            Formula::Implied(left, right) => Ok(Formula::Implied(
                left.copy(alloc)?,
                right.copy(alloc)?,
            )),
            Formula::Iff(left, right) => Ok(Formula::Iff(left.copy(alloc)?, right.copy(alloc)?)),
            Formula::Xor(left, right) => Ok(Formula::Xor(left.copy(alloc)?, right.copy(alloc)?)),
            Formula::Nor(left, right) => Ok(Formula::Nor(left.copy(alloc)?, right.copy(alloc)?)),
            Formula::Nand(left, right) => Ok(Formula::Nand(left.copy(alloc)?, right.copy(alloc)?)),
            Formula::All(names, body) => Ok(Formula::All(
                copied_names(alloc, names)?,
                body.copy(alloc)?,
            )),
            Formula::Ex(names, body) => Ok(Formula::Ex(
                copied_names(alloc, names)?,
                body.copy(alloc)?,
            )),
        }
    }
}

/// An equal predicate with its arguments. Not inlined, so that a recursion down a formula has small frames.
#[inline(never)]
fn copied_predicate(alloc: Global, name: &Text, arguments: &TreeTerms) -> Mem<Formula>
    ensures { IfOk result (λ formula. formula_of formula ≡ predicate name.now (terms_of arguments.now)) }
{
    Ok(Formula::Pred(name.copy(alloc)?, arguments.copy(alloc)?))
}

/// An equal equation, by its sign and its sides. Not inlined, as above.
#[inline(never)]
fn copied_equation(alloc: Global, positive: bool, left: &TreeTerm, right: &TreeTerm) -> Mem<Formula>
    ensures { IfOk result (λ formula. formula_of formula ≡ equation positive (term_of left.now) (term_of right.now)) }
{
    let left = left.copy(alloc)?;
    let right = right.copy(alloc)?;
    if positive {
        Ok(Formula::Equal(left, right))
    } else {
        Ok(Formula::NotEqual(left, right))
    }
}

/// An equal list of names.
#[inline(never)]
fn copied_names(alloc: Global, names: &Texts) -> Mem<Texts>
    ensures { IfOk result (λ copied. copied ≡ names.now) }
{
    let mut copied = Texts::new(alloc);
    for name in names.as_slice() {
        copied.push(name.copy(alloc)?)?;
    }
    Ok(copied)
}

/// A formula of its own, in a box, which contracts see as its tree.
#[derive(Drop)]
#[cycle(formulas)]
pub struct FormulaBox {
    formula: Box<Formula>,
}

impl Model for FormulaBox {
    ghost use Rattle.tptp_tree.specs.Formula.{FormulaTree, formula_size};
    ghost use Rattle.tptp_tree.specs.Codes.{formula_code};

    ghost Value = { FormulaTree };

    ghost coded = { formula_code };

    ghost use Rattle.tptp_tree.specs.Shape.{formula_of};

    ghost view = { λ a. formula_of a.formula.value };

    ghost size = { formula_size };

    ghost use Rattle.std.proofs.Common.{arith};
    ghost use Rattle.tptp_tree.specs.Falls.{deep-Formula-≤};

    ghost size_decreases = { λ a h. Prim.omega (arith, deep-Formula-≤ a.formula.value) };
}

impl FormulaBox {
    /// The formula in a box.
    pub fn new(alloc: Global, formula: Formula) -> Mem<FormulaBox>
        ensures { IfOk result (λ boxed. boxed ≡ formula_of formula) }
    {
        Ok(FormulaBox {
            formula: Box::new(alloc, formula)?,
        })
    }

    /// The formula, lent.
    pub fn get(&self) -> &Formula
        ensures { formula_of result.now ≡ self.now }
    {
        &self.formula
    }

    /// The formula, out of its box.
    pub fn into_inner(self) -> Formula
        ensures { formula_of result ≡ self }
    {
        Box::into_inner(self.formula)
    }

    /// An equal formula, in a box of its own.
    #[cycle(copy_formulas)]
    pub fn copy(&self, alloc: Global) -> Mem<FormulaBox>
        ensures { IfOk result (λ boxed. boxed ≡ self.now) }
    {
        FormulaBox::new(alloc, self.formula.copy(alloc)?)
    }
}

/// A list of formulas, which contracts see as the list of their trees.
#[derive(Drop)]
#[cycle(formulas)]
pub struct Formulas {
    items: Vec<Formula>,
}

impl Model for Formulas {
    ghost use Rattle.std.specs.Prelude.{List, map};
    ghost use Rattle.std.specs.Coded.{coded_list};
    ghost use Rattle.tptp_tree.specs.Formula.{FormulaTree, formulas_size, formulas_of};
    ghost use Rattle.tptp_tree.specs.Codes.{formula_code};

    ghost Value = { List FormulaTree };

    ghost coded = { coded_list formula_code };

    ghost use Rattle.tptp_tree.specs.Shape.{formula_of};

    ghost view = { λ a. map formula_of a.items.items };

    ghost size = { λ fs. formulas_size (formulas_of fs) };

    ghost use Rattle.std.proofs.Common.{arith};
    ghost use Rattle.tptp_tree.specs.Falls.{most-deep-Formula-≤};

    ghost size_decreases = { λ a h. Prim.omega (arith, most-deep-Formula-≤ a.items.items) };
}

impl Formulas {
    /// The empty list. It takes no memory.
    pub fn new(alloc: Global) -> Formulas
        ensures { result ≡ [] }
    {
        Formulas {
            items: Vec::new(alloc),
        }
    }

    /// The list of a vector's formulas. It takes no memory.
    pub fn from_vec(items: Vec<Formula>) -> Formulas
        ensures { result ≡ map formula_of items.items }
    {
        Formulas { items }
    }

    /// The vector of the list's formulas. It takes no memory.
    pub fn into_vec(self) -> Vec<Formula>
        ensures { map formula_of result.items ≡ self }
    {
        self.items
    }

    /// The formulas, lent.
    pub fn as_slice(&self) -> &[Formula]
        ensures { map formula_of result.now ≡ self.now }
    {
        self.items.as_slice()
    }

    /// The formulas, lent one after another.
    pub fn iter(&self) -> Iter<'_, Formula>
        ensures rest { map formula_of (iter_rest result) ≡ self.now }
        ensures len { length (iter_rest result) ≡ length self.now }
        ensures bound { length (iter_rest result) < 2 ^ 64 }
        ensures runs { IterYieldsInOrder Formula }
        ensures runs_back { IterYieldsInReverse Formula }
    {
        self.items.iter()
    }

    /// How many formulas there are.
    pub fn len(&self) -> usize
        ensures { result ≡ length self.now }
    {
        self.items.len()
    }

    /// Whether there are none.
    pub fn is_empty(&self) -> bool
        ensures { IsTrue result ↔ (self.now ≡ []) }
    {
        self.items.is_empty()
    }

    /// Adds a formula at the end. After an out-of-memory error the list is as before.
    pub fn push(&mut self, formula: Formula) -> Mem<()>
        ensures ok { IfOk result (λ _. self.new ≡ self.old ++ formula_of formula ∷ []) }
        ensures err { OnErr result (self.new ≡ self.old) }
    {
        self.items.push(formula)?;
        Ok(())
    }
    /// An equal list.
    #[cycle(copy_formulas)]
    pub fn copy(&self, alloc: Global) -> Mem<Formulas>
        ensures { IfOk result (λ formulas. formulas ≡ self.now) }
    {
        let mut items = Vec::with_capacity(alloc, self.items.len())?;
        for formula in &self.items {
            items.push(formula.copy(alloc)?)?;
        }
        Ok(Formulas { items })
    }
}
