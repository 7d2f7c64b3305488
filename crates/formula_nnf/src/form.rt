// Formulas in negation normal form. The names and terms are those of the formula, lent.

ghost use Rattle.std.specs.Prelude.{◌≡◌, ◌++◌, [], ◌∷◌, map, IfOk, OnErr};
ghost use Rattle.formula_nnf.specs.Shape.{nnf_tree};

use plain_types::{Mem, Text, Texts};
use std::alloc::Global;
use std::marker::Model;
use tptp_tree::{TreeTerm, TreeTerms};

/// A formula in negation normal form. Its names and terms are lent, so that none is copied however often it stands in the form. The bool
/// of a literal is true where it is positive.
#[derive(Drop)]
#[cycle(nnfs)]
pub enum Nnf<'a> {
    True,
    False,
    Pred(bool, &'a Text, &'a TreeTerms),
    Equal(bool, &'a TreeTerm, &'a TreeTerm),
    And(Nnfs<'a>),
    Or(Nnfs<'a>),
    All(&'a Texts, NnfBox<'a>),
    Ex(&'a Texts, NnfBox<'a>),
}

/// A normal form of its own, in a box, which contracts see as its formula.
#[derive(Drop)]
#[cycle(nnfs)]
pub struct NnfBox<'a> {
    form: Box<Nnf<'a>>,
}

impl<'a> Model for NnfBox<'a> {
    ghost use Rattle.tptp_tree.specs.Formula.{FormulaTree, formula_size};
    ghost use Rattle.tptp_tree.specs.Codes.{formula_code};

    ghost Value = { FormulaTree };

    ghost coded = { formula_code };

    ghost use Rattle.formula_nnf.specs.Shape.{nnf_tree};

    ghost view = { λ a. nnf_tree a.form.value };

    ghost size = { formula_size };

    ghost use Rattle.std.proofs.Common.{arith};
    ghost use Rattle.formula_nnf.specs.Falls.{deep-Nnf-≤};

    ghost size_decreases = { λ a h. Prim.omega (arith, deep-Nnf-≤ a.form.value) };
}

impl<'a> NnfBox<'a> {
    /// The form in a box.
    pub fn new(alloc: Global, form: Nnf<'a>) -> Mem<NnfBox<'a>>
        ensures { IfOk result (λ boxed. boxed ≡ nnf_tree form.entry) }
    {
        Ok(NnfBox {
            form: Box::new(alloc, form)?,
        })
    }

    /// The form, lent.
    pub fn get(&self) -> &Nnf<'a>
        ensures { nnf_tree result.now ≡ self.now }
    {
        &self.form
    }
}

/// A list of normal forms, which contracts see as the list of their formulas.
#[derive(Drop)]
#[cycle(nnfs)]
pub struct Nnfs<'a> {
    items: Vec<Nnf<'a>>,
}

impl<'a> Model for Nnfs<'a> {
    ghost use Rattle.std.specs.Prelude.{List, map};
    ghost use Rattle.std.specs.Coded.{coded_list};
    ghost use Rattle.tptp_tree.specs.Formula.{FormulaTree, formulas_size, formulas_of};
    ghost use Rattle.tptp_tree.specs.Codes.{formula_code};

    ghost Value = { List FormulaTree };

    ghost coded = { coded_list formula_code };

    ghost use Rattle.formula_nnf.specs.Shape.{nnf_tree};

    ghost view = { λ a. map nnf_tree a.items.items };

    ghost size = { λ fs. formulas_size (formulas_of fs) };

    ghost use Rattle.std.proofs.Common.{arith};
    ghost use Rattle.formula_nnf.specs.Falls.{most-deep-Nnf-≤};

    ghost size_decreases = { λ a h. Prim.omega (arith, most-deep-Nnf-≤ a.items.items) };
}

impl<'a> Nnfs<'a> {
    /// The empty list. It takes no memory.
    pub fn new(alloc: Global) -> Nnfs<'a>
        ensures { result ≡ [] }
    {
        Nnfs {
            items: Vec::new(alloc),
        }
    }

    /// The forms, lent.
    pub fn as_slice(&self) -> &[Nnf<'a>]
        ensures { map nnf_tree result.now ≡ self.now }
    {
        self.items.as_slice()
    }

    /// Adds a form at the end. After an out-of-memory error the list is as before.
    pub fn push(&mut self, form: Nnf<'a>) -> Mem<()>
        ensures ok { IfOk result (λ _. self.new ≡ self.old ++ nnf_tree form.entry ∷ []) }
        ensures err { OnErr result (self.new ≡ self.old) }
    {
        self.items.push(form)?;
        Ok(())
    }
}
