// Typed formulas over names.

ghost use Rattle.std.specs.Prelude.{◌≡◌, ◌++◌, [], ◌∷◌, length, map, IfOk, OnErr};
ghost use Rattle.typed_tree.specs.Shape.{typed_of};

use crate::sort::TypedVars;
use plain_types::{Mem, Text};
use std::alloc::Global;
use std::marker::Model;
use tptp_tree::{TreeTerm, TreeTerms};

/// A typed first-order formula (Sutcliffe 2017): an untyped one in which quantifiers bind variables with sorts.
#[derive(Drop)]
#[cycle(typed_formulas)]
pub enum TypedFormula {
    True,
    False,
    Pred(Text, TreeTerms),
    Equal(TreeTerm, TreeTerm),
    NotEqual(TreeTerm, TreeTerm),
    Not(TypedBox),
    And(TypedFormulas),
    Or(TypedFormulas),
    Implies(TypedBox, TypedBox),
    Implied(TypedBox, TypedBox),
    Iff(TypedBox, TypedBox),
    Xor(TypedBox, TypedBox),
    Nor(TypedBox, TypedBox),
    Nand(TypedBox, TypedBox),
    All(TypedVars, TypedBox),
    Ex(TypedVars, TypedBox),
}

/// A typed formula of its own, in a box, which contracts see as its tree.
#[derive(Drop)]
#[cycle(typed_formulas)]
pub struct TypedBox {
    formula: Box<TypedFormula>,
}

impl Model for TypedBox {
    ghost use Rattle.typed_tree.specs.TypedFormula.{TypedTree, typed_size};
    ghost use Rattle.typed_tree.specs.Codes.{typed_code};

    ghost Value = { TypedTree };

    ghost coded = { typed_code };

    ghost use Rattle.typed_tree.specs.Shape.{typed_of};

    ghost view = { λ a. typed_of a.formula.value };

    ghost size = { typed_size };

    ghost use Rattle.std.proofs.Common.{arith};
    ghost use Rattle.typed_tree.specs.Falls.{deep-TypedFormula-≤};

    ghost size_decreases = { λ a h. Prim.omega (arith, deep-TypedFormula-≤ a.formula.value) };
}

impl TypedBox {
    /// The formula in a box.
    pub fn new(alloc: Global, formula: TypedFormula) -> Mem<TypedBox>
        ensures { IfOk result (λ boxed. boxed ≡ typed_of formula) }
    {
        Ok(TypedBox {
            formula: Box::new(alloc, formula)?,
        })
    }

    /// The formula, lent.
    pub fn get(&self) -> &TypedFormula
        ensures { typed_of result.now ≡ self.now }
    {
        &self.formula
    }
}

/// A list of typed formulas, which contracts see as the list of their trees.
#[derive(Drop)]
#[cycle(typed_formulas)]
pub struct TypedFormulas {
    items: Vec<TypedFormula>,
}

impl Model for TypedFormulas {
    ghost use Rattle.std.specs.Prelude.{List, map};
    ghost use Rattle.std.specs.Coded.{coded_list};
    ghost use Rattle.typed_tree.specs.TypedFormula.{TypedTree, all_typed_size, trees_of};
    ghost use Rattle.typed_tree.specs.Codes.{typed_code};

    ghost Value = { List TypedTree };

    ghost coded = { coded_list typed_code };

    ghost use Rattle.typed_tree.specs.Shape.{typed_of};

    ghost view = { λ a. map typed_of a.items.items };

    ghost size = { λ fs. all_typed_size (trees_of fs) };

    ghost use Rattle.std.proofs.Common.{arith};
    ghost use Rattle.typed_tree.specs.Falls.{most-deep-TypedFormula-≤};

    ghost size_decreases = { λ a h. Prim.omega (arith, most-deep-TypedFormula-≤ a.items.items) };
}

impl TypedFormulas {
    /// The empty list. It takes no memory.
    pub fn new(alloc: Global) -> TypedFormulas
        ensures { result ≡ [] }
    {
        TypedFormulas {
            items: Vec::new(alloc),
        }
    }

    /// The formulas, lent.
    pub fn as_slice(&self) -> &[TypedFormula]
        ensures { map typed_of result.now ≡ self.now }
    {
        self.items.as_slice()
    }

    /// How many formulas there are.
    pub fn len(&self) -> usize
        ensures { result ≡ length self.now }
    {
        self.items.len()
    }

    /// Adds a formula at the end. After an out-of-memory error the list is as before.
    pub fn push(&mut self, formula: TypedFormula) -> Mem<()>
        ensures ok { IfOk result (λ _. self.new ≡ self.old ++ typed_of formula ∷ []) }
        ensures err { OnErr result (self.new ≡ self.old) }
    {
        self.items.push(formula)?;
        Ok(())
    }

    /// Gives back the room after the last formula. It takes no memory.
    pub fn shrink_to_fit(&mut self)
        ensures { self.new ≡ self.old }
    {
        self.items.shrink_to_fit();
    }
}
