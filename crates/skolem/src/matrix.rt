// Formulas without quantifiers.

ghost use Rattle.std.specs.Prelude.{◌≡◌, ◌++◌, [], ◌∷◌, map, IfOk, OnErr};
ghost use Rattle.skolem.specs.Shape.{matrix_tree};

use crate::literal::MatrixLiteral;
use plain_types::Mem;
use std::alloc::Global;
use std::marker::Model;

/// A formula without quantifiers, over literals of clauses.
#[derive(Drop)]
#[cycle(matrices)]
pub enum Matrix<'a> {
    True,
    False,
    Lit(MatrixLiteral<'a>),
    And(Matrices<'a>),
    /// How many variables of the formula were made before the work on the disjunction began: they alone may be arguments of a name
    /// that is given to a part of its product.
    Or { made: u32, members: Matrices<'a> },
}

/// A list of matrices, which contracts see as the list of their trees.
#[derive(Drop)]
#[cycle(matrices)]
pub struct Matrices<'a> {
    items: Vec<Matrix<'a>>,
}

impl<'a> Model for Matrices<'a> {
    ghost use Rattle.std.specs.Prelude.{List, map};
    ghost use Rattle.std.specs.Coded.{coded_list};
    ghost use Rattle.skolem.specs.Matrix.{MatrixTree, matrices_size, matrices_of};
    ghost use Rattle.skolem.specs.MatrixCode.{matrix_code};

    ghost Value = { List MatrixTree };

    ghost coded = { coded_list matrix_code };

    ghost use Rattle.skolem.specs.Shape.{matrix_tree};

    ghost view = { λ a. map matrix_tree a.items.items };

    ghost size = { λ ms. matrices_size (matrices_of ms) };

    ghost use Rattle.std.proofs.Common.{arith};
    ghost use Rattle.skolem.specs.Falls.{most-deep-Matrix-≤};

    ghost size_decreases = { λ a h. Prim.omega (arith, most-deep-Matrix-≤ a.items.items) };
}

impl<'a> Matrices<'a> {
    /// The empty list. It takes no memory.
    pub fn new(alloc: Global) -> Matrices<'a>
        ensures { result ≡ [] }
    {
        Matrices {
            items: Vec::new(alloc),
        }
    }

    /// The vector of the list's matrices. It takes no memory.
    pub fn into_vec(self) -> Vec<Matrix<'a>>
        ensures { map matrix_tree result.items ≡ self.entry }
    {
        self.items
    }

    /// The matrices, lent.
    pub fn as_slice(&self) -> &[Matrix<'a>]
        ensures { map matrix_tree result.now ≡ self.now }
    {
        self.items.as_slice()
    }

    /// Adds a matrix at the end. After an out-of-memory error the list is as before.
    pub fn push(&mut self, matrix: Matrix<'a>) -> Mem<()>
        ensures ok { IfOk result (λ _. self.new ≡ self.old ++ matrix_tree matrix.entry ∷ []) }
        ensures err { OnErr result (self.new ≡ self.old) }
    {
        self.items.push(matrix)?;
        Ok(())
    }
}
