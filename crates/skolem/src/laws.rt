// Laws and worked examples of the definitions: each is the contract of a function with an empty body.

ghost use Rattle.std.specs.Prelude.{◌≡◌, [], ◌∷◌, codes, true, false};
ghost use Rattle.tptp_tree.specs.Formula.{truth as true_formula, for_all, exists_some, quantified, conjunction as formula_conjunction, disjunction as formula_disjunction, formula_then, no_formulas};
ghost use Rattle.fol_base.specs.Tree.{variable, application, no_trees, tree_then};
ghost use Rattle.signature.specs.Symbol.{function_symbol};
ghost use Rattle.signature.specs.Clausal.{atom_literal};
ghost use Rattle.signature.specs.Form.{nothing_made};
ghost use Rattle.skolem.specs.Matrix.{truth, falsity, literal, conjunction, disjunction, matrix_then, no_matrices};
ghost use Rattle.skolem.specs.MatrixClauses.{matrix_clauses};
ghost use Rattle.skolem.specs.Skolemized.{skolemized_form, skolemized_symbols, numbers_after};
ghost use Rattle.skolem.specs.SkolemizedLaws.{SkolemSymbolsOfMatrixAreCounted, MatrixKeepsClauses, MatrixOfNormalFormKeepsClauses};
ghost use Rattle.skolem.specs.ProblemLaws.{MatrixOfFormIsThatInProblem, ClausesInProblemAreThoseOfMatrix, NormalFormKeepsKnownSymbols, SkolemSymbolsAreNumberedOn, LaterNamesAreUnused};
ghost use Rattle.skolem.specs.Literal.{filled, size_under};
ghost use Rattle.skolem.specs.Outline.{product_outline, told, lasting};
ghost use Rattle.skolem.specs.Heavy.{form_has_clauses, heavy_matrix, matrix_total};
ghost use Rattle.skolem.specs.Examples.{x, y, z, p_of, r_of, f_of, known, p_literal};

/// The matrix of `! [X] : ? [Y] : r(X,Y)` is `r(X0,sk0(X0))`, and sk0 comes after the symbols that are there.
pub fn argument_examples()
    ensures matrix { (skolemized_form known (quantified for_all (x ∷ []) (quantified exists_some (y ∷ []) (r_of x y)))).matrix
        ≡ literal (atom_literal true (application 2 (tree_then (variable 0) (tree_then (application 3 (tree_then (variable 0) no_trees)) no_trees)))) }
    ensures symbols { skolemized_symbols [] (codes "sk") 7 (quantified for_all (x ∷ []) (quantified exists_some (y ∷ []) (r_of x y)))
        ≡ function_symbol (codes "sk7") 1 ∷ [] }
{}

/// A variable that doesn't occur is no argument, neither X in `! [X] : ? [Y] : p(Y)` nor the bound one; the variables of two quantifiers
/// under one conjunction are different.
pub fn scope_examples()
    ensures unused { (skolemized_form known (quantified for_all (x ∷ []) (quantified exists_some (y ∷ []) (p_of y)))).matrix
        ≡ literal (atom_literal true (application 1 (tree_then (application 3 no_trees) no_trees))) }
    ensures apart { (skolemized_form known (formula_conjunction (formula_then (quantified for_all (x ∷ []) (p_of x))
        (formula_then (quantified for_all (x ∷ []) (p_of x)) no_formulas)))).matrix
        ≡ conjunction (matrix_then (literal (atom_literal true (application 1 (tree_then (variable 0) no_trees))))
        (matrix_then (literal (atom_literal true (application 1 (tree_then (variable 1) no_trees)))) no_matrices)) }
{}

/// The terms for the variables of `f(X,Y)` stand there from left to right: with X0 and sk0(X0) it is `f(X0,sk0(X0))`, of four symbols. Here f
/// has the number 3, and sk0 the number 4.
pub fn filling_examples()
    ensures filled { filled known (f_of x y) (variable 0 ∷ application 4 (tree_then (variable 0) no_trees) ∷ [])
        ≡ application 3 (tree_then (variable 0) (tree_then (application 4 (tree_then (variable 0) no_trees)) no_trees)) }
    ensures size { size_under ((x, variable 0) ∷ (y, application 4 (tree_then (variable 0) no_trees)) ∷ []) (f_of x y) ≡ 4 }
{}

/// A conjunction's clauses come one after the other; `(p(X0) & p(X1)) | p(X2)` has the two clauses of its product; `$false` has the empty
/// clause; a disjunction carries how many variables were made before it, in `! [X] : (p(X) | p(X))` one.
pub fn clause_examples()
    ensures listed { (matrix_clauses (numbers_after known) (conjunction (matrix_then (literal (p_literal 0)) (matrix_then falsity no_matrices))) nothing_made).clauses
        ≡ (p_literal 0 ∷ []) ∷ [] ∷ [] }
    ensures product { (matrix_clauses (numbers_after known) (disjunction 3 (matrix_then
        (conjunction (matrix_then (literal (p_literal 0)) (matrix_then (literal (p_literal 1)) no_matrices)))
        (matrix_then (literal (p_literal 2)) no_matrices))) nothing_made).clauses
        ≡ (p_literal 0 ∷ p_literal 2 ∷ []) ∷ (p_literal 1 ∷ p_literal 2 ∷ []) ∷ [] }
    ensures before { (skolemized_form known (quantified for_all (x ∷ []) (formula_disjunction (formula_then (p_of x) (formula_then (p_of x) no_formulas))))).matrix
        ≡ disjunction 1 (matrix_then (literal (p_literal 0)) (matrix_then (literal (p_literal 0)) no_matrices)) }
{}

/// `$true | p(X)` has no clauses, and so no heavy literal, however large p(X) is, and no symbols; `$true & p(X)` has one. A literal p(X0) has three
/// symbols with `$true`, and two of them six, in a list or a product.
pub fn clauses_of_parts_examples()
    ensures product { form_has_clauses (formula_disjunction (formula_then true_formula (formula_then (p_of x) no_formulas))) ≡ false }
    ensures list { form_has_clauses (formula_conjunction (formula_then true_formula (formula_then (p_of x) no_formulas))) ≡ true }
    ensures light { heavy_matrix (disjunction 1 (matrix_then truth (matrix_then (literal (p_literal 0)) no_matrices))) ≡ false }
    ensures none { matrix_total (disjunction 1 (matrix_then truth (matrix_then (literal (p_literal 0)) no_matrices))) ≡ 0 }
    ensures total { matrix_total (conjunction (matrix_then truth (matrix_then (literal (p_literal 0)) (matrix_then (literal (p_literal 0)) no_matrices)))) ≡ 6 }
    ensures product_total { matrix_total (disjunction 1 (matrix_then (literal (p_literal 0)) (matrix_then (literal (p_literal 0)) no_matrices))) ≡ 6 }
{}

/// In a product of more than 64 clauses the longer list gets a name, and of two of equal length the first: with 8 clauses and 9 the second, whose
/// variable X1 was made before the work on the product began, with 9 and 9 the first. The name has three symbols with `$true` and the variable.
/// Without a name 8 and 8 clauses are 64.
pub fn product_outline_examples()
    ensures second { product_outline 2 (record { clauses = 8; largest = 5; defining = 0; variables = 0 ∷ [] })
        (record { clauses = 9; largest = 7; defining = 4; variables = 3 ∷ 1 ∷ [] })
        ≡ record { clauses = 8; largest = 8; defining = 10; variables = 0 ∷ 1 ∷ [] } }
    ensures first { product_outline 2 (record { clauses = 9; largest = 5; defining = 0; variables = 0 ∷ [] })
        (record { clauses = 9; largest = 7; defining = 4; variables = 3 ∷ 1 ∷ [] })
        ≡ record { clauses = 9; largest = 10; defining = 8; variables = 0 ∷ 3 ∷ 1 ∷ [] } }
    ensures none { product_outline 2 (record { clauses = 8; largest = 5; defining = 0; variables = 0 ∷ [] })
        (record { clauses = 8; largest = 7; defining = 4; variables = 3 ∷ 1 ∷ [] })
        ≡ record { clauses = 64; largest = 12; defining = 4; variables = 0 ∷ 3 ∷ 1 ∷ [] } }
{}

/// Sizes over 4,000 are not told apart.
pub fn told_examples()
    ensures within { told 4000 ≡ 4000 }
    ensures first_over { told 4001 ≡ 4001 }
    ensures over { told 5000 ≡ 4001 }
{}

/// In a part that stands in clauses a clause of five symbols stays as large, elsewhere only one of three that defines a name.
pub fn lasting_examples()
    ensures in_clauses { lasting true 5 3 ≡ 5 }
    ensures elsewhere { lasting false 5 3 ≡ 3 }
{}

/// The matrix of a normal form has as many Skolem symbols as are counted.
pub fn skolem_symbols_of_matrix_are_counted()
    ensures { SkolemSymbolsOfMatrixAreCounted }
{}

/// The clauses of a formula in negation normal form are those of its matrix.
pub fn matrix_keeps_clauses()
    ensures { MatrixKeepsClauses }
{}

/// The clauses of a formula with a sign are those of its normal form's matrix.
pub fn matrix_of_normal_form_keeps_clauses()
    ensures { MatrixOfNormalFormKeepsClauses }
{}

/// A form has the same matrix by itself and in its problem.
pub fn matrix_of_form_is_that_in_problem()
    ensures { MatrixOfFormIsThatInProblem }
{}

/// The clauses of a formula of a problem are those of its normal form's matrix.
pub fn clauses_in_problem_are_those_of_matrix()
    ensures { ClausesInProblemAreThoseOfMatrix }
{}

/// A normal form has no symbols but the formula's.
pub fn normal_form_keeps_known_symbols()
    ensures { NormalFormKeepsKnownSymbols }
{}

/// The Skolem symbols of a form are named by the numbers after those that were made before it.
pub fn skolem_symbols_are_numbered_on()
    ensures { SkolemSymbolsAreNumberedOn }
{}

/// The names with a fresh prefix are unused, and so are those with numbers after the ones that were given.
pub fn later_names_are_unused()
    ensures { LaterNamesAreUnused }
{}
