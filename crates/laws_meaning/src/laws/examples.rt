// The truth of small problems in an interpretation where p holds for one of two values.

ghost use Rattle.std.specs.Prelude.{[], ◌∷◌, IsTrue, IsFalse};
ghost use Rattle.signature.specs.Truth.{is_model_of_problem};
ghost use Rattle.signature.specs.Examples.{fof_axiom, cnf_axiom, x, p_of, p_of_zero_alone, p_of_both};
ghost use Rattle.laws_meaning.specs.Meaning.{are_closed, InterpretsProblem, InterpretsForm, Extends, FormTrue, axioms_true, conjecture_true, has_conjecture, ConjectureFollows, AxiomsUnsatisfiable};
ghost use Rattle.laws_meaning.specs.Examples.{hiding_alone, p_or_loop, p_or_witness, three_values, p_for_both, two_loops, p_of_value_two, bare, every_p, some_p, all_equal, contradiction, proving, open_alone};

/// `! [X] : ( p(X) | ? [X] : r(X,X) )`, where p holds for 1 alone and r for 1 with itself: true, as the inner quantifier is the one in
/// force in `r(X,X)`; with the outer one it would say `p(0) | r(0,0)`. The form is true where its Skolem constant is 1, and isn't where
/// it is 0.
pub fn hiding_examples()
    ensures formula { IsTrue (is_model_of_problem p_or_loop hiding_alone) }
    ensures interprets { InterpretsForm hiding_alone p_or_witness }
    ensures extends { Extends hiding_alone p_or_loop p_or_witness }
    ensures form { FormTrue hiding_alone p_or_witness }
    ensures other_value { FormTrue hiding_alone p_or_loop → ⊥ }
{}

/// Neither the number of values may change nor the values of one of the problem's predicates.
pub fn extension_examples()
    ensures other_size { Extends hiding_alone p_or_loop three_values → ⊥ }
    ensures other_p { Extends hiding_alone p_or_loop p_for_both → ⊥ }
    ensures other_r { Extends hiding_alone p_or_loop two_loops → ⊥ }
{}

/// There may be any number of values but none, and a predicate has the value 0 or 1.
pub fn interpretation_examples()
    ensures one_value { InterpretsProblem hiding_alone (bare 1) }
    ensures more_values { InterpretsProblem hiding_alone three_values }
    ensures no_value { InterpretsProblem hiding_alone (bare 0) → ⊥ }
    ensures no_truth { InterpretsProblem hiding_alone p_of_value_two → ⊥ }
    ensures one_value_of_form { InterpretsForm hiding_alone (bare 1) }
    ensures no_value_of_form { InterpretsForm hiding_alone (bare 0) → ⊥ }
    ensures no_truth_of_form { InterpretsForm hiding_alone p_of_value_two → ⊥ }
{}

/// The formulas have to be closed: `p(X)` with a free X is true where p holds for 0, which a free variable stands for, and its form is
/// true only where p holds for every value. A `cnf` formula is closed.
pub fn open_examples()
    ensures closed { IsTrue (are_closed hiding_alone) }
    ensures closed_clause { IsTrue (are_closed (cnf_axiom (p_of x) ∷ [])) }
    ensures open_formula { IsFalse (are_closed open_alone) }
    ensures formula { IsTrue (is_model_of_problem p_of_zero_alone open_alone) }
    ensures no_form { FormTrue open_alone p_of_zero_alone → ⊥ }
{}

/// `! [X] : p(X)` follows from itself, and not from `? [X] : p(X)`.
pub fn consequence_examples()
    ensures interprets { InterpretsProblem (proving some_p every_p) p_of_zero_alone }
    ensures axioms { IsTrue (axioms_true p_of_zero_alone (proving some_p every_p)) }
    ensures conjecture { IsFalse (conjecture_true p_of_zero_alone (proving some_p every_p)) }
    ensures no_consequence { ConjectureFollows (proving some_p every_p) → ⊥ }
    ensures consequence { ConjectureFollows (proving every_p every_p) }
{}

/// Without a conjecture something follows only where no interpretation makes the axioms true.
pub fn conjecture_examples()
    ensures conjecture { IsTrue (has_conjecture (proving some_p every_p)) }
    ensures none { IsFalse (has_conjecture (fof_axiom every_p ∷ [])) }
    ensures no_consequence { ConjectureFollows (fof_axiom every_p ∷ []) → ⊥ }
    ensures consequence { ConjectureFollows (contradiction every_p) }
{}

/// `! [X] : p(X)` and its negation are unsatisfiable, and `! [X] : p(X)` alone isn't. Nor is `! [X] : ! [Y] : X = Y`, which is true with
/// one value alone. A conjecture is no axiom.
pub fn satisfiability_examples()
    ensures unsatisfiable { AxiomsUnsatisfiable (contradiction every_p) }
    ensures satisfiable { AxiomsUnsatisfiable (fof_axiom every_p ∷ []) → ⊥ }
    ensures by_one_value { AxiomsUnsatisfiable (fof_axiom all_equal ∷ []) → ⊥ }
    ensures not_by_two_values { IsFalse (axioms_true (bare 2) (fof_axiom all_equal ∷ [])) }
    ensures conjecture_is_no_axiom { AxiomsUnsatisfiable (proving some_p every_p) → ⊥ }
{}
