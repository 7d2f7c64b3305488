// The truth of formulas and problems, where p holds for one of two values, or for the only one.

ghost use Rattle.std.specs.Prelude.{[], ◌∷◌, true, false, IsTrue, IsFalse};
ghost use Rattle.tptp_tree.specs.Term.{variable};
ghost use Rattle.tptp_tree.specs.Formula.{implies, implied, equivalent, different, nor, nand, for_all, exists_some, truth, falsity, equation, negation, connected, quantified};
ghost use Rattle.signature.specs.Truth.{formula_true, is_model_of_problem};
ghost use Rattle.signature.specs.Examples.{fof_axiom, cnf_axiom, conjecture, symbols_of, x, y, p, q, p_of, a, b, f_of, all_of, one_of, p_of_zero_alone, where_p_holds, where_f_exchanges};

/// `! [X] : p(X) => q` and `! [X] : (p(X) => q)` where p holds for one of two values, and q doesn't hold.
pub fn formula_truth_examples()
    ensures left_alone { IsTrue (formula_true (symbols_of (connected implies (quantified for_all (x ∷ []) (p_of x)) q)) p_of_zero_alone
        (connected implies (quantified for_all (x ∷ []) (p_of x)) q) []) }
    ensures whole { IsFalse (formula_true (symbols_of (quantified for_all (x ∷ []) (connected implies (p_of x) q))) p_of_zero_alone
        (quantified for_all (x ∷ []) (connected implies (p_of x) q)) []) }
    ensures some { IsTrue (formula_true (symbols_of (p_of x)) p_of_zero_alone (quantified exists_some (x ∷ []) (p_of x)) []) }
{}

/// Each connective where p is true and q is false.
pub fn connective_truth_examples()
    ensures conjunction { IsFalse (where_p_holds (all_of (p ∷ q ∷ []))) }
    ensures of_one { IsTrue (where_p_holds (all_of (p ∷ p ∷ []))) }
    ensures disjunction { IsTrue (where_p_holds (one_of (q ∷ p ∷ []))) }
    ensures of_none { IsFalse (where_p_holds (one_of (q ∷ q ∷ []))) }
    ensures implies { IsFalse (where_p_holds (connected implies p q)) }
    ensures implied { IsTrue (where_p_holds (connected implied p q)) }
    ensures not_implied { IsFalse (where_p_holds (connected implied q p)) }
    ensures equivalent { IsFalse (where_p_holds (connected equivalent p q)) }
    ensures of_false_ones { IsTrue (where_p_holds (connected equivalent q q)) }
    ensures different { IsTrue (where_p_holds (connected different p q)) }
    ensures of_true_ones { IsFalse (where_p_holds (connected different p p)) }
    ensures nor { IsFalse (where_p_holds (connected nor p q)) }
    ensures neither { IsTrue (where_p_holds (connected nor q q)) }
    ensures nand { IsTrue (where_p_holds (connected nand p q)) }
    ensures not_both { IsFalse (where_p_holds (connected nand p p)) }
    ensures true_value { IsTrue (where_p_holds truth) }
    ensures false_value { IsFalse (where_p_holds falsity) }
{}

/// `a = b` and `f(a) = b` where a is 0, b is 1 and f exchanges them.
pub fn equation_truth_examples()
    ensures different { IsFalse (where_f_exchanges (equation true a b)) }
    ensures unequal { IsTrue (where_f_exchanges (equation false a b)) }
    ensures applied { IsTrue (where_f_exchanges (equation true (f_of a) b)) }
    ensures nested { IsFalse (where_f_exchanges (equation true (f_of (f_of a)) b)) }
    ensures each_value { IsTrue (where_f_exchanges (quantified for_all (x ∷ [])
        (quantified exists_some (y ∷ []) (equation true (f_of (variable y)) (variable x))))) }
{}

/// A name that is bound again has the inner value: where p holds for 0 alone, some value has p, and then not all have it.
pub fn hidden_truth_examples()
    ensures all_inside { IsFalse (formula_true (symbols_of (p_of x)) p_of_zero_alone
        (quantified exists_some (x ∷ []) (all_of (p_of x ∷ quantified for_all (x ∷ []) (p_of x) ∷ []))) []) }
    ensures some_inside { IsTrue (formula_true (symbols_of (p_of x)) p_of_zero_alone
        (quantified exists_some (x ∷ []) (all_of (negation (p_of x) ∷ quantified exists_some (x ∷ []) (p_of x) ∷ []))) []) }
{}

/// `? [X] : p(X)` is true and `! [X] : p(X)` false, so the second doesn't follow from the first. A `cnf` formula is true for all values.
pub fn problem_truth_examples()
    ensures some { IsTrue (is_model_of_problem p_of_zero_alone (fof_axiom (quantified exists_some (x ∷ []) (p_of x)) ∷ [])) }
    ensures all { IsFalse (is_model_of_problem p_of_zero_alone (fof_axiom (quantified for_all (x ∷ []) (p_of x)) ∷ [])) }
    ensures all_from_some { IsTrue (is_model_of_problem p_of_zero_alone
        (fof_axiom (quantified exists_some (x ∷ []) (p_of x)) ∷ conjecture (quantified for_all (x ∷ []) (p_of x)) ∷ [])) }
    ensures some_from_some { IsFalse (is_model_of_problem p_of_zero_alone
        (fof_axiom (quantified exists_some (x ∷ []) (p_of x)) ∷ conjecture (quantified exists_some (x ∷ []) (p_of x)) ∷ [])) }
    ensures all_from_all { IsFalse (is_model_of_problem p_of_zero_alone
        (fof_axiom (quantified for_all (x ∷ []) (p_of x)) ∷ conjecture (quantified for_all (x ∷ []) (p_of x)) ∷ [])) }
    ensures clause { IsFalse (is_model_of_problem p_of_zero_alone (cnf_axiom (p_of x) ∷ [])) }
    ensures clause_with_negation { IsTrue (is_model_of_problem p_of_zero_alone (cnf_axiom (one_of (p_of x ∷ negation (p_of x) ∷ [])) ∷ [])) }
{}
