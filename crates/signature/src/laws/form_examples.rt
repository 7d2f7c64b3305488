// The clausal form of one axiom: connectives, equations, quantifiers.

ghost use Rattle.std.specs.Prelude.{◌≡◌, [], ◌∷◌, codes, true, false};
ghost use Rattle.tptp_tree.specs.Formula.{implies, implied, equivalent, different, nor, nand, for_all, exists_some, truth, falsity, equation, negation, connected, quantified};
ghost use Rattle.signature.specs.Symbol.{true_symbol, predicate_symbol, function_symbol};
ghost use Rattle.signature.specs.Examples.{symbols_of, clauses, signature_of, x, y, z, w, atom_of, p, q, p_of, r_of, a, b, all_of, one_of, v, term, literal, clause, both, unit, sides};

/// Each connective of p and q, and its negation.
pub fn connective_examples()
    ensures symbols { symbols_of (connected equivalent p q)
        ≡ true_symbol ∷ predicate_symbol (codes "p") 0 ∷ predicate_symbol (codes "q") 0 ∷ [] }
    ensures conjunction { clauses (all_of (p ∷ q ∷ [])) ≡ unit true 1 ∷ unit true 2 ∷ [] }
    ensures no_conjunction { clauses (negation (all_of (p ∷ q ∷ []))) ≡ both false false ∷ [] }
    ensures disjunction { clauses (one_of (p ∷ q ∷ [])) ≡ both true true ∷ [] }
    ensures no_disjunction { clauses (negation (one_of (p ∷ q ∷ []))) ≡ unit false 1 ∷ unit false 2 ∷ [] }
    ensures implies { clauses (connected implies p q) ≡ both false true ∷ [] }
    ensures not_implies { clauses (negation (connected implies p q)) ≡ unit true 1 ∷ unit false 2 ∷ [] }
    ensures implied { clauses (connected implied p q) ≡ both true false ∷ [] }
    ensures not_implied { clauses (negation (connected implied p q)) ≡ unit false 1 ∷ unit true 2 ∷ [] }
    ensures equivalent { clauses (connected equivalent p q) ≡ both false true ∷ both true false ∷ [] }
    ensures not_equivalent { clauses (negation (connected equivalent p q)) ≡ both true true ∷ both false false ∷ [] }
    ensures different { clauses (connected different p q) ≡ both true true ∷ both false false ∷ [] }
    ensures not_different { clauses (negation (connected different p q)) ≡ both false true ∷ both true false ∷ [] }
    ensures nor { clauses (connected nor p q) ≡ unit false 1 ∷ unit false 2 ∷ [] }
    ensures not_nor { clauses (negation (connected nor p q)) ≡ both true true ∷ [] }
    ensures nand { clauses (connected nand p q) ≡ both false false ∷ [] }
    ensures not_nand { clauses (negation (connected nand p q)) ≡ unit true 1 ∷ unit true 2 ∷ [] }
{}

/// `$true` has no clause and `$false` the empty one. Of a product the first list changes slowest.
pub fn truth_value_examples()
    ensures true_value { clauses truth ≡ [] }
    ensures false_value { clauses falsity ≡ clause [] ∷ [] }
    ensures not_true { clauses (negation truth) ≡ clause [] ∷ [] }
    ensures not_false { clauses (negation falsity) ≡ [] }
    ensures product { clauses (one_of (all_of (atom_of (codes "p") [] ∷ atom_of (codes "q") [] ∷ [])
        ∷ all_of (atom_of (codes "r") [] ∷ atom_of (codes "s") [] ∷ []) ∷ []))
        ≡ clause (literal true 1 [] ∷ literal true 3 [] ∷ []) ∷ clause (literal true 1 [] ∷ literal true 4 [] ∷ [])
        ∷ clause (literal true 2 [] ∷ literal true 3 [] ∷ []) ∷ clause (literal true 2 [] ∷ literal true 4 [] ∷ []) ∷ [] }
{}

/// `a != b` and `~ (a = b)` are one clause, and `~ (a != b)` is `a = b`.
pub fn equation_examples()
    ensures equal { clauses (equation true a b) ≡ sides true ∷ [] }
    ensures unequal { clauses (equation false a b) ≡ sides false ∷ [] }
    ensures not_equal { clauses (negation (equation true a b)) ≡ sides false ∷ [] }
    ensures not_unequal { clauses (negation (equation false a b)) ≡ sides true ∷ [] }
{}

/// `! [X] : ? [Y] : r(X,Y)` has the clause `r(X0,sk0(X0))`, and its signature ends with the spare constant `hc0`. The
/// arguments of a Skolem term are the variables of the formula alone, in the order in which they were made; those that come through
/// another Skolem term are among them.
pub fn skolem_examples()
    ensures clauses { clauses (quantified for_all (x ∷ []) (quantified exists_some (y ∷ []) (r_of x y)))
        ≡ clause (literal true 1 (v 0 ∷ term 2 (v 0 ∷ []) ∷ []) ∷ []) ∷ [] }
    ensures symbols { signature_of (quantified for_all (x ∷ []) (quantified exists_some (y ∷ []) (r_of x y)))
        ≡ true_symbol ∷ predicate_symbol (codes "r") 2 ∷ function_symbol (codes "sk0") 1 ∷ function_symbol (codes "hc0") 0 ∷ [] }
    ensures both_signs { clauses (quantified for_all (x ∷ []) (connected equivalent (p_of x) (quantified exists_some (y ∷ []) (r_of x y))))
        ≡ clause (literal false 1 (v 0 ∷ []) ∷ literal true 2 (v 0 ∷ term 3 (v 0 ∷ []) ∷ []) ∷ [])
        ∷ clause (literal true 1 (v 0 ∷ []) ∷ literal false 2 (v 0 ∷ v 1 ∷ []) ∷ []) ∷ [] }
    ensures name_bound_again { clauses (quantified for_all (x ∷ []) (one_of (p_of x ∷ quantified exists_some (x ∷ []) (r_of x x) ∷ [])))
        ≡ clause (literal true 1 (v 0 ∷ []) ∷ literal true 2 (term 3 [] ∷ term 3 [] ∷ []) ∷ []) ∷ [] }
    ensures no_spare_constant { signature_of (quantified for_all (x ∷ []) (one_of (p_of x ∷ quantified exists_some (x ∷ []) (r_of x x) ∷ [])))
        ≡ true_symbol ∷ predicate_symbol (codes "p") 1 ∷ predicate_symbol (codes "r") 2 ∷ function_symbol (codes "sk0") 0 ∷ [] }
    ensures arguments { clauses (quantified for_all (x ∷ y ∷ w ∷ []) (quantified exists_some (z ∷ []) (atom_of (codes "s") (y ∷ x ∷ z ∷ []))))
        ≡ clause (literal true 1 (v 0 ∷ v 1 ∷ term 2 (v 1 ∷ v 0 ∷ []) ∷ []) ∷ []) ∷ [] }
    ensures through_another { clauses (quantified for_all (x ∷ []) (quantified exists_some (y ∷ [])
        (all_of (r_of x y ∷ quantified exists_some (z ∷ []) (r_of y z) ∷ []))))
        ≡ clause (literal true 1 (v 0 ∷ term 2 (v 0 ∷ []) ∷ []) ∷ [])
        ∷ clause (literal true 1 (term 2 (v 0 ∷ []) ∷ term 3 (v 0 ∷ []) ∷ []) ∷ []) ∷ [] }
    ensures two { clauses (quantified for_all (x ∷ []) (quantified exists_some (y ∷ x ∷ []) (r_of x y)))
        ≡ clause (literal true 1 (term 3 [] ∷ term 2 [] ∷ []) ∷ []) ∷ [] }
{}

/// A quantifier binds what follows it alone: `! [X] : p(X) => q` isn't `! [X] : (p(X) => q)`.
pub fn scope_examples()
    ensures left_alone { clauses (connected implies (quantified for_all (x ∷ []) (p_of x)) q)
        ≡ clause (literal false 1 (term 3 [] ∷ []) ∷ literal true 2 [] ∷ []) ∷ [] }
    ensures whole { clauses (quantified for_all (x ∷ []) (connected implies (p_of x) q))
        ≡ clause (literal false 1 (v 0 ∷ []) ∷ literal true 2 [] ∷ []) ∷ [] }
{}
