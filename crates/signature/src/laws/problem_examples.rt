// The clausal form of problems of several entries.

ghost use Rattle.std.specs.Prelude.{◌≡◌, [], ◌∷◌, ◌++◌, codes, true, false, map, drop};
ghost use Rattle.tptp_tree.specs.Formula.{for_all, negation, quantified};
ghost use Rattle.tptp_tree.specs.declared.role.Role.TheVariants.{Conjecture};
ghost use Rattle.fol_base.specs.Canonical.{numbers_from};
ghost use Rattle.signature.specs.Symbol.{true_symbol, predicate_symbol, function_symbol};
ghost use Rattle.signature.specs.Environment.{closed};
ghost use Rattle.signature.specs.Form.{clausal_form};
ghost use Rattle.signature.specs.Examples.{entry, cnf_axiom, x, y, p, p_of, r_of, one_of, v, term, literal, clause, before_each, mixed, nine_by_nine};

/// `? [X] : p(X)`, the conjecture `! [X] : p(X)`, and with `cnf` the clause `p(X) | ~r(Y,X)`.
pub fn entry_examples()
    ensures clauses { (clausal_form mixed).clauses
        ≡ clause (literal true 1 (term 3 [] ∷ []) ∷ []) ∷ clause (literal false 1 (term 4 [] ∷ []) ∷ [])
        ∷ clause (literal true 1 (v 0 ∷ []) ∷ literal false 2 (v 1 ∷ v 0 ∷ []) ∷ []) ∷ [] }
    ensures origins { (clausal_form mixed).origins ≡ 0 ∷ 1 ∷ 2 ∷ [] }
    ensures symbols { (clausal_form mixed).symbols
        ≡ true_symbol ∷ predicate_symbol (codes "p") 1 ∷ predicate_symbol (codes "r") 2
        ∷ function_symbol (codes "sk0") 0 ∷ function_symbol (codes "sk1") 0 ∷ [] }
    ensures closed { closed (cnf_axiom (one_of (p_of x ∷ negation (r_of y x) ∷ [])))
        ≡ quantified for_all (x ∷ y ∷ []) (one_of (p_of x ∷ negation (r_of y x) ∷ [])) }
    ensures closed_already { closed (cnf_axiom p) ≡ p }
    ensures negated_clause { (clausal_form (entry Conjecture true (p_of x) ∷ [])).clauses
        ≡ clause (literal false 1 (term 2 [] ∷ []) ∷ []) ∷ [] }
{}

/// Two axioms, in each the disjunction of nine by nine atoms: the clauses of the first with those that define its name, then those of
/// the second.
pub fn names_of_problem_examples()
    ensures clauses { (clausal_form nine_by_nine).clauses
        ≡ before_each (literal true 37 []) 10 9 [] ++ before_each (literal false 37 []) 1 9 []
        ++ before_each (literal true 38 []) 28 9 [] ++ before_each (literal false 38 []) 19 9 [] }
    ensures origins { (clausal_form nine_by_nine).origins ≡ map (λ n. 0) (numbers_from 0 18) ++ map (λ n. 1) (numbers_from 0 18) }
    ensures symbols { drop 37 (clausal_form nine_by_nine).symbols
        ≡ predicate_symbol (codes "nm0") 0 ∷ predicate_symbol (codes "nm1") 0 ∷ function_symbol (codes "hc0") 0 ∷ [] }
{}
