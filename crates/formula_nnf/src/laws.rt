// Worked examples of the definitions: each is the contract of a function with an empty body.

ghost use Rattle.std.specs.Prelude.{◌≡◌, [], ◌∷◌, codes, true, false};
ghost use Rattle.tptp_tree.specs.Formula.{equivalent, different, for_all, truth, connected, quantified, conjunction, disjunction, negation, formula_then, no_formulas};
ghost use Rattle.formula_nnf.specs.NormalForm.{normal_form};
ghost use Rattle.formula_nnf.specs.NormalFormLaws.{NormalFormKeepsClauses};
ghost use Rattle.formula_nnf.specs.ClauseCountLaws.{ClausesAreCounted};
ghost use Rattle.formula_nnf.specs.Expanded.{expanded_count};
ghost use Rattle.formula_nnf.specs.ClauseCount.{clause_counts};
ghost use Rattle.formula_nnf.specs.Examples.{p, q, nested, pairs};

/// Equivalences are written out: `p <=> q` has four atoms, 18 nested ones fewer than a million, and 19 more. Truth values count as atoms
/// do, and quantified variables too.
pub fn expanded_examples()
    ensures one { expanded_count (connected equivalent p q) ≡ 4 }
    ensures below { expanded_count (nested 18) ≡ 786430 }
    ensures above { expanded_count (nested 19) ≡ 1572862 }
    ensures variables { expanded_count (quantified for_all (codes "X" ∷ codes "Y" ∷ []) (connected different p truth)) ≡ 6 }
{}

/// `p <=> q` has two clauses. The disjunction of 13 pairs has two, and 128 that define two names; that of 6 has 64, and no name.
pub fn clause_count_examples()
    ensures equivalence { clause_counts (connected equivalent p q) true ≡ record { clauses = 2; defining = 0 } }
    ensures named { clause_counts (disjunction (pairs 13)) true ≡ record { clauses = 2; defining = 128 } }
    ensures unnamed { clause_counts (disjunction (pairs 6)) true ≡ record { clauses = 64; defining = 0 } }
{}

/// The normal form of `p <=> q` is `(~p | q) & (p | ~q)`, and that of its negation `(p | q) & (~p | ~q)`.
pub fn normal_form_examples()
    ensures positive { normal_form (connected equivalent p q) true
        ≡ conjunction (formula_then (disjunction (formula_then (negation p) (formula_then q no_formulas)))
        (formula_then (disjunction (formula_then p (formula_then (negation q) no_formulas))) no_formulas)) }
    ensures negative { normal_form (connected equivalent p q) false
        ≡ conjunction (formula_then (disjunction (formula_then p (formula_then q no_formulas)))
        (formula_then (disjunction (formula_then (negation p) (formula_then (negation q) no_formulas))) no_formulas)) }
{}

/// The clauses of a normal form are those of the formula under its sign.
pub fn normal_form_keeps_clauses()
    ensures { NormalFormKeepsClauses }
{}

/// The work on a formula gives as many clauses as are counted.
pub fn clauses_are_counted()
    ensures { ClausesAreCounted }
{}
