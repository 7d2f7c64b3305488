// Lines that are refused, each where a definition that is nearly right would take it, and lines with two causes, of which the
// first is told.

ghost use Rattle.std.specs.Prelude.{◌≡◌, false, [], ◌∷◌, codes};
ghost use Rattle.tptp_tree.specs.Formula.{falsity, negation};
ghost use Rattle.tptp_tree.specs.declared.role.Role.TheVariants.{Plain};
ghost use Rattle.tptp_source.specs.General.{variable};
ghost use Rattle.clausal_form.specs.DerivationLines.{verdict_on_lines, refused_line};
ghost use Rattle.clausal_form.specs.DerivationCauses.{text, order, unknown_parent, clausification, binding, rule, conclusion, new_symbol};
ghost use Rattle.clausal_form.specs.DerivationExamples as example;

/// Small derivations, changed.
pub fn small_refused_examples()
    ensures negated_false { example.units_answer 4 (example.clause_line (codes "c4") (negation falsity) (example.by_para [] [] (codes "c2") (codes "c3"))) ≡ refused_line 5 text }
    ensures bound_without_variables { example.units_answer 5 (example.last_line (codes "c5") (example.infer (codes "refl") (example.thm ∷ example.call (codes "lit") (example.n0 ∷ []) ∷ example.call (codes "bind") (example.n0 ∷ []) ∷ []) (codes "c4" ∷ []))) ≡ refused_line 6 binding }
    ensures two_formulas { example.units_answer 2 (example.clause_line (codes "c2") example.atom_p (example.infer (codes "clausify") (example.status (codes "esa") ∷ example.call (codes "index") (example.n0 ∷ []) ∷ []) (codes "c0" ∷ codes "c1" ∷ []))) ≡ refused_line 3 clausification }
    ensures formula_of_other_name { verdict_on_lines (example.twice (codes "z")) example.twice_lines ≡ refused_line 3 clausification }
    ensures two_variables { verdict_on_lines example.all_differ (example.all_differ_bound (variable (codes "Y") ∷ variable (codes "Z") ∷ [])) ≡ refused_line 3 rule }
    ensures merged_other_way { verdict_on_lines example.turned (example.turned_merged (example.equal example.b example.a)) ≡ refused_line 5 conclusion }
{}

/// One implication, two components and signed names, changed.
pub fn refused_line_examples()
    ensures two_conjectures { example.implication_answer 3 (example.line_as (codes "c3") Plain false (negation (example.q example.a)) (example.infer (codes "negate") (example.status (codes "cth") ∷ []) (codes "c2" ∷ codes "c2" ∷ []))) ≡ refused_line 4 rule }
    ensures new_constant_in_component { example.components_answer 6 (example.component_line (codes "c6") (example.one_of (example.p (example.constant (codes "zz")) ∷ example.not_spl0 ∷ [])) (codes "spl0")) ≡ refused_line 7 new_symbol }
    ensures predicate_as_name { example.four_clauses_answer 8 (example.component_line (codes "c8") (example.both example.atom_q (negation example.atom_p)) (codes "p")) ≡ refused_line 9 new_symbol }
{}

/// Lines of one implication with two causes: no text before no new name, this before an unknown parent, this before no such
/// clause of the form, and another conclusion before a new symbol (b is none of the form's). Among the other examples, a line
/// has an unknown parent before a wrong binding, a wrong binding before items that aren't the row's, and a rule whose condition
/// fails before a new symbol.
pub fn cause_order_examples()
    ensures text_before_order { example.implication_answer 10 (example.line_as (codes "c9") Plain false falsity (example.by_refl [] (codes "c9"))) ≡ refused_line 11 text }
    ensures order_before_parent { example.implication_answer 10 (example.last_line (codes "c9") (example.by_refl [] (codes "c99"))) ≡ refused_line 11 order }
    ensures parent_before_clausification { example.implication_answer 4 (example.first_clause_line (example.by_clausify (example.digits (codes "9")) (codes "c99"))) ≡ refused_line 5 unknown_parent }
    ensures conclusion_before_symbol { example.implication_answer 8 (example.resolved_line (example.q example.b)) ≡ refused_line 9 conclusion }
{}
