// Worked derivations, as lines, and what is wrong with changed ones.

ghost use Rattle.std.specs.Prelude.{◌≡◌, true, false, [], ◌∷◌, take, codes};
ghost use Rattle.tptp_tree.specs.Formula.{negation};
ghost use Rattle.tptp_tree.specs.declared.role.Role.TheVariants.{Axiom, Plain};
ghost use Rattle.tptp_source.specs.General.{variable, negated};
ghost use Rattle.tptp_source.specs.Sources.{file_source};
ghost use Rattle.clausal_form.specs.DerivationLines.{verdict_on_lines, accepted, refused_line};
ghost use Rattle.clausal_form.specs.DerivationCauses.{text, order, unknown_parent, leaf, clausification, binding, rule, conclusion, new_symbol, no_empty_clause};
ghost use Rattle.clausal_form.specs.DerivationExamples as example;

/// Derivations that are accepted.
pub fn accepted_examples()
    ensures units { verdict_on_lines example.units example.units_lines ≡ accepted 6 }
    ensures implication { verdict_on_lines example.implication example.implication_lines ≡ accepted 11 }
    ensures rewrites { verdict_on_lines example.rewrites example.rewrites_lines ≡ accepted 9 }
    ensures merging { verdict_on_lines example.merging example.merging_lines ≡ accepted 7 }
    ensures spare_constant { verdict_on_lines example.irreflexive (example.irreflexive_bound (example.name (codes "hc0"))) ≡ accepted 3 }
    ensures other_variable { verdict_on_lines example.irreflexive (example.irreflexive_bound (variable (codes "X"))) ≡ accepted 3 }
    ensures components { verdict_on_lines example.components example.components_lines ≡ accepted 14 }
    ensures signed_names { verdict_on_lines example.four_clauses example.four_clauses_lines ≡ accepted 19 }
{}

/// Derivations that each tell one rule, accepted: an equality factoring, a merging of turned equations, a clause that comes from
/// the second of two equal formulas, two variables bound to one, and a negated pivot.
pub fn single_rule_examples()
    ensures factored { verdict_on_lines example.turned example.factored_lines ≡ accepted 8 }
    ensures merged { verdict_on_lines example.turned (example.turned_merged (example.equal example.a example.b)) ≡ accepted 7 }
    ensures twice { verdict_on_lines (example.twice (codes "a")) example.twice_lines ≡ accepted 6 }
    ensures one_variable { verdict_on_lines example.all_differ (example.all_differ_bound (variable (codes "Y") ∷ variable (codes "Y") ∷ [])) ≡ accepted 3 }
    ensures negated_pivot { example.four_clauses_answer 17 (example.clause_line (codes "c17") example.not_spl1 (example.by_chain (negated (codes "spl0") ∷ []) (codes "c15" ∷ codes "c14" ∷ []))) ≡ accepted 19 }
{}

/// One implication, changed.
pub fn changed_implication_examples()
    ensures other_term { verdict_on_lines example.implication (example.implication_bound (example.name (codes "b"))) ≡ refused_line 8 rule }
    ensures no_bindings { example.implication_answer 7 (example.para_line (example.para_items (example.thm ∷ example.from_item ∷ example.into_item ∷ []))) ≡ refused_line 8 binding }
    ensures other_clause { example.implication_answer 8 (example.resolved_line (example.q example.x)) ≡ refused_line 9 conclusion }
    ensures name_twice { example.implication_answer 10 (example.last_line (codes "c9") (example.by_refl [] (codes "c9"))) ≡ refused_line 11 order }
    ensures no_such_parent { example.implication_answer 7 (example.para_line (example.by_para [] (example.name (codes "a") ∷ []) (codes "c99") (codes "c4"))) ≡ refused_line 8 unknown_parent }
    ensures own_parent { example.implication_answer 10 (example.last_line (codes "c10") (example.by_refl [] (codes "c10"))) ≡ refused_line 11 unknown_parent }
    ensures other_formula { example.implication_answer 1 (example.line_as (codes "c1") Axiom false (example.p example.b) (example.by_file (codes "r5.p") (codes "b"))) ≡ refused_line 2 leaf }
    ensures other_index { example.implication_answer 4 (example.first_clause_line (example.by_clausify (example.digits (codes "3")) (codes "c0"))) ≡ refused_line 5 clausification }
    ensures last_line_left_out { verdict_on_lines example.implication (take 10 example.implication_lines) ≡ refused_line 10 no_empty_clause }
    ensures no_lines { verdict_on_lines example.implication [] ≡ refused_line 0 no_empty_clause }
{}

/// One implication, with other items on line 8: those with words that the row doesn't have are ignored, and those with its
/// words have to be these, in order, after the status.
pub fn item_examples()
    ensures ignored { example.implication_answer 7 (example.para_line (example.para_items (example.thm ∷ example.n1 ∷ example.from_item ∷ example.into_item ∷ example.call (codes "note") (example.n0 ∷ []) ∷ example.bind [] ∷ example.bind_a ∷ []))) ≡ accepted 11 }
    ensures before_status { example.implication_answer 7 (example.para_line (example.para_items (example.n1 ∷ example.thm ∷ example.from_item ∷ example.into_item ∷ example.bind [] ∷ example.bind_a ∷ []))) ≡ refused_line 8 rule }
    ensures other_status { example.implication_answer 7 (example.para_line (example.para_items (example.status (codes "esa") ∷ example.from_item ∷ example.into_item ∷ example.bind [] ∷ example.bind_a ∷ []))) ≡ refused_line 8 rule }
    ensures other_order { example.implication_answer 7 (example.para_line (example.para_items (example.thm ∷ example.into_item ∷ example.from_item ∷ example.bind [] ∷ example.bind_a ∷ []))) ≡ refused_line 8 rule }
    ensures bindings_exchanged { example.implication_answer 7 (example.para_line (example.para_items (example.thm ∷ example.from_item ∷ example.into_item ∷ example.bind_a ∷ example.bind [] ∷ []))) ≡ refused_line 8 binding }
    ensures bound_to_number { verdict_on_lines example.implication (example.implication_bound (example.n0)) ≡ refused_line 8 binding }
    ensures bound_to_list { verdict_on_lines example.implication (example.implication_bound (example.call (codes "f") (example.list_of [] ∷ []))) ≡ refused_line 8 binding }
    ensures leading_zero { example.implication_answer 4 (example.first_clause_line (example.by_clausify (example.digits (codes "00")) (codes "c0"))) ≡ refused_line 5 clausification }
    ensures large_index { example.implication_answer 4 (example.first_clause_line (example.by_clausify (example.digits (codes "4294967296")) (codes "c0"))) ≡ refused_line 5 clausification }
    ensures twenty_digits { example.implication_answer 8 (example.clause_line (codes "c8") (example.q example.a) (example.infer (codes "refl") (example.thm ∷ example.call (codes "lit") (example.digits (codes "99999999999999999999") ∷ []) ∷ example.bind [] ∷ []) (codes "c7" ∷ []))) ≡ refused_line 9 rule }
    ensures unknown_rule { example.implication_answer 8 (example.clause_line (codes "c8") (example.q example.a) (example.infer (codes "resolve") [] (codes "c7" ∷ []))) ≡ refused_line 9 rule }
{}

/// One implication, with other lines of formulas, and other parents of clausify lines.
pub fn formula_line_examples()
    ensures file_with_arguments { example.implication_answer 1 (example.line_as (codes "c1") Axiom false (example.p example.a) (file_source (example.call (codes "f") (example.n0 ∷ [])) (codes "b"))) ≡ refused_line 2 leaf }
    ensures other_name { example.implication_answer 1 (example.line_as (codes "c1") Axiom false (example.p example.a) (example.by_file (codes "r5.p") (codes "c"))) ≡ refused_line 2 leaf }
    ensures other_language { example.implication_answer 1 (example.line_as (codes "c1") Axiom true (example.p example.a) (example.by_file (codes "r5.p") (codes "b"))) ≡ refused_line 2 leaf }
    ensures other_role { example.implication_answer 1 (example.line_as (codes "c1") Plain false (example.p example.a) (example.by_file (codes "r5.p") (codes "b"))) ≡ refused_line 2 leaf }
    ensures negated_axiom { example.implication_answer 3 (example.line_as (codes "c3") Plain false (negation (example.p example.a)) (example.by_negate (codes "c1"))) ≡ refused_line 4 rule }
    ensures other_negation { example.implication_answer 3 (example.line_as (codes "c3") Plain false (negation (example.p example.a)) (example.by_negate (codes "c2"))) ≡ refused_line 4 conclusion }
    ensures conjecture_itself { example.implication_answer 6 (example.clause_line (codes "c6") (negation (example.q example.a)) (example.by_clausify (example.digits (codes "2")) (codes "c2"))) ≡ refused_line 7 clausification }
    ensures other_parent { example.implication_answer 4 (example.first_clause_line (example.by_clausify example.n0 (codes "c1"))) ≡ refused_line 5 clausification }
    ensures clause_with_fof { example.implication_answer 5 (example.line_as (codes "c5") Plain false (example.p example.a) (example.by_clausify example.n1 (codes "c1"))) ≡ refused_line 6 text }
    ensures formula_as_parent { example.implication_answer 7 (example.para_line (example.by_para [] (example.name (codes "a") ∷ []) (codes "c1") (codes "c4"))) ≡ refused_line 8 rule }
{}

/// Two components, signed names and other derivations, changed.
pub fn changed_name_examples()
    ensures new_constant { verdict_on_lines example.irreflexive (example.irreflexive_bound (example.name (codes "zz"))) ≡ refused_line 3 new_symbol }
    ensures merged_apart { verdict_on_lines example.merging (example.merging_with (example.p example.a) (example.name (codes "b"))) ≡ refused_line 5 rule }
    ensures merged_otherwise { verdict_on_lines example.merging (example.merging_with (example.p example.x0) (example.name (codes "a"))) ≡ refused_line 5 conclusion }
    ensures introduced_twice { example.components_answer 7 (example.component_line (codes "c7") (example.one_of (example.q example.x0 ∷ example.not_spl0 ∷ [])) (codes "spl0")) ≡ refused_line 8 new_symbol }
    ensures pivots_exchanged { example.components_answer 13 (example.last_line (codes "c13") (example.by_chain (example.name (codes "spl1") ∷ example.name (codes "spl0") ∷ []) (codes "c8" ∷ codes "c10" ∷ codes "c12" ∷ []))) ≡ refused_line 14 rule }
    ensures negated_pivot { example.components_answer 13 (example.last_line (codes "c13") (example.by_chain (negated (codes "spl0") ∷ example.name (codes "spl1") ∷ []) (codes "c8" ∷ codes "c10" ∷ codes "c12" ∷ []))) ≡ refused_line 14 rule }
    ensures part_twice { example.components_answer 8 (example.clause_line (codes "c8") (example.one_of (example.spl0 ∷ example.spl1 ∷ [])) (example.by_split ((example.n0 ∷ []) ∷ (example.n0 ∷ []) ∷ []) (codes "c3" ∷ codes "c6" ∷ codes "c7" ∷ []))) ≡ refused_line 9 rule }
    ensures names_exchanged { example.components_answer 8 (example.clause_line (codes "c8") (example.one_of (example.spl1 ∷ example.spl0 ∷ [])) (example.by_split ((example.n0 ∷ []) ∷ (example.n1 ∷ []) ∷ []) (codes "c3" ∷ codes "c6" ∷ codes "c7" ∷ []))) ≡ refused_line 9 text }
    ensures name_in_front { example.components_answer 6 (example.component_line (codes "c6") (example.one_of (example.not_spl0 ∷ example.p example.x0 ∷ [])) (codes "spl0")) ≡ refused_line 7 text }
    ensures positive_name { example.components_answer 6 (example.component_line (codes "c6") (example.one_of (example.p example.x0 ∷ example.spl0 ∷ [])) (codes "spl0")) ≡ refused_line 7 rule }
    ensures body_of_two_literals { verdict_on_lines example.four_clauses_and (example.four_clauses_with (example.one_of (example.atom_p ∷ example.r_of_a ∷ example.not_spl0 ∷ []))) ≡ refused_line 11 rule }
{}
