// Laws and worked examples of the definitions: each is the contract of a function with an empty body.

ghost use Rattle.std.specs.Prelude.{◌≡◌, ◌+◌, ◌-◌, ◌^◌, ◌++◌, [], ◌∷◌, codes, Some, None};
ghost use Rattle.signature.specs.Examples.{cnf_axiom, p, mixed};
ghost use Rattle.signature.specs.Form.{symbol_numbers, nothing_made};
ghost use Rattle.signature.specs.Symbol.{function_symbol};
ghost use Rattle.skolem.specs.Matrix.{truth, literal, conjunction, disjunction, matrices_of};
ghost use Rattle.skolem.specs.Examples.{known, p_literal};
ghost use Rattle.skolem.specs.Outline.{outline_of, named_outline};
ghost use Rattle.clausal_form.specs.Examples.{proposition, all_of, one_of, one_skolem_symbol_made};
ghost use Rattle.clausal_form.specs.FormFunctions.{functions_of};
ghost use Rattle.clausal_form.specs.Occurring.{matrix_variables};
ghost use Rattle.clausal_form.specs.Written.{written};
ghost use Rattle.clausal_form.specs.Measure.{measured};
ghost use Rattle.clausal_form.specs.Fault.{limit_fault, formula_fault, fault_or, form_fault};
ghost use Rattle.clausal_form.specs.declared.fault.FormCause.TheVariants.{TooHeavy, TotalLimit};
ghost use Rattle.clausal_form.specs.declared.fault.TheConstants.{MOST_EXPANDED};
ghost use Rattle.clausal_form.specs.FaultLaws.{FaultsWithoutNumbers};

mod derivation_examples;
mod derivation_texts;
mod derivations;
mod forms;
mod refused_examples;

pub use derivation_examples::{
    accepted_examples, changed_implication_examples, changed_name_examples, formula_line_examples,
    item_examples, single_rule_examples,
};
pub use derivation_texts::text_examples;
pub use derivations::{
    accepted_derivations_refute, forms_have_functions, spelled_lines_are_answered,
    taken_lines_are_steps, texts_have_one_answer,
};
pub use forms::{clauses_of_forms, forms_are_well_formed};
pub use refused_examples::{cause_order_examples, refused_line_examples, small_refused_examples};

/// In a product the first list changes slowest, and with `$true` it has no clause.
pub fn written_examples()
    ensures product { written (one_of (all_of (1 ∷ 2 ∷ []) ∷ all_of (3 ∷ 4 ∷ []) ∷ []))
        ≡ (proposition 1 ∷ proposition 3 ∷ []) ∷ (proposition 1 ∷ proposition 4 ∷ [])
        ∷ (proposition 2 ∷ proposition 3 ∷ []) ∷ (proposition 2 ∷ proposition 4 ∷ []) ∷ [] }
    ensures none { written (one_of (all_of (1 ∷ 2 ∷ []) ∷ truth ∷ [])) ≡ [] }
{}

/// Four clauses of two atoms each, an atom of two symbols with `$true`.
pub fn measure_examples()
    ensures product { measured (written (one_of (all_of (1 ∷ 2 ∷ []) ∷ all_of (3 ∷ 4 ∷ []) ∷ [])))
        ≡ record { clauses = 4; symbols = 16; largest = 4 } }
    ensures none { measured [] ≡ record { clauses = 0; symbols = 0; largest = 0 } }
{}

/// `p(X0) & (p(X1) | p(X2))` has clauses of 3 and of 6 symbols. A name that stands for them in a product that was begun after one variable has the
/// argument X0, and its largest defining clause 9 symbols. With `$true` a product has no clause.
pub fn outline_examples()
    ensures listed { outline_of (conjunction (matrices_of (literal (p_literal 0) ∷ disjunction 0 (matrices_of (literal (p_literal 1) ∷ literal (p_literal 2) ∷ [])) ∷ [])))
        ≡ record { clauses = 2; largest = 6; defining = 0; variables = 0 ∷ 1 ∷ 2 ∷ [] } }
    ensures named { named_outline 1 (record { clauses = 2; largest = 6; defining = 0; variables = 0 ∷ 1 ∷ 2 ∷ [] })
        ≡ record { clauses = 1; largest = 3; defining = 9; variables = 0 ∷ [] } }
    ensures none { outline_of (one_of (all_of (1 ∷ 2 ∷ []) ∷ truth ∷ [])) ≡ record { clauses = 0; largest = 0; defining = 0; variables = [] } }
{}

/// A product with a member that has no clauses has none of its variables; function symbols keep their numbers among the predicates.
pub fn occurring_examples()
    ensures left_out { matrix_variables (conjunction (matrices_of (disjunction 0 (matrices_of (literal (p_literal 0) ∷ truth ∷ [])) ∷ literal (p_literal 1) ∷ [])))
        ≡ 1 ∷ [] }
    ensures functions { functions_of (known ++ function_symbol (codes "f") 2 ∷ []) ≡ record { number = 3; arity = 2 } ∷ [] }
{}

/// A limit itself isn't passed. Of two limits that are passed the fault is that of the clause. The limit on what is written out.
pub fn limit_examples()
    ensures expanded { MOST_EXPANDED ≡ 1000000 }
    ensures within { limit_fault 4000 (2 ^ 28) ≡ None }
    ensures too_heavy { limit_fault 4001 (2 ^ 28) ≡ Some TooHeavy }
    ensures total_limit { limit_fault 4000 (2 ^ 28 + 1) ≡ Some TotalLimit }
    ensures both { limit_fault 4001 (2 ^ 28 + 1) ≡ Some TooHeavy }
{}

/// After 2^28 less 3 symbols and clauses the clause `p` passes no limit, since it counts 3; after one more it does. Skolem symbols of
/// earlier formulas count. The first fault is that of the first formula that has one.
pub fn fault_examples()
    ensures within { formula_fault (symbol_numbers (cnf_axiom p ∷ [])) (cnf_axiom p) (2 ^ 28 - 3) nothing_made ≡ None }
    ensures one_more { formula_fault (symbol_numbers (cnf_axiom p ∷ [])) (cnf_axiom p) (2 ^ 28 - 2) nothing_made ≡ Some TotalLimit }
    ensures skolem_within { formula_fault (symbol_numbers (cnf_axiom p ∷ [])) (cnf_axiom p) (2 ^ 28 - 4) one_skolem_symbol_made ≡ None }
    ensures skolem_one_more { formula_fault (symbol_numbers (cnf_axiom p ∷ [])) (cnf_axiom p) (2 ^ 28 - 3) one_skolem_symbol_made ≡ Some TotalLimit }
    ensures no_fault { form_fault mixed ≡ None }
    ensures first { fault_or (Some TooHeavy) (codes "a") (Some (TotalLimit, codes "b")) ≡ Some (TooHeavy, codes "a") }
    ensures second { fault_or None (codes "a") (Some (TotalLimit, codes "b")) ≡ Some (TotalLimit, codes "b") }
{}

/// The first fault of a problem doesn't depend on the numbers of its symbols.
pub fn faults_without_numbers()
    ensures { FaultsWithoutNumbers }
{}
