// Worked examples of compatible terms, unifiers, matchers, subsumption, kinds of terms and well-formed literals.

ghost use Rattle.std.specs.Prelude.{◌≡◌, [], ◌∷◌, true, false, IsTrue, IsFalse};
ghost use Rattle.plain_types.specs.Names.{positive_of, negative_of};
ghost use Rattle.fol_base.specs.Instance.{Substitution};
ghost use Rattle.fol_base.specs.Compatible.{compatible, compatible_generalisation, compatible_instance};
ghost use Rattle.fol_base.specs.Unifier.{IsUnifier, IsUnifierApart, IsMostGeneralUnifier, IsMostGeneralUnifierApart, IsMatcher};
ghost use Rattle.fol_base.specs.Subsumption.{Subsumes, assertions, is_among};
ghost use Rattle.fol_base.specs.Kind.{is_literal, are_predicate_atoms, is_predicate_of, PutsFunctionTerms};
ghost use Rattle.fol_base.specs.WellFormed.{is_term_of, is_literal_of, are_literals_of, are_symbols_of, WellFormed, PutsFunctionTermsOf};
ghost use Rattle.fol_base.specs.Symbols.{are_function_symbols, have_one_arity, has_constant, FunctionSymbols};
ghost use Rattle.fol_base.specs.Tree.{true_tree};
ghost use Rattle.fol_base.specs.GroundForm.{is_atom_literal, IsGroundForm, form_size};
ghost use Rattle.fol_base.specs.Examples.{x, a, b, f, f₂, g, p, q, r, equation, clause, is_predicate, symbols, with_predicate, with_two_arities, use_of_symbols, all_a, all_b, first_is, even, odd, first_is_a};
ghost use Rattle.fol_base.specs.Rules.{disequation};

/// Entries that may unify with a query, generalise it or be instances of it.
pub fn compatible_examples()
    ensures left_variable { IsTrue (compatible (f₂ (x 0) a) (f₂ b a)) }
    ensures right_variable { IsTrue (compatible (f₂ b (x 0)) (f₂ b a)) }
    ensures other_head { IsFalse (compatible (g a) (f₂ b a)) }
    ensures generalisation_on_the_right { IsTrue (compatible_generalisation (f₂ b (x 0)) (f₂ b a)) }
    ensures other_head_no_generalisation { IsFalse (compatible_generalisation (g a) (f₂ b a)) }
    ensures generalisation { IsTrue (compatible_generalisation (f₂ (x 0) a) (f₂ b a)) }
    ensures no_generalisation { IsFalse (compatible_generalisation (f₂ b a) (f₂ (x 0) a)) }
    ensures instance_of_query { IsTrue (compatible_instance (f₂ (x 0) a) (f₂ (x 0) (x 1))) }
    ensures instance_on_the_right { IsTrue (compatible_instance (f₂ b (x 0)) (f₂ (x 0) (x 1))) }
    ensures other_head_no_instance { IsFalse (compatible_instance (g a) (f₂ (x 0) (x 1))) }
    ensures no_instance { IsFalse (compatible_instance (f₂ (x 0) a) (f₂ b a)) }
{}

/// Unifiers and matchers.
pub fn unifier_examples()
    ensures apart { IsUnifierApart (f₂ (x 0) b) (f₂ a (x 0)) all_a all_b }
    ensures most_general_apart { IsMostGeneralUnifierApart (f₂ (x 0) b) (f₂ a (x 0)) (first_is a even) (first_is b odd) }
    ensures occurs { (σ : Substitution) → IsUnifier (x 0) (f (x 0)) σ → ⊥ }
    ensures most_general { IsMostGeneralUnifier (x 0) a first_is_a }
    ensures matched { IsMatcher (f₂ (x 0) (x 0)) (f₂ a a) all_a }
    ensures not_matched { (σ : Substitution) → IsMatcher (f₂ (x 0) (x 0)) (f₂ a b) σ → ⊥ }
{}

/// The literals that function terms, predicate terms and `$true` make.
pub fn kind_examples()
    ensures equation_of_function_terms { IsTrue (is_literal is_predicate (equation (f (x 0)) b)) }
    ensures atom { IsTrue (is_literal is_predicate (p a)) }
    ensures negated_truth { IsTrue (is_literal is_predicate (disequation true_tree true_tree)) }
    ensures variable_and_truth { IsFalse (is_literal is_predicate (equation (x 0) true_tree)) }
    ensures atom_below_a_function { IsFalse (is_literal is_predicate (equation (f (p a).left) b)) }
    ensures atoms { IsTrue (are_predicate_atoms is_predicate (clause (p a ∷ []) ∷ clause (r ∷ disequation (q a).left true_tree ∷ []) ∷ [])) }
    ensures no_atoms { IsFalse (are_predicate_atoms is_predicate (clause (p a ∷ equation a b ∷ []) ∷ [])) }
    ensures function_terms_put { PutsFunctionTerms is_predicate all_a }
    ensures atoms_put { PutsFunctionTerms is_predicate (λ _. (p a).left) → ⊥ }
{}

/// Lists of function symbols, and of the answers whether a symbol is a predicate.
pub fn symbol_examples()
    ensures function_symbols { IsTrue (are_function_symbols is_predicate symbols) }
    ensures no_function_symbol { IsFalse (are_function_symbols is_predicate with_predicate) }
    ensures no_list_with_a_predicate { (functions : FunctionSymbols is_predicate) → functions.symbols ≡ with_predicate → ⊥ }
    ensures one_arity { IsTrue (have_one_arity symbols) }
    ensures two_arities { IsFalse (have_one_arity with_two_arities) }
    ensures constant { IsTrue (has_constant symbols) }
    ensures no_constant { IsFalse (has_constant (record { number = 4; arity = 1 } ∷ [])) }
    ensures as_used { IsTrue (are_symbols_of use_of_symbols symbols) }
    ensures not_as_used { IsFalse (are_symbols_of use_of_symbols with_two_arities) }
    ensures listed_predicate { IsTrue (is_predicate_of (false ∷ true ∷ []) 1) }
    ensures past_the_end { IsFalse (is_predicate_of (false ∷ true ∷ []) 2) }
{}

/// Well-formed terms, literals and lists of clauses.
pub fn well_formed_examples()
    ensures whole_truth { IsTrue (is_term_of use_of_symbols true_tree) }
    ensures whole_atom { IsTrue (is_term_of use_of_symbols (p (f (x 0))).left) }
    ensures no_whole_term { IsFalse (is_term_of use_of_symbols (f (p a).left)) }
    ensures atom_and_equation { IsTrue (are_literals_of use_of_symbols (p (f (x 0)) ∷ equation (f a) b ∷ r ∷ [])) }
    ensures negated_truth { IsTrue (is_literal_of use_of_symbols (disequation true_tree true_tree)) }
    ensures other_number_of_arguments { IsFalse (is_literal_of use_of_symbols (equation (f₂ a b) b)) }
    ensures predicate_as_function { IsFalse (is_literal_of use_of_symbols (equation (f (p a).left) b)) }
    ensures truth_below_a_function { IsFalse (is_literal_of use_of_symbols (equation (f true_tree) b)) }
    ensures truth_on_the_left { IsFalse (is_literal_of use_of_symbols (equation true_tree a)) }
    ensures terms_put { PutsFunctionTermsOf use_of_symbols all_a }
    ensures other_number_of_arguments_put { PutsFunctionTermsOf use_of_symbols (λ _. f₂ a b) → ⊥ }
    ensures together { WellFormed (clause (p (f (x 0)) ∷ []) ∷ clause (equation (f a) b ∷ r ∷ []) ∷ []) }
    ensures two_numbers_of_arguments { WellFormed (clause (equation (f a) b ∷ []) ∷ clause (equation (f₂ a b) b ∷ []) ∷ []) → ⊥ }
    ensures predicate_and_function { WellFormed (clause (p a ∷ []) ∷ clause (equation (p a).left b ∷ []) ∷ []) → ⊥ }
{}

/// Ground clauses without equality.
pub fn ground_form_examples()
    ensures atoms { IsGroundForm (clause (p a ∷ disequation (q (f b)).left true_tree ∷ []) ∷ clause (r ∷ []) ∷ []) }
    ensures equation_of_terms { IsFalse (is_atom_literal (equation (f a) b)) }
    ensures truth_alone { IsFalse (is_atom_literal (equation true_tree true_tree)) }
    ensures with_variable { IsFalse (is_atom_literal (p (x 0))) }
    ensures symbols { form_size (clause (p a ∷ disequation (q (f b)).left true_tree ∷ []) ∷ clause (r ∷ []) ∷ []) ≡ 9 }
{}

/// Subsumption.
pub fn subsumption_examples()
    ensures asserted { assertions (positive_of 1 ∷ negative_of 2 ∷ []) ≡ 2 ∷ [] }
    ensures not_among { IsFalse (is_among (1 ∷ 2 ∷ []) (2 ∷ 3 ∷ [])) }
    ensures in_other_order { Subsumes is_predicate (clause (p (x 0) ∷ q (x 0) ∷ [])) (clause (q a ∷ p a ∷ r ∷ [])) }
    ensures to_different_literals { Subsumes is_predicate (clause (p (x 0) ∷ p (x 1) ∷ [])) (clause (p a ∷ [])) → ⊥ }
    ensures to_function_terms { Subsumes is_predicate (clause (equation (x 0) (x 1) ∷ [])) (clause (p a ∷ [])) → ⊥ }
{}
