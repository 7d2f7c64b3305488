// Worked examples of the definitions, and a law: each is the contract of a function with an empty body.

ghost use Rattle.std.specs.Prelude.{◌≡◌, [], ◌∷◌, codes, None, Some, IsTrue, IsFalse};
ghost use Rattle.plain_types.specs.Names.{positive_of, negative_of};
ghost use Rattle.tptp_tree.specs.Term.{variable, application, no_terms, term_then};
ghost use Rattle.tptp_source.specs.General.{variable as general_variable};
ghost use Rattle.clausal_form.specs.DerivationExamples.{name, call, list_of, bind, n0};
ghost use Rattle.tstp_lines.specs.Tables.{with_name, place_of_name};
ghost use Rattle.tstp_lines.specs.Written.{may_follow};
ghost use Rattle.tstp_lines.specs.Bindings.{is_term, as_term, list_of_item, binding_in};

/// A name is added once, and has its place as its number.
pub fn table_examples()
    ensures added { with_name (codes "X" ∷ []) (codes "Y") ≡ codes "X" ∷ codes "Y" ∷ [] }
    ensures there { with_name (codes "X" ∷ codes "Y" ∷ []) (codes "X") ≡ codes "X" ∷ codes "Y" ∷ [] }
    ensures number { place_of_name (codes "X" ∷ codes "Y" ∷ []) (codes "Y") ≡ 1 }
{}

/// After a name stands no ordinary literal, and the negative name before the positive one.
pub fn order_examples()
    ensures ordinary { IsFalse (may_follow (Some (negative_of 0)) None) }
    ensures turned { IsFalse (may_follow (Some (positive_of 0)) (Some (negative_of 0))) }
    ensures in_order { IsTrue (may_follow (Some (negative_of 0)) (Some (positive_of 0))) }
    ensures first { IsTrue (may_follow None (Some (positive_of 7))) }
{}

/// `f(X)` is a term, `f(0)` is none; and what `bind([f(X)])`, `bind([0])` and `bind(a)` bind.
pub fn binding_examples()
    ensures a_term { IsTrue (is_term (call (codes "f") (general_variable (codes "X") ∷ []))) }
    ensures no_term { IsFalse (is_term (call (codes "f") (n0 ∷ []))) }
    ensures as_term { as_term (call (codes "f") (general_variable (codes "X") ∷ []))
        ≡ application (codes "f") (term_then (variable (codes "X")) no_terms) }
    ensures bound { binding_in (bind (name (codes "a") ∷ [])) ≡ Some (application (codes "a") no_terms ∷ []) }
    ensures number_bound { binding_in (bind (n0 ∷ [])) ≡ None }
    ensures no_list { list_of_item (call (codes "bind") (name (codes "a") ∷ [])) ≡ None }
{}
