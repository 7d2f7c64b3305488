// Worked examples of the definitions: each is the contract of a function without arguments and with an empty body.

ghost use Rattle.std.specs.Prelude.{◌≡◌, [], ◌∷◌, IsTrue, IsFalse};
ghost use Rattle.sat_core.specs.Clause.{clause_true};
ghost use Rattle.congruence.specs.Congruence.{are_nodes, are_between, class_in, joins_all, signature, node_at};
ghost use Rattle.congruence.specs.Models.{values_by, conflict_clause};
ghost use Rattle.congruence.specs.Examples.{a_and_b, a_is_b, of_f};

/// Over the nodes a, b, f(a) and f(b): the equation of a and b.
pub fn congruence_examples()
    ensures proper { IsTrue (are_nodes a_and_b) }
    ensures between { IsTrue (are_between a_and_b (a_is_b ∷ of_f ∷ [])) }
    ensures signatures { signature (class_in (0 ∷ 0 ∷ 2 ∷ 2 ∷ [])) (node_at a_and_b 2) ≡ signature (class_in (0 ∷ 0 ∷ 2 ∷ 2 ∷ [])) (node_at a_and_b 3) }
    ensures contained { IsTrue (joins_all (class_in (0 ∷ 0 ∷ 2 ∷ 2 ∷ [])) (a_is_b ∷ of_f ∷ [])) }
    ensures not_contained { IsFalse (joins_all (class_in (0 ∷ 0 ∷ 2 ∷ 3 ∷ [])) (a_is_b ∷ of_f ∷ [])) }
    ensures conflict { IsTrue (clause_true (values_by (class_in (0 ∷ 0 ∷ 2 ∷ 2 ∷ [])) (a_is_b ∷ of_f ∷ [])) (conflict_clause (0 ∷ []) 1)) }
    ensures broken { IsFalse (clause_true (values_by (class_in (0 ∷ 0 ∷ 2 ∷ 3 ∷ [])) (a_is_b ∷ of_f ∷ [])) (conflict_clause (0 ∷ []) 1)) }
{}
