// The clauses held and the fact carried through a history, and a set that is saturated by the law.

ghost use Rattle.std.specs.Prelude.{◌≡◌, [], ◌∷◌, Some, true, false, IsTrue, IsFalse};
ghost use Rattle.plain_types.specs.Names.{negative_of};
ghost use Rattle.fol_base.specs.Examples.{x, a, p, q, r, clause, is_predicate, functions};
ghost use Rattle.fol_base.specs.Selection.{select_negative};
ghost use Rattle.kernel_steps.specs.Derivation.{under_names};
ghost use Rattle.kernel_steps.specs.declared.key.Key.TheVariants.{Refl};
ghost use Rattle.laws_pool_examples.specs.Examples.{justified, stale_history, parted, parted_history, units, units_history, rewrites, rewrites_history, at_roots};
ghost use Rattle.pool_history.specs.Lawful.{IsLawful};
ghost use Rattle.pool_history.specs.Outcomes.{outcome_of};
ghost use Rattle.pool_history.specs.Record.{nothing_registered};
ghost use Rattle.pool_history.specs.Replay.{start, replay};
ghost use Rattle.pool_history.specs.Saturated.{IsSaturated, members_of};
ghost use Rattle.pool_history.specs.declared.outcome.Outcome.TheVariants.{Saturated};
ghost use Rattle.laws_saturation.specs.Carried.{IsHeld, has_awake_premises, IsCarried};
ghost use Rattle.laws_saturation.specs.Found.{finds_of, is_last_premise};
ghost use Rattle.laws_saturation.specs.Laws.{is_member};
ghost use Rattle.laws_pool_examples.specs.CarriedExamples.{all_true, first_true, none_true, one_atom, one_tautology, tautology_history};

use laws_saturation::laws::{carried_through, saturated_is_saturated};

/// Of `q(a)`, `q(X0)` and `~q(a) | r` the first is removed and the third cut: `q(X0)` is held, `q(a)` isn't. Of two parts of which the first
/// name alone is true the second sleeps: inferences of it have no premises that are all awake, and it is no member.
pub fn held_examples()
    ensures held { IsHeld all_true (replay justified stale_history) (clause (q (x 0) ∷ [])) }
    ensures dead { IsHeld all_true (replay justified stale_history) (clause (q a ∷ [])) → ⊥ }
    ensures awake { IsTrue (has_awake_premises first_true (start parted) (Refl 0 0)) }
    ensures asleep { IsFalse (has_awake_premises first_true (start parted) (at_roots 0 1)) }
    ensures both_awake { IsTrue (has_awake_premises all_true (start parted) (at_roots 0 1)) }
    ensures member { IsTrue (is_member (replay parted parted_history) 0) }
    ensures no_member { IsFalse (is_member (replay parted parted_history) 1) }
{}

/// Of two units that meet, the job of the second finds their superposition, and is that of its last premise. A job whose clause goes finds
/// nothing, nor does one that meets nothing.
pub fn found_examples()
    ensures found { finds_of units units_history ≡ record { by = 1; key = at_roots 0 1 } ∷ [] }
    ensures nothing { finds_of rewrites rewrites_history ≡ [] }
    ensures last { IsTrue (is_last_premise (replay units units_history) 1 (at_roots 0 1)) }
    ensures earlier { IsFalse (is_last_premise (replay units units_history) 0 (at_roots 0 1)) }
    ensures no_premise { IsFalse (is_last_premise (replay units units_history) 1 (Refl 0 0)) }
{}

/// The held clauses cover `r` where `r` was registered, and not where nothing was. A clause that was split isn't covered while both parts
/// sleep: no model of the propositional clause does that.
pub fn carried_examples()
    ensures begun { IsCarried functions select_negative (clause (r ∷ []) ∷ []) all_true (start one_atom) }
    ensures none { IsCarried functions select_negative (clause (r ∷ []) ∷ []) all_true nothing_registered → ⊥ }
    ensures neither { IsCarried functions select_negative parted.inputs none_true (start parted) → ⊥ }
{}

/// Of two parts the awake one covers their clause, by the law.
pub fn carried_part()
    ensures { IsCarried functions select_negative parted.inputs first_true (start parted) }
{
    carried_through();
}

/// A tautology goes, and no clause is left: by the law, no clauses are saturated for a tautology.
pub fn saturated_example()
    ensures lawful { IsLawful is_predicate one_tautology tautology_history }
    ensures outcome { outcome_of (replay one_tautology tautology_history) ≡ Some Saturated }
    ensures members { members_of (replay one_tautology tautology_history) ≡ [] }
    ensures saturated { IsSaturated functions select_negative one_tautology.inputs [] }
{
    saturated_is_saturated();
}

/// Of two parts the one that the model asserts is a saturated set for their clause, by the law.
pub fn saturated_part()
    ensures { IsSaturated functions select_negative parted.inputs (under_names (p (x 0) ∷ []) (negative_of 0 ∷ []) ∷ []) }
{
    saturated_is_saturated();
}
