// Soundness of the rules, of derivations and of refutations.

ghost use Rattle.kernel_steps.specs.Soundness.{ParaIsSound, ReflIsSound, FactorIsSound, MergeIsSound, ChainIsSound, DerivationsAreSound, GroundLinesAreGrounded, RefutationsRefute, GroundRefutationsRefute, GroundRefutationsHerbrandRefute, HerbrandRefuted};
ghost use Rattle.kernel_steps.specs.Examples.{unrelated, general};
ghost use Rattle.fol_base.specs.Examples.{functions};

/// The conclusion of a rule is true where its premises are.
pub fn rules_are_sound()
    ensures para { ParaIsSound }
    ensures refl { ReflIsSound }
    ensures factor { FactorIsSound }
    ensures merge { MergeIsSound }
    ensures chain { ChainIsSound }
{}

/// A clause line of a derivation is true, whatever values its variables have, where the form is.
pub fn derivations_are_sound()
    ensures { DerivationsAreSound }
{}

/// A form that has a refutation is true in no finite interpretation.
pub fn refutations_refute()
    ensures any_form { RefutationsRefute }
    ensures ground_form { GroundRefutationsRefute }
{}

/// The meaning of a derivation from a ground form, whatever it binds.
pub fn ground_forms_are_grounded()
    ensures lines { GroundLinesAreGrounded }
    ensures refutations { GroundRefutationsHerbrandRefute }
{}

/// Forms that are and aren't Herbrand-refuted.
pub fn herbrand_examples()
    ensures by_instances { HerbrandRefuted functions general }
    ensures true_somewhere { HerbrandRefuted functions unrelated → ⊥ }
{}
