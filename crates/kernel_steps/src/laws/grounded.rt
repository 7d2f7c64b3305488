// That the lines of derivations are grounded.

ghost use Rattle.kernel_steps.specs.Soundness.{LinesAreGrounded, RefutationsHerbrandRefute};

/// Each clause line of a derivation is grounded, so a form that has a refutation is Herbrand-refuted, where the
/// bindings are over the function symbols.
pub fn lines_are_grounded()
    ensures lines { LinesAreGrounded }
    ensures refutations { RefutationsHerbrandRefute }
{}
