// What lawful histories keep of inferences.

ghost use Rattle.laws_pool_examples.specs.Reduced.{KeptAreReduced};

/// What is kept of an inference is reduced, and handed back in its parts where clauses are split.
pub fn kept_are_reduced()
    ensures { KeptAreReduced }
{}
