// The parents of steps under other numbers.

ghost use Rattle.std.specs.Prelude.{◌≡◌, [], ◌∷◌, ◌+◌};
ghost use Rattle.kernel_steps.specs.Lines.{step_parents};
ghost use Rattle.kernel_steps.specs.ParentNumbers.{MapsParents, with_parents};
ghost use Rattle.kernel_steps.specs.declared.step.Step.TheVariants as step;

/// Other numbers for the parents of a step change its parents alone.
pub fn parents_are_mapped()
    ensures law { MapsParents }
    ensures split { step_parents (step.Split 3 (5 ∷ 8 ∷ []) []) ≡ 3 ∷ 5 ∷ 8 ∷ [] }
    ensures split_moved { with_parents (λ n. n + 2) (step.Split 3 (5 ∷ 8 ∷ []) []) ≡ step.Split 5 (7 ∷ 10 ∷ []) [] }
    ensures opposite { step_parents (step.Opposite 0) ≡ [] }
{}
