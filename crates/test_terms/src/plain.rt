// Which steps stand in a derivation in which nothing is split.

ghost use Rattle.std.specs.Prelude.{◌≡◌, true, false, []};
ghost use Rattle.kernel_steps.specs.Lines.{is_plain_step};
ghost use Rattle.kernel_steps.specs.declared.step.Step.TheVariants.{Input, Clausify, Merge, Component};

/// A clause of the form and a merge are plain, an input and a component aren't.
pub fn plain_step_examples()
    ensures clause_of_the_form { is_plain_step (Clausify 0) ≡ true }
    ensures merge { is_plain_step (Merge 0 0 1 []) ≡ true }
    ensures input { is_plain_step (Input 0) ≡ false }
    ensures component { is_plain_step (Component 0) ≡ false }
{}
