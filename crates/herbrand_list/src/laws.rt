// Worked examples of the definitions: each is the contract of a function without arguments and with an empty body.

ghost use Rattle.std.specs.Prelude.{◌≡◌, [], ◌∷◌, None, Some};
ghost use Rattle.fol_base.specs.Examples.{a, b, c, f, p, q, equation};
ghost use Rattle.fol_base.specs.Rules.{disequation};
ghost use Rattle.kernel_steps.specs.Examples.{implication_lines, rewrites_lines, components_lines, not_p, not_q};
ghost use Rattle.herbrand_list.specs.GroundList.{ground_list, weight, names_line};
ghost use Rattle.herbrand_list.specs.GroundLaws.{GroundListsAreRefuted, GroundListsAreInstances, FirstConstantsAreGround};
ghost use Rattle.herbrand_list.specs.Examples.{open_lines};

/// The ground lists of worked derivations, with their weights.
pub fn ground_list_examples()
    ensures implication { ground_list a implication_lines ≡ (not_q a ∷ []) ∷ (p a ∷ []) ∷ (not_p a ∷ q a ∷ []) ∷ [] }
    ensures implication_weight { weight a implication_lines ≡ 29 }
    ensures rewrites { ground_list a rewrites_lines
        ≡ (disequation (f b) c ∷ []) ∷ (equation (f a) c ∷ []) ∷ (equation a b ∷ []) ∷ [] }
    ensures own_variables { ground_list b open_lines ≡ (not_p (f b) ∷ []) ∷ (p (f b) ∷ []) ∷ [] }
{}

/// The first line that speaks of names.
pub fn names_line_examples()
    ensures components { names_line components_lines ≡ Some 7 }
    ensures none { names_line implication_lines ≡ None }
{}

/// The ground list of a refutation without names is true in no interpretation.
pub fn ground_lists_are_refuted()
    ensures { GroundListsAreRefuted }
{}

/// The ground list of a derivation has ground instances of the form alone.
pub fn ground_lists_are_instances()
    ensures { GroundListsAreInstances }
{}

/// The first constant of function symbols is a ground term over them.
pub fn first_constants_are_ground()
    ensures { FirstConstantsAreGround }
{}
