// The meaning of the outcomes that come where nothing is left to do.

ghost use Rattle.laws_saturation.specs.Laws.{
  FixedAreRefutedOrSpent,
  SaturatedHasModel,
  SaturatedIsSaturated,
  MembersHaveMet,
  HeavyIsNamed,
};

/// No event fixes another outcome than Refuted and Spent.
pub fn fixed_are_refuted_or_spent()
    ensures { FixedAreRefutedOrSpent }
{}

/// The outcome Saturated says that the members are saturated for the inputs: none is empty, and they cover each ground instance of the inputs
/// and the conclusion of each ground inference among them.
pub fn saturated_is_saturated()
    ensures { SaturatedIsSaturated }
{}

/// Under the outcome Saturated the model, under which the members are awake, makes every propositional clause true.
pub fn saturated_has_model()
    ensures { SaturatedHasModel }
{}

/// Under the outcome Saturated each inference that is named among the members was counted and not set aside, and the job of its last
/// premise, the one of the latest position, found it.
pub fn members_have_met()
    ensures { MembersHaveMet }
{}

/// The outcome Heavy tells the first inference among the members that was set aside, since it is too large.
pub fn heavy_is_named()
    ensures { HeavyIsNamed }
{}
