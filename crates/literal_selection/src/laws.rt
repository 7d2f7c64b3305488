// The law of eligible literals: it is the contract of a function without arguments and with an empty body.

ghost use Rattle.literal_selection.specs.Laws.{EligibleLifts};

/// A literal that is eligible in an instance of a clause, with any choice made before, is eligible in the
/// clause. So it is for ground instances.
pub fn eligible_literals_lift()
    ensures { EligibleLifts }
{}
