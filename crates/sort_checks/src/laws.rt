// The law of problems without a fault: the contract of a function without arguments and with an empty body.

ghost use Rattle.sort_checks.specs.Laws.{SortedEntries};

/// A problem whose entries have no fault of sorts and types is sorted.
pub fn sorted_entries()
    ensures { SortedEntries }
{}
