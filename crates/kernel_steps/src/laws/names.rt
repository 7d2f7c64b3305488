// The order of names.

ghost use Rattle.kernel_steps.specs.Names.{SortedNames};

/// The names of a list, sorted, are its names, each before the next.
pub fn names_are_sorted()
    ensures { SortedNames }
{}
