// Laws of coverage.

ghost use Rattle.fol_base.specs.Covered.{CoversInstances, CoversMore, CoversAcross};

/// A list of clauses covers the ground instances of its members.
pub fn coverage_of_instances()
    ensures { CoversInstances }
{}

/// A list with more clauses covers no less.
pub fn coverage_by_more()
    ensures { CoversMore }
{}

/// A list covers each clause that is covered by clauses whose ground instances the list covers.
pub fn coverage_composes()
    ensures { CoversAcross }
{}
