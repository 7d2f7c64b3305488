// The fact that is carried through a history: the clauses that are held cover those that are owed.

ghost use Rattle.laws_saturation.specs.Laws.{InferencesKeepSymbols, CarriedThrough};

/// The conclusion of an inference has no symbols but those of its premises.
pub fn inferences_keep_symbols()
    ensures { InferencesKeepSymbols }
{}

/// While a pool is neither refuted nor spent, its living awake clauses cover the ground instances of the inputs, of each clause that was
/// registered and is awake, dead ones included, and of the conclusions of the inferences of awake clauses that were counted and not set
/// aside.
pub fn carried_through()
    ensures { CarriedThrough }
{}
