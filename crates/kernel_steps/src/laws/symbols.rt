// The symbols of lines.

ghost use Rattle.kernel_steps.specs.Symbols.{ConclusionsKeepSymbols, StepsKeepSymbols, DerivationsKeepSymbols};

/// Each symbol of a line is one of the clauses from which the lines go on, or of the terms that their steps bind.
pub fn lines_keep_symbols()
    ensures conclusions { ConclusionsKeepSymbols }
    ensures steps { StepsKeepSymbols }
    ensures derivations { DerivationsKeepSymbols }
{}
