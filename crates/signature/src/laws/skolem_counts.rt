// How many Skolem symbols the clausal form has.

ghost use Rattle.signature.specs.FormLaws.{SkolemSymbolsAreCounted, SkolemSymbolsOfProblemAreCounted};

/// The work on formulas makes as many Skolem symbols as are counted.
pub fn skolem_symbols_are_counted()
    ensures formulas { SkolemSymbolsAreCounted }
    ensures problems { SkolemSymbolsOfProblemAreCounted }
{}
