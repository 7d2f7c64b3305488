// The script of a derivation: the problem's formulas and symbols, over which its lines are written.

ghost use Rattle.std.specs.Prelude.{◌≡◌};
ghost use Rattle.tstp_writer.specs.LineTrees.{origin, is_conjecture_at};
ghost use Rattle.tstp_writer.specs.Scripts.{script_in};

use signature::Symbol;
use tptp_tree::Annotated;

/// The name of the problem's file, the problem's formulas, the symbols of its clausal form by their numbers, for each clause of the form
/// the place of its formula, and the prefix of the names that the derivation introduces.
#[derive(Clone, Copy)]
pub(crate) struct Script<'a> {
    pub file: &'a [u8],
    pub formulas: &'a [Annotated],
    pub symbols: &'a [Symbol],
    pub origins: &'a [u64],
    pub prefix: &'a [u8],
}

impl Script<'_> {
    /// The place of the formula from which a clause of the form comes.
    pub(crate) fn origin(self, index: u64) -> u64
        ensures { result ≡ origin (script_in self.entry) index }
    {
        match self.origins.get(index as usize) {
            Some(place) => *place,
            None => 0,
        }
    }

    /// Whether the formula at a place is the conjecture.
    pub(crate) fn is_conjecture(self, place: u64) -> bool
        ensures { result ≡ is_conjecture_at (script_in self.entry) place }
    {
        match self.formulas.get(place as usize) {
            Some(annotated) => annotated.role.is_conjecture(),
            None => false,
        }
    }
}
