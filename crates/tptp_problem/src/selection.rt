// The names that an include lists.

ghost use Rattle.tptp_problem.specs.NameSets.{HasNames};

use crate::name_set::NameSet;
use plain_types::Text;

/// The names of the formulas that an include takes; where none are listed, it takes all.
#[derive(Clone, Copy)]
pub struct Selection<'a, 'k> {
    pub names: &'a [Text],
    /// A table of these names.
    pub known: &'k NameSet<'a>,
    ghost known_are: { HasNames names.now known.now },
}
