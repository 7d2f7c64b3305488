// The formulas of a problem, found by what they say.

ghost use Rattle.std.specs.Prelude.{◌≡◌, IfOk, position};
ghost use Rattle.clausal_form.specs.DerivationLine.{same_entry};
ghost use Rattle.tptp_tree.specs.Shape.{entry_of};
ghost use Rattle.tstp_checker.specs.Entries.{entry_meant};
ghost use Rattle.tstp_checker.specs.Inputs.{KnowsAll};

use crate::entries::{Entry, entry_of};
use indexmap::IndexMap;
use name_hash::NameHash;
use plain_types::{Mem, NoMemory};
use std::alloc::Global;
use tptp_tree::Annotated;

/// The most formulas of a problem.
const MOST_FORMULAS: usize = 1 << 32;

/// The formulas of a problem with a table by which each is found, so that a look-up takes the time of reading the formula.
#[derive(Drop)]
pub(crate) struct Inputs<'a> {
    pub formulas: &'a [Annotated],
    /// The first place of each formula.
    first: IndexMap<Entry<'a>, u32, NameHash>,
}

impl<'a> Inputs<'a> {
    /// The formulas with their table. More formulas than there are numbers are answered by out of memory.
    pub(crate) fn new(alloc: Global, formulas: &'a [Annotated]) -> Mem<Inputs<'a>>
        ensures formulas { IfOk result (λ inputs. inputs.formulas.now ≡ formulas.now) }
        ensures known { IfOk result KnowsAll }
    {
        if formulas.len() > MOST_FORMULAS {
            return Err(NoMemory);
        }
        let mut first = IndexMap::with_hasher(alloc, NameHash::new());
        // From the last back, so that the first of equal ones stays.
        let mut place = formulas.len();
        while place > 0 {
            place -= 1;
            first.insert(entry_of(&formulas[place]), place as u32)?;
        }
        Ok(Inputs { formulas, first })
    }

    /// The place of the first formula that equals the entry.
    pub(crate) fn place_of(&self, entry: Entry<'_>) -> Option<u32>
        requires { KnowsAll self.now }
        ensures { result ≡ position (λ b. same_entry (entry_meant entry.entry) (entry_of b)) self.now.formulas.now }
    {
        self.first.get(&entry).copied()
    }
}
