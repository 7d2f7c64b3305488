// Sets of names, in which each is found in the time of reading it.

ghost use Rattle.std.specs.Prelude.{◌≡◌, ◌&&◌, ℕ, not, List, map, IfOk};
ghost use Rattle.std.specs.HashSet.{contains};
ghost use Rattle.tptp_token.specs.Spelling.{is_one_of};
ghost use Rattle.tptp_reader.specs.declared.source.Name.{Name};
ghost use Rattle.tptp_reader.specs.Bound.{bytes_of, same_name};
ghost use Rattle.tptp_problem.specs.NameSets.{HasNames, names_among};

use crate::entry::Entry;
use name_hash::NameHash;
use plain_types::{Mem, Text};
use std::alloc::Global;
use std::collections::HashSet;
use tptp_reader::Name;

/// Names that are lent.
pub type NameSet<'a> = HashSet<Name<'a>, NameHash>;

/// The set of these names.
pub fn set_of<'a>(alloc: Global, names: &'a [Text]) -> Mem<NameSet<'a>>
    ensures { IfOk result (HasNames names.now) }
{
    let mut set = HashSet::with_hasher(alloc, NameHash::new());
    for name in names {
        set.insert(Name {
            bytes: name.as_slice(),
        })?;
    }
    Ok(set)
}

/// Takes the names of formulas out of a set.
pub fn take_out<'a, E: Entry>(set: &mut NameSet<'a>, formulas: &'a [E])
    ensures { (n : Name) → contains same_name set.new n
        ≡ (contains same_name set.old n && not (is_one_of (names_among E.language (map E.placed formulas.now)) (bytes_of n))) }
{
    for formula in formulas {
        set.remove(&Name {
            bytes: formula.name(),
        });
    }
}

/// Whether a name is one of a set.
pub fn has_name<'a>(set: &NameSet<'a>, bytes: &'a [u8]) -> bool
    ensures found { (n : Name) → bytes_of n ≡ bytes.now → result ≡ contains same_name set.now n }
    ensures listed { (names : List (List ℕ)) → HasNames names set.now → result ≡ is_one_of names bytes.now }
{
    set.contains(&Name { bytes })
}
