// The content of an annotated formula, borrowed, as a key of maps.

ghost use Rattle.std.specs.Prelude.{◌≡◌};
ghost use Rattle.std.specs.Cmp.{on_equiv, partial_equiv_from_equiv};
ghost use Rattle.tptp_tree.specs.Shape.{entry_of};
ghost use Rattle.tstp_checker.specs.Entries.{entry_meant, same_meant};
ghost use Rattle.tstp_checker.specs.EntryLaws.{same_entry_equivalence, same_entry_feeds_alike};
ghost use Rattle.tstp_checker.specs.Hashing.{entry_writes};

use crate::hashing::hash_formula;
use std::hash::{Hash, Hasher};
use tptp_tree::{Annotated, Formula, Role, same_formula};

/// The content of an annotated formula, borrowed.
#[derive(Clone, Copy)]
pub(crate) struct Entry<'a> {
    pub name: &'a [u8],
    pub role: Role,
    pub clause: bool,
    pub formula: &'a Formula,
}

/// The content of an annotated formula.
pub(crate) fn entry_of(formula: &Annotated) -> Entry<'_>
    ensures { entry_meant result ≡ entry_of formula.now }
{
    Entry {
        name: formula.name.as_slice(),
        role: formula.role,
        clause: formula.clause,
        formula: &formula.formula,
    }
}

impl<'a> PartialEq for Entry<'a> {
    ghost eq = { same_meant };

    ghost laws = { partial_equiv_from_equiv (on_equiv entry_meant same_entry_equivalence) };

    fn eq(&self, other: &Entry<'a>) -> bool {
        self.name == other.name
            && self.role.word() == other.role.word()
            && self.clause == other.clause
            && same_formula(self.formula, other.formula)
    }
}

impl<'a> Eq for Entry<'a> {
    ghost laws = { on_equiv entry_meant same_entry_equivalence };
}

/// Role and kind are left out: few formulas differ in them alone.
impl<'a> Hash for Entry<'a> {
    ghost hash_input = { λ entry. entry_writes (entry_meant entry) };

    ghost respects_eq = { λ one other same. same_entry_feeds_alike (entry_meant one) (entry_meant other) same };

    fn hash<H: Hasher>(&self, state: &mut H) {
        state.write(self.name);
        hash_formula(self.formula, state);
    }
}
