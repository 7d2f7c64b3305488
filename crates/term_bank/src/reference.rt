// References to the terms of a bank.

ghost use Rattle.std.specs.Prelude.{◌≡◌, ◌<◌, ◌*◌, ◌^◌};
ghost use Rattle.std.specs.Cmp.{partial_equiv_from_equiv};
ghost use Rattle.term_bank.specs.Bank.{number, same_number, IsDefault, IsOf};
ghost use Rattle.term_bank.specs.Equality.{reference_input, same_number_equiv, references_alike};

use crate::bank::Bank;
use crate::rows::{ROWS, Shown};
use std::default::Default;
use std::hash::{Hash, Hasher};
use std::marker::Model;

/// A reference to a term of a bank. It stands for one tree for good, in every thread.
///
/// It has 8 bytes: a row, a place in it, and whether it is of a bank. References are equal, and hashed, by their numbers alone. Inside one
/// bank equal numbers mean equal trees; different numbers mean different trees only where one table has both.
#[derive(Drop)]
pub struct TermRef {
    pub(crate) place: u32,
    pub(crate) row: u8,
    pub(crate) shown: Option<Shown>,
}

impl Model for TermRef {
    ghost use Rattle.std.specs.Prelude.{◌≡◌, ◌<◌, ◌+◌, ◌*◌, ◌^◌, suc, length, IfSome};
    ghost use Rattle.std.specs.Option.{option_map_or};
    ghost use Rattle.boxcar.specs.Table.{id_at};
    ghost use Rattle.fol_base.specs.Tree.{variable};
    ghost use Rattle.fol_base.specs.Term.{tree_of};
    ghost use Rattle.term_bank.specs.declared.rows.TheConstants.{ROWS};
    ghost use Rattle.term_bank.specs.Reference.{Reference, reference_code};

    ghost Value = { Reference };

    ghost coded = { reference_code };

    ghost view = { λ r. record {
      number = r.row * 2 ^ 32 + r.place;
      bank = option_map_or (λ s. suc s.rows.of) r.shown 0;
      tree = option_map_or (λ s. tree_of s.item.value) r.shown (variable 0);
    } };

    ghost invariant = { λ r. (r.place < 2 ^ 32) × IfSome r.shown (λ s.
        (r.row < ROWS) × (r.row < length s.rows.value.items) × (s.row.of ≡ id_at s.rows.value.items r.row)
        × (r.place < length s.row.value.items) × (s.item.of ≡ id_at s.row.value.items r.place)) };
}

impl TermRef {
    /// The reference's number. Two references of one bank with equal numbers stand for equal trees, and no reference of a bank has
    /// the number of the default one.
    pub fn number(&self) -> u64
        ensures number { result ≡ number self.now }
        ensures of_a_place { (bank : Bank) → IsOf bank self.now → result < ROWS * 2 ^ 32 }
    {
        u64::from(self.row) * (1 << 32) + u64::from(self.place)
    }

    /// An equal reference. It takes no memory.
    pub fn copy(&self) -> TermRef
        ensures { result ≡ self.now }
    {
        TermRef {
            place: self.place,
            row: self.row,
            shown: shown_again(&self.shown),
        }
    }
}

const _: () = prove!(size_of::<TermRef>() == 8);

fn shown_again(shown: &Option<Shown>) -> Option<Shown>
    ensures { result ≡ shown.now }
{
    match shown {
        Some(shown) => Some(shown.again()),
        None => None,
    }
}

impl PartialEq for TermRef {
    ghost eq = { same_number };

    ghost laws = { partial_equiv_from_equiv same_number_equiv };

    fn eq(&self, other: &TermRef) -> bool {
        self.number() == other.number()
    }
}

impl Eq for TermRef {
    ghost laws = { same_number_equiv };
}

impl Hash for TermRef {
    ghost hash_input = { reference_input };

    ghost respects_eq = { references_alike.fed };

    fn hash<H: Hasher>(&self, state: &mut H) {
        state.write_u64(self.number());
    }
}

impl Default for TermRef {
    ghost is_default = { IsDefault };

    /// A reference of no bank, to fill places that aren't used yet. Its row is the first that no bank has.
    fn default() -> TermRef {
        TermRef {
            place: 0,
            row: ROWS as u8,
            shown: None,
        }
    }
}
