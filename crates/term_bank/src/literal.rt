// Literals whose sides are terms of a bank.

ghost use Rattle.std.specs.Prelude.{◌≡◌};
ghost use Rattle.std.specs.Cmp.{partial_equiv_from_equiv};
ghost use Rattle.term_bank.specs.Literal.{same_numbers, IsDefaultLiteral};
ghost use Rattle.term_bank.specs.Equality.{literal_input, same_numbers_equiv, literals_alike};

use crate::reference::TermRef;
use std::default::Default;
use std::hash::{Hash, Hasher};

/// A literal in a bank: an equation between two of the bank's terms, or its negation. An atom has its
/// predicate term on the left and `$true`, the symbol 0, on the right. Literals are equal, and hashed, by their signs and the numbers
/// of their sides, which means something only inside one bank.
#[derive(Drop)]
pub struct BankLit {
    pub positive: bool,
    pub left: TermRef,
    pub right: TermRef,
}

const _: () = prove!(size_of::<BankLit>() == 20);

impl BankLit {
    /// An equal literal. It takes no memory.
    pub fn copy(&self) -> BankLit
        ensures { result ≡ self.now }
    {
        BankLit {
            positive: self.positive,
            left: self.left.copy(),
            right: self.right.copy(),
        }
    }
}

impl PartialEq for BankLit {
    ghost eq = { same_numbers };

    ghost laws = { partial_equiv_from_equiv same_numbers_equiv };

    fn eq(&self, other: &BankLit) -> bool {
        self.positive == other.positive && (self.left == other.left && self.right == other.right)
    }
}

impl Eq for BankLit {
    ghost laws = { same_numbers_equiv };
}

impl Hash for BankLit {
    ghost hash_input = { literal_input };

    ghost respects_eq = { literals_alike.fed };

    fn hash<H: Hasher>(&self, state: &mut H) {
        self.positive.hash(state);
        self.left.hash(state);
        self.right.hash(state);
    }
}

impl Default for BankLit {
    ghost is_default = { IsDefaultLiteral };

    /// A negative literal of no bank, to fill places that aren't used yet.
    fn default() -> BankLit {
        BankLit {
            positive: false,
            left: TermRef::default(),
            right: TermRef::default(),
        }
    }
}
