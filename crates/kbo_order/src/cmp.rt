// The answers of a comparison of terms, literals or clauses.

/// The answer of a comparison.
#[derive(Clone, Copy, Debug, PartialEq, Eq)]
pub enum Cmp {
    /// The left one is greater.
    Greater,
    /// The right one is greater.
    Less,
    /// The two are equal for the order.
    Equal,
    /// They differ, and neither is greater.
    Unordered,
}

impl Cmp {
    ghost use Rattle.std.specs.Prelude.{◌≡◌};
    ghost use Rattle.kbo_order.specs.Cmp.{is_greater, is_equal, reversed};

    /// Whether the left one is greater.
    pub fn is_greater(self) -> bool
        ensures { result ≡ is_greater self }
    {
        match self {
            Cmp::Greater => true,
            Cmp::Less | Cmp::Equal | Cmp::Unordered => false,
        }
    }

    /// Whether the right one is greater.
    pub fn is_less(self) -> bool
        ensures { result ≡ is_greater (reversed self) }
    {
        self.reversed().is_greater()
    }

    /// Whether the two are equal for the order.
    pub fn is_equal(self) -> bool
        ensures { result ≡ is_equal self }
    {
        match self {
            Cmp::Equal => true,
            Cmp::Greater | Cmp::Less | Cmp::Unordered => false,
        }
    }

    /// The answer with the two sides exchanged.
    pub fn reversed(self) -> Cmp
        ensures { result ≡ reversed self }
    {
        match self {
            Cmp::Greater => Cmp::Less,
            Cmp::Less => Cmp::Greater,
            Cmp::Equal => Cmp::Equal,
            Cmp::Unordered => Cmp::Unordered,
        }
    }
}
