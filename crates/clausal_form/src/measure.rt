// How many clauses a list has and how large they are, counted without making them.

ghost use Rattle.std.specs.Prelude.{◌≡◌, ◌+◌, [], ◌∷◌, IfOk};
ghost use Rattle.plain_types.specs.Capped.{capped};
ghost use Rattle.clausal_form.specs.Measure.{measure_of, capped_measure, capped_measured, sum_measure, product_measure, product_largest};

use plain_types::{Mem, NoMemory};

/// The number of clauses, the symbols of all together and those of the largest, in occurrences of symbols and variables. The symbols stop
/// at u64's last value.
#[derive(Clone, Copy)]
pub(crate) struct Measure {
    pub clauses: u64,
    pub symbols: u64,
    pub largest: u64,
}

impl Measure {
    /// No clause.
    pub(crate) fn none() -> Measure
        ensures { measure_of result ≡ capped_measured [] }
    {
        Measure {
            clauses: 0,
            symbols: 0,
            largest: 0,
        }
    }

    /// The empty clause.
    pub(crate) fn empty_clause() -> Measure
        ensures { measure_of result ≡ capped_measured ([] ∷ []) }
    {
        Measure::one_clause(0)
    }

    /// One clause of that size.
    pub(crate) fn one_clause(size: u64) -> Measure
        ensures { measure_of result ≡ record { clauses = 1; symbols = size; largest = size } }
    {
        Measure {
            clauses: 1,
            symbols: size,
            largest: size,
        }
    }

    /// Two lists, one after the other. More clauses than a u64 counts are answered by out of memory; a formula that doesn't expand too far has far fewer.
    pub(crate) fn sum(self, other: Measure) -> Mem<Measure>
        ensures { IfOk result (λ made. measure_of made ≡ capped_measure (sum_measure (measure_of self) (measure_of other))) }
    {
        let clauses = self.clauses.checked_add(other.clauses).ok_or(NoMemory)?;
        Ok(Measure {
            clauses,
            symbols: self.symbols.saturating_add(other.symbols),
            largest: self.largest.max(other.largest),
        })
    }

    /// The product of two lists.
    pub(crate) fn product(self, other: Measure) -> Mem<Measure>
        ensures { IfOk result (λ made. measure_of made ≡ capped_measure (product_measure (measure_of self) (measure_of other))) }
    {
        let clauses = self.clauses.checked_mul(other.clauses).ok_or(NoMemory)?;
        let of_first = self.symbols.saturating_mul(other.clauses);
        let of_second = other.symbols.saturating_mul(self.clauses);
        Ok(Measure {
            clauses,
            symbols: of_first.saturating_add(of_second),
            largest: self.product_largest(other, clauses),
        })
    }

    /// The symbols of the largest clause of a product of that many.
    fn product_largest(self, other: Measure, clauses: u64) -> u64
        ensures { result ≡ capped (product_largest clauses (self.largest + other.largest)) }
    {
        if clauses == 0 {
            return 0;
        }
        self.largest.saturating_add(other.largest)
    }
}
