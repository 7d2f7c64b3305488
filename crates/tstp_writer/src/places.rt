// Numbers in order, with the place of each.

ghost use Rattle.std.specs.Prelude.{◌≡◌, ◌<◌, ◌==◌, ℕ, length, IfOk, if◌then◌else◌};
ghost use Rattle.std.specs.List.{AllByRecursion};
ghost use Rattle.tstp_writer.specs.LineTrees.{place_in};
ghost use Rattle.tstp_writer.specs.Places.{told_place};

use plain_types::{Mem, Numbers};
use std::alloc::Global;
use std::marker::Model;

/// Numbers in order, which contracts see as their list, with the place of each in a table.
#[derive(Drop)]
pub(crate) struct Places {
    numbers: Numbers,
    table: Vec<u64>,
}

impl Model for Places {
    ghost use Rattle.std.specs.Prelude.{List, ℕ};
    ghost use Rattle.tstp_writer.specs.Places.{TellsPlaces};

    ghost Value = { List ℕ };

    ghost view = { λ p. p.numbers };

    ghost invariant = { λ p. TellsPlaces p.table.items p.numbers };
}

impl Places {
    /// The places of numbers that are below a size.
    pub(crate) fn of(alloc: Global, numbers: Numbers, size: usize) -> Mem<Places>
        requires { AllByRecursion (λ n. n < size) numbers }
        ensures { IfOk result (λ places. places ≡ numbers) }
    {
        let mut table = Vec::new(alloc);
        table.resize(size, numbers.len() as u64)?;
        fill(&mut table, numbers.as_slice());
        Ok(Places { numbers, table })
    }

    /// The place of a number, and how many there are where it isn't one of them.
    pub(crate) fn place(&self, number: u64) -> u64
        ensures { result ≡ place_in number self.now }
    {
        match self.table.get(number as usize) {
            Some(place) => *place,
            None => self.numbers.len() as u64,
        }
    }

    /// How many numbers there are.
    pub(crate) fn len(&self) -> u64
        ensures { result ≡ length self.now }
    {
        self.numbers.len() as u64
    }

    /// The numbers, lent.
    pub(crate) fn as_slice(&self) -> &[u64]
        ensures { result.now ≡ self.now }
    {
        self.numbers.as_slice()
    }
}

/// Writes the place of each number into a table in which none stands: the last first, so that the first place of a number stands.
fn fill(table: &mut Vec<u64>, numbers: &[u64])
    requires below { AllByRecursion (λ n. n < length table.old.items) numbers.now }
    requires none { (n : ℕ) → told_place table.old.items (length numbers.now) n ≡ length numbers.now }
    ensures { (n : ℕ) → told_place table.new.items (length numbers.now) n ≡ place_in n numbers.now }
{
    let mut left = numbers.len();
    while left > 0 {
        left -= 1;
        put(table, numbers[left], left as u64);
    }
}

/// Writes at a number of a table.
fn put(table: &mut Vec<u64>, number: u64, place: u64)
    requires { number < length table.old.items }
    ensures room { length table.new.items ≡ length table.old.items }
    ensures told { (count n : ℕ) → n < length table.old.items
        → told_place table.new.items count n ≡ (if number == n then place else told_place table.old.items count n) }
{
    if let Some(entry) = table.get_mut(number as usize) {
        *entry = place;
    }
}
