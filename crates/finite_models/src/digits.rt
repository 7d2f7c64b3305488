// Numbers as lists of values.

ghost use Rattle.std.specs.Prelude.{◌≡◌, ◌<◌, ◌≤◌, ◌^◌, IfOk};
ghost use Rattle.finite_models.specs.Digits.{digits};

use plain_types::{Mem, NoMemory};
use std::alloc::Global;

/// A power. One that 32 bits don't hold is out of memory.
pub(crate) fn power(base: u32, exponent: u32) -> Mem<u32>
    ensures { IfOk result (λ power. power ≡ base ^ exponent) }
{
    base.checked_pow(exponent).ok_or(NoMemory)
}

/// Makes a vector the digits of a number, the most significant first. `power` is the base to the power of the digits' count.
pub(crate) fn fill_digits(
    values: &mut Vec<u32>,
    base: u32,
    count: u32,
    power: u32,
    number: u32,
) -> Mem<()>
    requires base { 1 ≤ base }
    requires power { power ≡ base ^ count }
    requires number { number < power }
    ensures { IfOk result (λ _. values.new.items ≡ digits base count number) }
{
    values.clear();
    let mut left = count;
    let mut unit = power;
    let mut rest = number;
    while left > 0 {
        left -= 1;
        unit /= base;
        values.push(rest / unit)?;
        rest %= unit;
    }
    Ok(())
}

/// The digits of a number as a list of their own.
pub(crate) fn digits_of(
    alloc: Global,
    base: u32,
    count: u32,
    power: u32,
    number: u32,
) -> Mem<Vec<u32>>
    requires base { 1 ≤ base }
    requires power { power ≡ base ^ count }
    requires number { number < power }
    ensures { IfOk result (λ values. values.items ≡ digits base count number) }
{
    let mut values = Vec::new(alloc);
    fill_digits(&mut values, base, count, power, number)?;
    Ok(values)
}
