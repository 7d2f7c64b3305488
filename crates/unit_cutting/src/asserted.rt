// Assertions of clauses.

ghost use Rattle.std.specs.Prelude.{◌≡◌, ◌==◌, ◌&&◌, not};
ghost use Rattle.std.specs.List.{list_any};
ghost use Rattle.fol_base.specs.Subsumption.{assertions, is_among};

use plain_types::NameLit;

/// Whether each number is asserted by names. Clauses assert few names.
pub(crate) fn has_asserted(names: &[NameLit], numbers: &[u32]) -> bool
    ensures { result ≡ is_among numbers.now (assertions names.now) }
{
    numbers.iter().all(|number| is_asserted(names, *number))
}

/// Whether a number is asserted by names.
fn is_asserted(names: &[NameLit], number: u32) -> bool
    ensures { result ≡ list_any (λ other. number == other) (assertions names.now) }
{
    has_negative(names, number)
}

/// Whether a negative name with a number is among names.
fn has_negative(names: &[NameLit], number: u32) -> bool
    ensures { result ≡ list_any (λ name. not name.positive && (number == name.name)) names.now }
{
    names
        .iter()
        .any(|name| !name.positive && number == name.name)
}
