// The literals of a clause that are eligible for inferences.

ghost use Rattle.std.specs.Prelude.{◌≡◌, ◌<◌, ◌&&◌, not, length, sum_by};
ghost use Rattle.fol_base.specs.Clause.{literal_size, literal_instance};
ghost use Rattle.fol_base.specs.Ground.{literals_instance};
ghost use Rattle.fol_base.specs.Lent.{lent_of};
ghost use Rattle.fol_base.specs.Order.{literal_greater, equivalent_literals};
ghost use Rattle.fol_base.specs.Selection.{eligible};

use fol_base::{LendsLiterals, LendsTerms, LiteralRef};
use kbo_order::{COMPARED_SIZE_LIMIT, Cmp, Unbound, compare_literals_under};

/// Whether the literal of that index is eligible for inferences (Bachmair and Ganzinger 1994): it is the
/// chosen one; or none is chosen and no other literal is greater, nor equal where strictness is asked. It
/// takes no memory.
pub fn eligible<L: LendsLiterals>(
    literals: &L,
    index: usize,
    chosen: Option<usize>,
    strict: bool,
) -> bool
    requires in_range { index < length (L.meaning literals.now) }
    requires size { sum_by literal_size (L.meaning literals.now) < COMPARED_SIZE_LIMIT }
    ensures { result ≡ eligible (L.meaning literals.now) index chosen strict }
{
    let nothing = Unbound;
    eligible_under(literals, &nothing, index, chosen, strict)
}

/// Whether the literal of that index is eligible in the instance of a clause, with the choice made before. The instance isn't built,
/// and no memory is taken.
pub fn eligible_under<L: LendsLiterals, S: LendsTerms>(
    literals: &L,
    bind: &S,
    index: usize,
    chosen: Option<usize>,
    strict: bool,
) -> bool
    requires in_range { index < length (L.meaning literals.now) }
    requires size { sum_by literal_size (literals_instance (S.meaning bind.now) (L.meaning literals.now)) < COMPARED_SIZE_LIMIT }
    ensures { result ≡ eligible (literals_instance (S.meaning bind.now) (L.meaning literals.now)) index chosen strict }
{
    match chosen {
        Some(chosen) => index == chosen,
        None => is_maximal(literals, bind, index, strict),
    }
}

/// Whether no other literal is greater than that of the index, nor equal where strictness is asked, in the instance.
fn is_maximal<L: LendsLiterals, S: LendsTerms>(
    literals: &L,
    bind: &S,
    index: usize,
    strict: bool,
) -> bool
    requires in_range { index < length (L.meaning literals.now) }
    requires size { sum_by literal_size (literals_instance (S.meaning bind.now) (L.meaning literals.now)) < COMPARED_SIZE_LIMIT }
    ensures { result ≡ eligible (literals_instance (S.meaning bind.now) (L.meaning literals.now)) index None strict }
{
    let literal = literals.literal(index);
    for other in 0..literals.count() {
        if other != index && outdoes(literals.literal(other), literal, bind, strict) {
            return false;
        }
    }
    true
}

/// Whether the instance of the other one is greater, or equal where strictness is asked.
fn outdoes<S: LendsTerms>(
    other: LiteralRef<'_>,
    literal: LiteralRef<'_>,
    bind: &S,
    strict: bool,
) -> bool
    requires size { literal_size (literal_instance (S.meaning bind.now) (lent_of literal)) < COMPARED_SIZE_LIMIT }
    requires other_size { literal_size (literal_instance (S.meaning bind.now) (lent_of other)) < COMPARED_SIZE_LIMIT }
    ensures { not result ≡ (not (literal_greater
        (literal_instance (S.meaning bind.now) (lent_of other.entry)) (literal_instance (S.meaning bind.now) (lent_of literal.entry)))
        && not (strict && equivalent_literals
        (literal_instance (S.meaning bind.now) (lent_of other.entry)) (literal_instance (S.meaning bind.now) (lent_of literal.entry)))) }
{
    match compare_literals_under(other, bind, literal, bind) {
        Cmp::Greater => true,
        Cmp::Equal => strict,
        Cmp::Less | Cmp::Unordered => false,
    }
}
