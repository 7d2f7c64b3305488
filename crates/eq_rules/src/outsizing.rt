// What sizes tell of the order under a unifier, where an instance is too large to be built: what has fewer symbols isn't greater.

ghost use Rattle.std.specs.Prelude.{◌≡◌, ◌<◌, true, length, IfOk, IfSome};
ghost use Rattle.fol_base.specs.Tree.{VariablesBelow};
ghost use Rattle.fol_base.specs.Instance.{instance};
ghost use Rattle.fol_base.specs.Lent.{lent_of};
ghost use Rattle.fol_base.specs.Order.{tree_greater};
ghost use Rattle.fol_base.specs.Term.{tree_of};
ghost use Rattle.plain_types.specs.Capped.{capped};
ghost use Rattle.kernel_steps.specs.Inference.{other_side_not_above};
ghost use Rattle.unifier.specs.Renaming.{fits};
ghost use Rattle.unifier.specs.SolvedForm.{substitution_of};
ghost use Rattle.eq_rules.specs.Outsizing.{Outsizes, larger_size};

use fol_base::{LendsLiterals, LiteralRef, MOST_SYMBOLS, SIZE_LIMIT, Side, Term};
use kbo_order::is_greater;
use plain_types::Mem;
use unifier::Bindings;

/// Whether the other side of a literal has fewer symbols than a side under a unifier, which then isn't below it.
pub fn is_larger_side(
    unifier: &Bindings,
    of: Side,
    literal: LiteralRef<'_>,
    side: Side,
) -> Mem<bool>
    ensures { IfOk result (λ larger. larger ≡ true → other_side_not_above (substitution_of unifier.now of) side (lent_of literal.entry) ≡ true) }
{
    let size = unifier.term_size(of, literal.side(side))?;
    let other_size = unifier.term_size(of, literal.other_side(side))?;
    Ok(other_size < size)
}

/// Whether the larger side of a literal has more symbols under a unifier than each side of the other literals, but for those of one index. No such
/// literal is greater, or equal.
pub fn outsizes_others<L: LendsLiterals>(
    unifier: &Bindings,
    of: Side,
    literals: &L,
    index: usize,
    but: usize,
) -> Mem<bool>
    requires { index < length (L.meaning literals.now) }
    ensures { IfOk result (λ largest. largest ≡ true → Outsizes (substitution_of unifier.now of) (L.meaning literals.now) index but) }
{
    let literal = literals.literal(index);
    let size = larger_size(unifier, of, literal)?;
    for other in 0..literals.count() {
        if other != index && other != but {
            let other_size = larger_size(unifier, of, literals.literal(other))?;
            if other_size >= size {
                return Ok(false);
            }
        }
    }
    Ok(true)
}

/// The symbols of the larger side of a literal under a unifier, stopping at u64's last value.
fn larger_size(unifier: &Bindings, of: Side, literal: LiteralRef<'_>) -> Mem<u64>
    ensures { IfOk result (λ size. size ≡ capped (larger_size (substitution_of unifier.now of) (lent_of literal.entry))) }
{
    let left_size = unifier.term_size(of, literal.left)?;
    let right_size = unifier.term_size(of, literal.right)?;
    Ok(left_size.max(right_size))
}

/// Whether a term is greater than another one under a unifier, as far as sizes tell it: one with fewer symbols isn't, and small ones are built and
/// compared.
pub fn is_greater_by_size(
    unifier: &Bindings,
    of: Side,
    one: &Term,
    other: &Term,
) -> Mem<Option<bool>>
    requires fits { fits unifier.now SIZE_LIMIT SIZE_LIMIT ≡ true }
    requires one_below { VariablesBelow SIZE_LIMIT (tree_of one.now) }
    requires other_below { VariablesBelow SIZE_LIMIT (tree_of other.now) }
    ensures { IfOk result (λ told. IfSome told (λ greater. tree_greater
        (instance (substitution_of unifier.now of) (tree_of one.now)) (instance (substitution_of unifier.now of) (tree_of other.now)) ≡ greater)) }
{
    let one_size = unifier.term_size(of, one)?;
    let other_size = unifier.term_size(of, other)?;
    if one_size < other_size {
        return Ok(Some(false));
    }
    if one_size > MOST_SYMBOLS {
        return Ok(None);
    }
    let one_term = unifier.apply(of, one)?;
    let other_term = unifier.apply(of, other)?;
    Ok(Some(is_greater(&one_term, &other_term)))
}
