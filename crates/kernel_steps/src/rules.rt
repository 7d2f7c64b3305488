// The rules on literals under bindings. They borrow the literals, and build a rule's conclusion and nothing else.

ghost use Rattle.std.specs.Prelude.{◌≡◌, ◌≤◌, ◌<◌, ◌-◌, ◌++◌, ◌&&◌, map, length, drop, take, IfOk, remove, slice_set};
ghost use Rattle.std.specs.Option.{option_map};
ghost use Rattle.fol_base.specs.Term.{tree_of};
ghost use Rattle.fol_base.specs.Clause.{literal_instance};
ghost use Rattle.fol_base.specs.Ground.{literals_instance};
ghost use Rattle.fol_base.specs.Literal.{literal_of};
ghost use Rattle.fol_base.specs.Lent.{lent_of};
ghost use Rattle.fol_base.specs.Tree.{tree_eq};
ghost use Rattle.fol_base.specs.Sides.{side_of, with_side};
ghost use Rattle.fol_base.specs.Order.{equivalent_literals};
ghost use Rattle.fol_base.specs.Rules.{may_be_chosen, superposed_literal, superposed, resolved, factored, merged};

use crate::instance::{instance, is_truth_instance, replaced_instance, stands_at};
use fol_base::{
    LendsLiterals, LendsTerms, Literal, LiteralRef, Literals, Position, Side, Term, same_instance,
};
use plain_types::Mem;
use std::alloc::Global;

/// Literals and the terms that their variables stand for, lent.
#[derive(Drop)]
pub struct Bound<'a, L, S> {
    pub literals: &'a L,
    pub bind: &'a S,
}

/// Superposition: the literals of the second with one of them superposed, then the other literals of the first.
/// None where the condition of the rule fails.
pub fn para<L: LendsLiterals, S: LendsTerms, M: LendsLiterals, T: LendsTerms>(
    alloc: Global,
    first: &Bound<'_, L, S>,
    from: u64,
    from_side: Side,
    second: &Bound<'_, M, T>,
    into: u64,
    into_side: Side,
    place: &Position,
) -> Mem<Option<Literals>>
    ensures { IfOk result (λ made. option_map (map literal_of) made ≡ superposed
        (literals_instance (S.meaning first.now.bind.now) (L.meaning first.now.literals.now)) from from_side
        (literals_instance (T.meaning second.now.bind.now) (M.meaning second.now.literals.now)) into into_side place.now) }
{
    let from = from as usize;
    let into = into as usize;
    if from >= first.literals.count() || into >= second.literals.count() {
        return Ok(None);
    }
    match superpose(
        alloc,
        first.literals.literal(from),
        first.bind,
        from_side,
        second.literals.literal(into),
        second.bind,
        into_side,
        place.as_slice(),
    )? {
        None => Ok(None),
        Some(new) => {
            let mut made = with_exchanged(alloc, second, into, new)?;
            push_others(alloc, &mut made, first, from)?;
            Ok(Some(Literals::from_vec(made)))
        }
    }
}

/// Equality resolution: the literals without a negative one whose sides are equal. None where the condition of
/// the rule fails.
pub fn refl<L: LendsLiterals, S: LendsTerms>(
    alloc: Global,
    parent: &Bound<'_, L, S>,
    index: u64,
) -> Mem<Option<Literals>>
    ensures { IfOk result (λ made. option_map (map literal_of) made ≡ resolved
        (literals_instance (S.meaning parent.now.bind.now) (L.meaning parent.now.literals.now)) index) }
{
    let index = index as usize;
    if index >= parent.literals.count() {
        return Ok(None);
    }
    let literal = parent.literals.literal(index);
    if literal.positive || !same_instance(literal.left, parent.bind, literal.right, parent.bind) {
        return Ok(None);
    }
    Ok(Some(others(alloc, parent, index)?))
}

/// Equality factoring: the literals where one of two equations with an equal side is the disequation of their
/// other sides. None where the condition of the rule fails.
pub fn factor<L: LendsLiterals, S: LendsTerms>(
    alloc: Global,
    parent: &Bound<'_, L, S>,
    becomes: u64,
    becomes_side: Side,
    other: u64,
    other_side: Side,
) -> Mem<Option<Literals>>
    ensures { IfOk result (λ made. option_map (map literal_of) made ≡ factored
        (literals_instance (S.meaning parent.now.bind.now) (L.meaning parent.now.literals.now)) becomes becomes_side other other_side) }
{
    let becomes = becomes as usize;
    let other = other as usize;
    let count = parent.literals.count();
    if becomes == other || becomes >= count || other >= count {
        return Ok(None);
    }
    let first = parent.literals.literal(becomes);
    let second = parent.literals.literal(other);
    if !can_factor(first, becomes_side, second, other_side, parent.bind) {
        return Ok(None);
    }
    let new = Literal {
        positive: false,
        left: instance(alloc, first.other_side(becomes_side), parent.bind)?,
        right: instance(alloc, second.other_side(other_side), parent.bind)?,
    };
    let made = with_exchanged(alloc, parent, becomes, new)?;
    Ok(Some(Literals::from_vec(made)))
}

/// Merging: the literals without the second of two at different places that are equal, sides in either order.
/// None where the condition of the rule fails.
pub fn merge<L: LendsLiterals, S: LendsTerms>(
    alloc: Global,
    parent: &Bound<'_, L, S>,
    stays: u64,
    goes: u64,
) -> Mem<Option<Literals>>
    ensures { IfOk result (λ made. option_map (map literal_of) made ≡ merged
        (literals_instance (S.meaning parent.now.bind.now) (L.meaning parent.now.literals.now)) stays goes) }
{
    let stays = stays as usize;
    let goes = goes as usize;
    let count = parent.literals.count();
    if stays == goes || stays >= count || goes >= count {
        return Ok(None);
    }
    let first = parent.literals.literal(stays);
    let second = parent.literals.literal(goes);
    if !equivalent_instances(first, second, parent.bind) {
        return Ok(None);
    }
    Ok(Some(others(alloc, parent, goes)?))
}

/// The second literal with the other side of the first at the place, where the chosen side of the first
/// stands there. None where the condition of superposition fails.
fn superpose<S: LendsTerms, T: LendsTerms>(
    alloc: Global,
    from: LiteralRef<'_>,
    from_bind: &S,
    from_side: Side,
    into: LiteralRef<'_>,
    into_bind: &T,
    into_side: Side,
    place: &[u64],
) -> Mem<Option<Literal>>
    ensures { IfOk result (λ made. option_map literal_of made ≡ superposed_literal
        (literal_instance (S.meaning from_bind.now) (lent_of from.entry)) from_side
        (literal_instance (T.meaning into_bind.now) (lent_of into.entry)) into_side place.now) }
{
    let chosen = from.side(from_side);
    let host = into.side(into_side);
    if !from.positive || is_truth_instance(chosen, from_bind) {
        return Ok(None);
    }
    if !stands_at(chosen, from_bind, host, into_bind, place) {
        return Ok(None);
    }
    let new = instance(alloc, from.other_side(from_side), from_bind)?;
    match replaced_instance(alloc, host, into_bind, place, new)? {
        None => Ok(None),
        Some(side) => Ok(Some(with_side(alloc, into, into_bind, into_side, side)?)),
    }
}

/// Whether the sides of two equations are equal, and the first isn't `$true`.
fn can_factor<S: LendsTerms>(
    first: LiteralRef<'_>,
    first_side: Side,
    second: LiteralRef<'_>,
    second_side: Side,
    bind: &S,
) -> bool
    ensures { result ≡ (may_be_chosen (literal_instance (S.meaning bind.now) (lent_of first.entry)) first_side
        && (second.entry.positive
        && tree_eq (side_of first_side (literal_instance (S.meaning bind.now) (lent_of first.entry)))
        (side_of second_side (literal_instance (S.meaning bind.now) (lent_of second.entry))))) }
{
    let chosen = first.side(first_side);
    first.positive
        && !is_truth_instance(chosen, bind)
        && second.positive
        && same_instance(chosen, bind, second.side(second_side), bind)
}

/// Whether the instances of two literals have equal signs, and equal sides in either order.
fn equivalent_instances<S: LendsTerms>(
    left: LiteralRef<'_>,
    right: LiteralRef<'_>,
    bind: &S,
) -> bool
    ensures { result ≡ equivalent_literals
        (literal_instance (S.meaning bind.now) (lent_of left.entry)) (literal_instance (S.meaning bind.now) (lent_of right.entry)) }
{
    left.positive == right.positive
        && ((same_instance(left.left, bind, right.left, bind)
            && same_instance(left.right, bind, right.right, bind))
            || (same_instance(left.left, bind, right.right, bind)
                && same_instance(left.right, bind, right.left, bind)))
}

/// The instance of a literal.
fn literal_instance<S: LendsTerms>(alloc: Global, literal: LiteralRef<'_>, bind: &S) -> Mem<Literal>
    ensures { IfOk result (λ made. literal_of made ≡ literal_instance (S.meaning bind.now) (lent_of literal.entry)) }
{
    let left = instance(alloc, literal.left, bind)?;
    let right = instance(alloc, literal.right, bind)?;
    Ok(Literal {
        positive: literal.positive,
        left,
        right,
    })
}

/// The instance of a literal, with one side exchanged.
fn with_side<S: LendsTerms>(
    alloc: Global,
    literal: LiteralRef<'_>,
    bind: &S,
    side: Side,
    new: Term,
) -> Mem<Literal>
    ensures { IfOk result (λ made.
        literal_of made ≡ with_side side (tree_of new) (literal_instance (S.meaning bind.now) (lent_of literal.entry))) }
{
    match side {
        Side::Left => {
            let right = instance(alloc, literal.right, bind)?;
            Ok(Literal {
                positive: literal.positive,
                left: new,
                right,
            })
        }
        Side::Right => {
            let left = instance(alloc, literal.left, bind)?;
            Ok(Literal {
                positive: literal.positive,
                left,
                right: new,
            })
        }
    }
}

/// The instances of the literals with one of them exchanged.
fn with_exchanged<L: LendsLiterals, S: LendsTerms>(
    alloc: Global,
    parent: &Bound<'_, L, S>,
    index: usize,
    new: Literal,
) -> Mem<Vec<Literal>>
    requires { index < length (L.meaning parent.now.literals.now) }
    ensures { IfOk result (λ made. map literal_of made.items ≡ slice_set
        (map (literal_instance (S.meaning parent.now.bind.now)) (L.meaning parent.now.literals.now)) index (literal_of new)) }
{
    let count = parent.literals.count();
    let mut made = Vec::with_capacity(alloc, count)?;
    push_instances(alloc, &mut made, parent, 0, index)?;
    made.push(new)?;
    push_instances(alloc, &mut made, parent, index + 1, count)?;
    Ok(made)
}

/// The instances of all literals but one.
fn others<L: LendsLiterals, S: LendsTerms>(
    alloc: Global,
    parent: &Bound<'_, L, S>,
    index: usize,
) -> Mem<Literals>
    requires { index < length (L.meaning parent.now.literals.now) }
    ensures { IfOk result (λ made. map literal_of made ≡ remove
        (map (literal_instance (S.meaning parent.now.bind.now)) (L.meaning parent.now.literals.now)) index) }
{
    let mut made = Vec::with_capacity(alloc, parent.literals.count())?;
    push_others(alloc, &mut made, parent, index)?;
    Ok(Literals::from_vec(made))
}

/// Adds the instances of all literals but one.
fn push_others<L: LendsLiterals, S: LendsTerms>(
    alloc: Global,
    made: &mut Vec<Literal>,
    parent: &Bound<'_, L, S>,
    index: usize,
) -> Mem<()>
    requires { index < length (L.meaning parent.now.literals.now) }
    ensures { IfOk result (λ _. map literal_of made.new.items ≡ map literal_of made.old.items ++ remove
        (map (literal_instance (S.meaning parent.now.bind.now)) (L.meaning parent.now.literals.now)) index) }
{
    push_instances(alloc, made, parent, 0, index)?;
    push_instances(alloc, made, parent, index + 1, parent.literals.count())
}

/// Adds the instances of the literals from one index up to another.
fn push_instances<L: LendsLiterals, S: LendsTerms>(
    alloc: Global,
    made: &mut Vec<Literal>,
    parent: &Bound<'_, L, S>,
    start: usize,
    end: usize,
) -> Mem<()>
    requires rising { start ≤ end }
    requires within { end ≤ length (L.meaning parent.now.literals.now) }
    ensures { IfOk result (λ _. map literal_of made.new.items ≡ map literal_of made.old.items
        ++ map (literal_instance (S.meaning parent.now.bind.now)) (take (end - start) (drop start (L.meaning parent.now.literals.now)))) }
{
    for index in start..end {
        let literal = parent.literals.literal(index);
        made.push(literal_instance(alloc, literal, parent.bind)?)?;
    }
    Ok(())
}
