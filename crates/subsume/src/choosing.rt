// Which literal a search places next: one with the fewest partners among the targets that are left, so that a search that fails, fails early.

ghost use Rattle.std.specs.Prelude.{◌≡◌, ◌<◌, false, None, length, map, IfOk, MatchOption};
ghost use Rattle.fol_base.specs.Lent.{lent_of};
ghost use Rattle.subsume.specs.Placing.{IsFoundFor, Places};
ghost use Rattle.subsume.specs.Target.{IsMapped};
ghost use Rattle.unifier.specs.Matching.{HasPairs};
ghost use Rattle.subsume.specs.Choosing.{AreNoPartners, HasNoPartner, MayStand};

use crate::crowding::are_crowded;
use crate::matching::{are_alike, may_turn};
use fol_base::{LendsLiterals, LiteralRef};
use plain_types::Mem;
use std::alloc::Global;
use unifier::Matched;

/// How many partners are counted at a step, shared out evenly among the patterns: the more patterns, the sooner counts stop being compared.
const COUNTED: usize = 1024;

/// Counts go as far as this at least, so that a pattern with one partner or none is told among any number of patterns.
const FEWEST_COUNTED: usize = 2;

/// Whether each literal of a lender has a partner among the targets. False only where nothing is an instance of one.
pub(crate) fn have_partners<L: LendsLiterals>(
    alloc: Global,
    lender: &L,
    targets: &[LiteralRef<'_>],
) -> Mem<bool>
    ensures { IfOk result (λ found. found ≡ false
        → IsFoundFor (L.meaning lender.now) (map lent_of targets.now) (IsMapped (L.meaning lender.now) (map lent_of targets.now)) None) }
{
    let nothing = Matched::empty(alloc);
    for index in 0..lender.count() {
        let literal = lender.literal(index);
        let found = has_partner(alloc, literal, targets, &nothing)?;
        if !found {
            return Ok(false);
        }
    }
    Ok(true)
}

/// Whether some target may be an instance of a literal.
fn has_partner(
    alloc: Global,
    literal: LiteralRef<'_>,
    targets: &[LiteralRef<'_>],
    so_far: &Matched<'_>,
) -> Mem<bool>
    ensures { IfOk result (λ found. found ≡ false → AreNoPartners so_far.now (lent_of literal.entry) (map lent_of targets.now)) }
{
    for target in targets {
        let stands = may_stand(alloc, literal, *target, so_far)?;
        if stands {
            return Ok(true);
        }
    }
    Ok(false)
}

/// The index of the pattern to be placed next. None only where some pattern can't be placed.
pub(crate) fn choose(
    alloc: Global,
    patterns: &[LiteralRef<'_>],
    targets: &[LiteralRef<'_>],
    used: &[bool],
    so_far: &Matched<'_>,
) -> Mem<Option<usize>>
    requires patterns { 0 < length patterns.now }
    requires marks { length used.now ≡ length targets.now }
    ensures { IfOk result (λ found. MatchOption found
        (IsFoundFor (map lent_of patterns.now) (map lent_of targets.now)
        (Places used.now (map lent_of patterns.now) (map lent_of targets.now) so_far.now) None)
        (λ chosen. chosen < length patterns.now)) }
{
    let mut chosen = 0;
    let mut fewest = most_counted(patterns.len());
    for index in 0..patterns.len() {
        let partners = partners(alloc, patterns[index], targets, used, so_far, fewest)?;
        if partners == 0 {
            return Ok(None);
        }
        if partners == 1 && patterns[index].right.is_truth() {
            // An atom turns one way alone, so a search never comes back to place it anew: nothing is lost if the patterns after it aren't looked at.
            return Ok(Some(index));
        }
        if partners < fewest {
            chosen = index;
            fewest = partners;
        }
    }
    let crowded = are_crowded(alloc, patterns[chosen], patterns, targets, used, so_far)?;
    if crowded { Ok(None) } else { Ok(Some(chosen)) }
}

/// How many partners of each pattern are counted, by the number of patterns.
fn most_counted(patterns: usize) -> usize
    requires { 0 < patterns }
{
    let share = COUNTED / patterns;
    if share < FEWEST_COUNTED {
        FEWEST_COUNTED
    } else {
        share
    }
}

/// How many of the targets that aren't marked may be instances of a literal by the pairs. The count stops at a limit.
pub(crate) fn partners(
    alloc: Global,
    literal: LiteralRef<'_>,
    targets: &[LiteralRef<'_>],
    used: &[bool],
    so_far: &Matched<'_>,
    limit: usize,
) -> Mem<usize>
    requires { length used.now ≡ length targets.now }
    ensures { IfOk result (λ count. count ≡ 0
        → HasNoPartner so_far.now used.now (lent_of literal.entry) (map lent_of targets.now) (length targets.now)) }
{
    let mut count = 0;
    for at in 0..targets.len() {
        if !used[at] {
            let stands = may_stand(alloc, literal, targets[at], so_far)?;
            if stands {
                count += 1;
                if count >= limit {
                    return Ok(count);
                }
            }
        }
    }
    Ok(count)
}

/// Whether the pairs leave it open that an instance of a literal is another one, sides in either order.
pub(crate) fn may_stand(
    alloc: Global,
    pattern: LiteralRef<'_>,
    target: LiteralRef<'_>,
    so_far: &Matched<'_>,
) -> Mem<bool>
    ensures { IfOk result (MayStand so_far.now (lent_of pattern.entry) (lent_of target.entry)) }
{
    if !are_alike(pattern, target) {
        return Ok(false);
    }
    let turns = may_turn(alloc, pattern, target, so_far)?;
    if turns || target.right.is_truth() {
        return Ok(turns);
    }
    may_turn(alloc, pattern, target.exchanged(), so_far)
}
