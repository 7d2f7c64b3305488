// Patterns that want the same targets: more of them than there are such targets can't be placed. Without this a search would try each order of
// those that have room, before it finds one too many.

ghost use Rattle.std.specs.Prelude.{◌≡◌, true, None, length, map, IfOk};
ghost use Rattle.fol_base.specs.Lent.{lent_of};
ghost use Rattle.subsume.specs.Crowding.{AreMarked};
ghost use Rattle.subsume.specs.Placing.{IsFoundFor, Places};

use crate::choosing::{may_stand, partners};
use fol_base::LiteralRef;
use plain_types::Mem;
use std::alloc::Global;
use unifier::Matched;

/// Fewer patterns are no crowd.
const FEWEST: usize = 3;

/// Whether more patterns than a pattern has partners have all their partners among its own. True only where they can't all be
/// placed. One partner is no room to look at: the second pattern that wants it has none left.
pub(crate) fn are_crowded(
    alloc: Global,
    pattern: LiteralRef<'_>,
    patterns: &[LiteralRef<'_>],
    targets: &[LiteralRef<'_>],
    used: &[bool],
    so_far: &Matched<'_>,
) -> Mem<bool>
    requires { length used.now ≡ length targets.now }
    ensures { IfOk result (λ found. found ≡ true
        → IsFoundFor (map lent_of patterns.now) (map lent_of targets.now)
        (Places used.now (map lent_of patterns.now) (map lent_of targets.now) so_far.now) None) }
{
    if patterns.len() < FEWEST {
        return Ok(false);
    }
    let mut marks = Vec::with_capacity(alloc, used.len())?;
    marks.extend_from_slice(used)?;
    is_room_short(
        alloc,
        pattern,
        patterns,
        targets,
        marks.as_mut_slice(),
        so_far,
    )
}

/// Whether the pattern's partners are too few, where the marks may be changed.
fn is_room_short(
    alloc: Global,
    pattern: LiteralRef<'_>,
    patterns: &[LiteralRef<'_>],
    targets: &[LiteralRef<'_>],
    marks: &mut [bool],
    so_far: &Matched<'_>,
) -> Mem<bool>
    requires { length marks.old ≡ length targets.now }
    ensures { IfOk result (λ found. found ≡ true
        → IsFoundFor (map lent_of patterns.now) (map lent_of targets.now)
        (Places marks.old (map lent_of patterns.now) (map lent_of targets.now) so_far.now) None) }
{
    let room = mark_partners(alloc, pattern, targets, marks, so_far)?;
    if room.len() < 2 || room.len() >= patterns.len() {
        return Ok(false);
    }
    let mut crowd = 0;
    for one in patterns {
        let others = partners(alloc, *one, targets, marks, so_far, 1)?;
        if others == 0 {
            crowd += 1;
        }
    }
    Ok(crowd > room.len())
}

/// Marks the free partners of a pattern, and lists them.
fn mark_partners(
    alloc: Global,
    pattern: LiteralRef<'_>,
    targets: &[LiteralRef<'_>],
    marks: &mut [bool],
    so_far: &Matched<'_>,
) -> Mem<Vec<usize>>
    requires { length marks.old ≡ length targets.now }
    ensures marked { IfOk result (λ room. AreMarked marks.old marks.new room.items) }
    ensures length { length marks.new ≡ length marks.old }
{
    let mut room = Vec::new(alloc);
    for at in 0..targets.len() {
        if !marks[at] {
            let stands = may_stand(alloc, pattern, targets[at], so_far)?;
            if stands {
                room.push(at)?;
                marks[at] = true;
            }
        }
    }
    Ok(room)
}
