// The index of the units' sides.

ghost use Rattle.std.specs.Prelude.{◌≡◌, ◌<◌, IfOk, IsTrue};
ghost use Rattle.fol_base.specs.Clause.{literal_size};
ghost use Rattle.fol_base.specs.Sides.{side_of};
ghost use Rattle.fol_base.specs.declared.limits.TheConstants.{SIZE_LIMIT};
ghost use Rattle.fol_base.specs.Lent.{lent_of};
ghost use Rattle.fol_base.specs.declared.clause.Side.{Side};
ghost use Rattle.disc_tree.specs.Entries.{IsIn, KeepsAll};
ghost use Rattle.rewriting.specs.Units.{may_rewrite, oriented};
ghost use Rattle.bank_clause.specs.Clause.{side_number};
ghost use Rattle.rewriting.specs.Index.{KeepsOthers};

use disc_tree::DiscTree;
use fol_base::{LiteralRef, Side, are_among, push_variables};
use kbo_order::is_greater;
use plain_types::Mem;
use std::alloc::Global;

/// The number of a side of a unit.
pub(crate) fn side_number(number: u32, side: Side) -> u64
    ensures { result ≡ side_number number side }
{
    let twice = 2 * u64::from(number);
    match side {
        Side::Left => twice,
        Side::Right => twice + 1,
    }
}

/// The unit and the side that a number stands for.
pub(crate) fn side_of_number(entry: u64) -> (u64, Side)
    ensures { entry ≡ side_number result.0 result.1 }
{
    let side = if entry % 2 == 0 {
        Side::Left
    } else {
        Side::Right
    };
    (entry / 2, side)
}

/// The sides of a unit by which it may rewrite: those in which each variable of the other side occurs, and that aren't smaller than it.
#[derive(Clone, Copy)]
pub(crate) struct Orientation {
    pub(crate) left: bool,
    pub(crate) right: bool,
}

impl Orientation {
    /// Whether a side is one of them.
    pub(crate) fn has(self, side: Side) -> bool
        ensures { result ≡ oriented side self }
    {
        match side {
            Side::Left => self.left,
            Side::Right => self.right,
        }
    }
}

/// By which sides an equation may rewrite.
pub(crate) fn orient(alloc: Global, equation: LiteralRef<'_>) -> Mem<Orientation>
    requires { literal_size (lent_of equation) < SIZE_LIMIT }
    ensures { IfOk result (λ made. (s : Side) → oriented s made ≡ may_rewrite s (lent_of equation.entry)) }
{
    let mut left = Vec::new(alloc);
    push_variables(equation.left, &mut left)?;
    let mut right = Vec::new(alloc);
    push_variables(equation.right, &mut right)?;
    Ok(Orientation {
        left: are_among(&right, &left) && !is_greater(equation.right, equation.left),
        right: are_among(&left, &right) && !is_greater(equation.left, equation.right),
    })
}

/// Adds the sides by which an equation may rewrite. After an out-of-memory error the sides of other equations are as before.
pub(crate) fn put_sides(
    sides: &mut DiscTree,
    number: u32,
    equation: LiteralRef<'_>,
    by: Orientation,
) -> Mem<()>
    ensures put { IfOk result (λ _. (s : Side) → IsTrue (oriented s by) → IsIn (side_of s (lent_of equation.entry), side_number number s) sides.new) }
    ensures kept { KeepsOthers number sides.old sides.new }
{
    put_side(sides, number, equation, Side::Left, by)?;
    match put_side(sides, number, equation, Side::Right, by) {
        Ok(()) => Ok(()),
        Err(refused) => {
            take_side(sides, number, equation, Side::Left);
            Err(refused)
        }
    }
}

/// Takes away the sides of an equation.
pub(crate) fn take_sides(sides: &mut DiscTree, number: u32, equation: LiteralRef<'_>)
    ensures { KeepsOthers number sides.old sides.new }
{
    take_side(sides, number, equation, Side::Left);
    take_side(sides, number, equation, Side::Right);
}

/// Adds a side of an equation, if the equation may rewrite by it.
fn put_side(
    sides: &mut DiscTree,
    number: u32,
    equation: LiteralRef<'_>,
    side: Side,
    by: Orientation,
) -> Mem<()>
    ensures put { IfOk result (λ _. IsTrue (oriented side by) → IsIn (side_of side (lent_of equation.entry), side_number number side) sides.new) }
    ensures kept { KeepsAll sides.old sides.new }
{
    if !by.has(side) {
        return Ok(());
    }
    sides.insert(equation.side(side), side_number(number, side))?;
    Ok(())
}

/// Takes away a side of an equation, if it is there.
fn take_side(sides: &mut DiscTree, number: u32, equation: LiteralRef<'_>, side: Side)
    ensures { KeepsOthers number sides.old sides.new }
{
    sides.remove(equation.side(side), side_number(number, side));
}
