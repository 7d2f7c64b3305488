// The least congruence that contains equations.

ghost use Rattle.std.specs.Prelude.{◌≡◌, ◌≤◌, ◌^◌, length, map, IfOk, IsTrue};
ghost use Rattle.congruence.specs.Congruence.{are_nodes, are_between, IsLeastCongruence};
ghost use Rattle.congruence.specs.Joined.{lowered};

use crate::gaps::find_gap;
use crate::joining::{Joined, Problem, join_all};
use crate::node::{Classes, Equation, Node, class_of};
use plain_types::Mem;
use std::alloc::Global;

/// The classes of the least congruence that contains the equations. Two nodes are in one class exactly where the equations ask it.
pub fn close(alloc: Global, nodes: &[Node], equations: &[Equation]) -> Mem<Classes>
    requires nodes { IsTrue (are_nodes nodes.now) }
    requires few { length nodes.now ≤ 2 ^ 32 }
    requires between { IsTrue (are_between nodes.now equations.now) }
    ensures { IfOk result (IsLeastCongruence nodes.now equations.now) }
{
    let Joined { classes, .. } = closed(alloc, nodes, equations)?;
    Ok(Classes::from_vec(classes))
}

/// The same classes, and why nodes were joined.
pub(crate) fn closed(alloc: Global, nodes: &[Node], equations: &[Equation]) -> Mem<Joined>
    requires nodes { IsTrue (are_nodes nodes.now) }
    requires few { length nodes.now ≤ 2 ^ 32 }
    requires between { IsTrue (are_between nodes.now equations.now) }
    ensures { IfOk result (λ joined. IsLeastCongruence nodes.now equations.now joined.classes.items) }
{
    let problem = Problem { nodes, equations };
    let Joined {
        mut classes,
        forest,
    } = join_all(alloc, &problem)?;
    'gaps: loop {
        let Some(gap) = find_gap(alloc, nodes, equations, classes.as_slice())? else {
            return Ok(Joined { classes, forest });
        };
        let left = class_of(classes.as_slice(), gap.left);
        let right = class_of(classes.as_slice(), gap.right);
        classes = with_lowered(alloc, classes.as_slice(), left, right)?;
    }
}

/// The classes with the greater of two replaced by the smaller one.
fn with_lowered(alloc: Global, classes: &[u32], first: u32, second: u32) -> Mem<Vec<u32>>
    ensures { IfOk result (λ made. made.items ≡ map (lowered first second) classes.now) }
{
    let mut made = Vec::with_capacity(alloc, classes.len())?;
    for class in classes {
        made.push(lowered(first, second, *class))?;
    }
    Ok(made)
}

/// A class after it.
fn lowered(first: u32, second: u32, class: u32) -> u32
    ensures { result ≡ lowered first second class }
{
    if class == first.max(second) {
        first.min(second)
    } else {
        class
    }
}
