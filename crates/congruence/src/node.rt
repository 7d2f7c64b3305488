// Ground terms as numbered nodes, equations between them, and their classes.

ghost use Rattle.std.specs.Prelude.{◌≡◌, ◌∷◌, length, map, IfOk};
ghost use Rattle.congruence.specs.Congruence.{class_in, signature, joins};

use plain_types::{Mem, Sequence};
use std::alloc::Global;

/// The numbers of a node's arguments.
pub type Arguments = Sequence<u32>;

/// A ground term: a symbol with the numbers of its arguments.
#[derive(Drop)]
pub struct Node {
    pub symbol: u32,
    pub arguments: Arguments,
}

/// An equation between two nodes.
#[derive(Clone, Copy, Debug, PartialEq, Eq)]
pub struct Equation {
    pub left: u32,
    pub right: u32,
}

/// A class for each node, by number. Nodes are in one class where these are equal.
pub type Classes = Sequence<u32>;

/// The class of a node.
pub(crate) fn class_of(classes: &[u32], node: u32) -> u32
    ensures { result ≡ class_in classes.now node }
{
    classes.get(node as usize).copied().unwrap_or(0)
}

/// Whether both sides are in one class.
pub(crate) fn are_joined(classes: &[u32], equation: Equation) -> bool
    ensures { result ≡ joins (class_in classes.now) equation }
{
    class_of(classes, equation.left) == class_of(classes, equation.right)
}

/// The symbol of a node, and the classes of its arguments.
pub(crate) fn signature_of(alloc: Global, node: &Node, classes: &[u32]) -> Mem<Vec<u32>>
    ensures { IfOk result (λ key. key.items ≡ signature (class_in classes.now) node.now) }
{
    let mut key = Vec::new(alloc);
    key.push(node.symbol)?;
    for argument in node.arguments.as_slice() {
        key.push(class_of(classes, *argument))?;
    }
    Ok(key)
}
