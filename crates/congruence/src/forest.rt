// Why nodes are in one class: a forest whose edges are the pairs that were joined, each by an equation or by one signature (Nieuwenhuis,
// Oliveras, Fast Congruence Closure and Extensions, 2007). It proposes the equations that a pair follows from. No answer rests on it.

use crate::node::{Equation, Node};
use plain_types::Mem;
use std::alloc::Global;

/// The reason of an edge that comes by one signature; each other reason is the number of an equation.
pub(crate) const BY_SIGNATURE: u32 = u32::MAX;

/// The mark of an edge that was asked for.
const ASKED: u32 = 1;

/// For each node the one that it hangs on, itself at a root, and the reason of this edge.
#[derive(Drop)]
pub(crate) struct Forest {
    parents: Vec<u32>,
    reasons: Vec<u32>,
}

/// The number at a place, or 0.
fn at(numbers: &[u32], place: u32) -> u32 {
    numbers.get(place as usize).copied().unwrap_or(0)
}

/// Writes a number at a place, where there is one.
fn put(numbers: &mut Vec<u32>, place: u32, number: u32) {
    if let Some(slot) = numbers.get_mut(place as usize) {
        *slot = number;
    }
}

impl Forest {
    /// Each node is a root.
    pub fn new(alloc: Global, nodes: &[Node]) -> Mem<Forest> {
        let mut parents = Vec::with_capacity(alloc, nodes.len())?;
        for number in 0..nodes.len() {
            parents.push(u32::try_from(number).unwrap_or(0))?;
        }
        let reasons = vec![in alloc; BY_SIGNATURE; nodes.len()]?;
        Ok(Forest { parents, reasons })
    }

    /// Hangs the tree of the pair's left side on its right side: on the way from the left side to its root all edges are turned.
    pub fn link(&mut self, pair: Equation, reason: u32) {
        let (mut node, mut above, mut why) = (pair.left, pair.right, reason);
        for _ in 0..self.parents.len() {
            let next = at(self.parents.as_slice(), node);
            let next_why = at(self.reasons.as_slice(), node);
            put(&mut self.parents, node, above);
            put(&mut self.reasons, node, why);
            if next == node {
                return;
            }
            above = node;
            node = next;
            why = next_why;
        }
    }

    /// The numbers of equations that a joined pair follows from.
    pub fn reasons_of(&self, alloc: Global, nodes: &[Node], pair: Equation) -> Mem<Vec<u32>> {
        let mut asked = Asked::new(alloc, self.parents.len())?;
        asked.pairs.push(pair)?;
        for _ in 0..u64::MAX {
            let Some(next) = asked.pairs.pop() else { break };
            self.ask_path(nodes, next, &mut asked)?;
        }
        Ok(asked.equations)
    }

    /// Asks for the edges between the sides of a pair.
    fn ask_path(&self, nodes: &[Node], pair: Equation, asked: &mut Asked) -> Mem<()> {
        asked.round = asked.round.wrapping_add(1);
        self.mark_path(pair.left, asked);
        let meeting = self.first_marked(pair.right, asked);
        self.ask_edges(nodes, pair.left, meeting, asked)?;
        self.ask_edges(nodes, pair.right, meeting, asked)
    }

    /// Marks a node and all above it.
    fn mark_path(&self, start: u32, asked: &mut Asked) {
        let mut node = start;
        for _ in 0..self.parents.len() {
            put(&mut asked.marks, node, asked.round);
            let next = at(self.parents.as_slice(), node);
            if next == node {
                return;
            }
            node = next;
        }
    }

    /// The first marked node on the way from a node to its root.
    fn first_marked(&self, start: u32, asked: &Asked) -> u32 {
        let mut node = start;
        for _ in 0..self.parents.len() {
            if at(asked.marks.as_slice(), node) == asked.round {
                return node;
            }
            node = at(self.parents.as_slice(), node);
        }
        node
    }

    /// Asks for the edges on the way from a node to one above it.
    fn ask_edges(&self, nodes: &[Node], start: u32, end: u32, asked: &mut Asked) -> Mem<()> {
        let mut node = start;
        for _ in 0..self.parents.len() {
            if node == end {
                return Ok(());
            }
            let parent = at(self.parents.as_slice(), node);
            asked.ask_edge(nodes, node, parent, at(self.reasons.as_slice(), node))?;
            node = parent;
        }
        Ok(())
    }
}

/// What is asked for.
#[derive(Drop)]
struct Asked {
    /// Pairs whose paths are still to be walked.
    pairs: Vec<Equation>,
    /// The round in which each node was marked last.
    marks: Vec<u32>,
    round: u32,
    /// Whether the edge above each node was asked for.
    edges: Vec<u32>,
    /// The numbers of the equations so far.
    equations: Vec<u32>,
}

impl Asked {
    /// Nothing is asked for.
    fn new(alloc: Global, nodes: usize) -> Mem<Asked> {
        Ok(Asked {
            pairs: Vec::new(alloc),
            marks: vec![in alloc; 0; nodes]?,
            round: 0,
            edges: vec![in alloc; 0; nodes]?,
            equations: Vec::new(alloc),
        })
    }

    /// Asks for an edge with its reason, unless it was asked for.
    fn ask_edge(&mut self, nodes: &[Node], node: u32, parent: u32, reason: u32) -> Mem<()> {
        if at(self.edges.as_slice(), node) == ASKED {
            return Ok(());
        }
        put(&mut self.edges, node, ASKED);
        if reason != BY_SIGNATURE {
            self.equations.push(reason)?;
            return Ok(());
        }
        self.ask_arguments(nodes, node, parent)
    }

    /// Asks why the arguments of two nodes are one.
    fn ask_arguments(&mut self, nodes: &[Node], node: u32, parent: u32) -> Mem<()> {
        let Some(first) = nodes.get(node as usize) else {
            return Ok(());
        };
        let Some(second) = nodes.get(parent as usize) else {
            return Ok(());
        };
        for (left, right) in first.arguments.iter().zip(second.arguments.iter()) {
            if *left != *right {
                self.pairs.push(Equation {
                    left: *left,
                    right: *right,
                })?;
            }
        }
        Ok(())
    }
}
