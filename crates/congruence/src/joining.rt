// Classes are joined, the smaller one into the greater one, with what finds the next pairs. All but the classes themselves is a hint.

ghost use Rattle.std.specs.Prelude.{◌≡◌, ℕ, ◌<◌, ◌≤◌, ◌^◌, ◌⊎◌, length, IfOk, IsTrue};
ghost use Rattle.congruence.specs.Congruence.{class_in, are_nodes, are_between};
ghost use Rattle.congruence.specs.Joined.{exchanged, AreOne, AreSound, AreAlike, AreRelabelled};

use crate::forest::{BY_SIGNATURE, Forest};
use crate::node::{Equation, Node, class_of, signature_of};
use indexmap::IndexMap;
use plain_types::Mem;
use std::alloc::Global;
use std::mem;

/// Nodes and the equations that they are joined by.
#[derive(Clone, Copy)]
pub(crate) struct Problem<'a> {
    pub nodes: &'a [Node],
    pub equations: &'a [Equation],
}

/// The classes so far.
#[derive(Drop)]
struct Joining {
    classes: Vec<u32>,
    /// The nodes of each class.
    members: Vec<Vec<u32>>,
    /// The nodes with an argument in each class.
    users: Vec<Vec<u32>>,
    /// A node with each signature that was met.
    known: IndexMap<Vec<u32>, u32>,
    /// Pairs that have one signature.
    pending: Vec<Equation>,
    forest: Forest,
}

/// The classes of nodes that are joined, and why.
#[derive(Drop)]
pub(crate) struct Joined {
    pub classes: Vec<u32>,
    pub forest: Forest,
}

/// The classes of the nodes after all equations are worked.
pub(crate) fn join_all(alloc: Global, problem: &Problem<'_>) -> Mem<Joined>
    requires nodes { IsTrue (are_nodes problem.now.nodes.now) }
    requires few { length problem.now.nodes.now ≤ 2 ^ 32 }
    requires between { IsTrue (are_between problem.now.nodes.now problem.now.equations.now) }
    ensures { IfOk result (λ joined. AreSound problem.now.nodes.now problem.now.equations.now joined.classes.items) }
{
    let mut joining = Joining::new(alloc, problem)?;
    for number in 0..problem.nodes.len() {
        joining.meet(alloc, problem, number as u32)?;
    }
    joining.settle(alloc, problem)?;
    for index in 0..problem.equations.len() {
        let reason = u32::try_from(index).unwrap_or(BY_SIGNATURE);
        joining.join(alloc, problem, problem.equations[index], reason)?;
        joining.settle(alloc, problem)?;
    }
    let Joining {
        classes,
        forest,
        ..
    } = joining;
    Ok(Joined { classes, forest })
}

impl Joining {
    /// Each node is a class.
    fn new(alloc: Global, problem: &Problem<'_>) -> Mem<Joining>
        requires few { length problem.now.nodes.now ≤ 2 ^ 32 }
        ensures { IfOk result (λ joining. AreSound problem.now.nodes.now problem.now.equations.now joining.classes.items) }
    {
        Ok(Joining {
            classes: own_classes(alloc, problem.nodes.len())?,
            members: single_members(alloc, problem.nodes.len())?,
            users: users_of(alloc, problem.nodes)?,
            known: IndexMap::new(alloc),
            pending: Vec::new(alloc),
            forest: Forest::new(alloc, problem.nodes)?,
        })
    }

    /// Looks a node up by its signature: one that was met with it is to be joined with the node.
    fn meet(&mut self, alloc: Global, problem: &Problem<'_>, number: u32) -> Mem<()>
        ensures { self.new.classes ≡ self.old.classes }
    {
        let Some(node) = problem.nodes.get(number as usize) else {
            return Ok(());
        };
        let key = signature_of(alloc, node, self.classes.as_slice())?;
        match self.known.get(key.as_slice()).copied() {
            Some(left) => self.pending.push(Equation {
                left,
                right: number,
            })?,
            None => {
                self.known.insert(key, number)?;
            }
        }
        Ok(())
    }

    /// Joins the pairs that have one signature, until there are no more.
    fn settle(&mut self, alloc: Global, problem: &Problem<'_>) -> Mem<()>
        requires nodes { IsTrue (are_nodes problem.now.nodes.now) }
        requires sound { AreSound problem.now.nodes.now problem.now.equations.now self.old.classes.items }
        ensures { IfOk result (λ _. AreSound problem.now.nodes.now problem.now.equations.now self.new.classes.items) }
    {
        'pairs: for _ in 0..u64::MAX {
            let Some(pair) = self.pending.pop() else {
                return Ok(());
            };
            let alike = are_alike(alloc, problem.nodes, self.classes.as_slice(), pair)?;
            if alike {
                self.join(alloc, problem, pair, BY_SIGNATURE)?;
            }
        }
        Ok(())
    }

    /// Joins two nodes that are one, and looks the nodes up anew that have an argument in the class that goes.
    fn join(&mut self, alloc: Global, problem: &Problem<'_>, pair: Equation, reason: u32) -> Mem<()>
        requires left_there { pair.left < length problem.now.nodes.now }
        requires right_there { pair.right < length problem.now.nodes.now }
        requires one { AreOne problem.now.nodes.now problem.now.equations.now pair.left pair.right }
        requires sound { AreSound problem.now.nodes.now problem.now.equations.now self.old.classes.items }
        ensures { IfOk result (λ _. AreSound problem.now.nodes.now problem.now.equations.now self.new.classes.items) }
    {
        let pair = self.smaller_first(pair);
        let from = class_of(self.classes.as_slice(), pair.left);
        let to = class_of(self.classes.as_slice(), pair.right);
        if from == to {
            return Ok(());
        }
        self.forest.link(pair, reason);
        let moved = taken(alloc, &mut self.members, from);
        relabel(&mut self.classes, moved.as_slice(), from, to);
        extend(&mut self.members, to, moved.as_slice())?;
        let users = taken(alloc, &mut self.users, from);
        for user in &users {
            self.meet(alloc, problem, *user)?;
        }
        extend(&mut self.users, to, users.as_slice())
    }

    /// The pair with the side first whose class has fewer nodes.
    fn smaller_first(&self, pair: Equation) -> Equation
        ensures { (result ≡ pair) ⊎ (result ≡ exchanged pair) }
    {
        let left = class_of(self.classes.as_slice(), pair.left);
        let right = class_of(self.classes.as_slice(), pair.right);
        if self.count(left) <= self.count(right) {
            return pair;
        }
        Equation {
            left: pair.right,
            right: pair.left,
        }
    }

    /// How many nodes a class has.
    fn count(&self, class: u32) -> usize {
        match self.members.get(class as usize) {
            Some(nodes) => nodes.len(),
            None => 0,
        }
    }
}

/// Whether two nodes are known to have one signature.
fn are_alike(alloc: Global, nodes: &[Node], classes: &[u32], pair: Equation) -> Mem<bool>
    ensures { IfOk result (λ alike. IsTrue alike → AreAlike nodes.now (class_in classes.now) pair) }
{
    let Some(left) = nodes.get(pair.left as usize) else {
        return Ok(false);
    };
    let Some(right) = nodes.get(pair.right as usize) else {
        return Ok(false);
    };
    let first = signature_of(alloc, left, classes)?;
    let second = signature_of(alloc, right, classes)?;
    Ok(first.as_slice() == second.as_slice())
}

/// Each number of a node, as its class.
fn own_classes(alloc: Global, count: usize) -> Mem<Vec<u32>>
    requires { count ≤ 2 ^ 32 }
    ensures count { IfOk result (λ classes. length classes.items ≡ count) }
    ensures own { IfOk result (λ classes. (n : ℕ) → n < count → class_in classes.items n ≡ n) }
{
    let mut classes = Vec::with_capacity(alloc, count)?;
    for number in 0..count {
        classes.push(number as u32)?;
    }
    Ok(classes)
}

/// For each node the list of it alone.
fn single_members(alloc: Global, count: usize) -> Mem<Vec<Vec<u32>>>
    requires { count ≤ 2 ^ 32 }
{
    let mut members = Vec::with_capacity(alloc, count)?;
    for number in 0..count {
        members.push(vec![in alloc; number as u32]?)?;
    }
    Ok(members)
}

/// For each node the nodes that have it as an argument.
fn users_of(alloc: Global, nodes: &[Node]) -> Mem<Vec<Vec<u32>>>
    requires { length nodes.now ≤ 2 ^ 32 }
{
    let mut users = Vec::with_capacity(alloc, nodes.len())?;
    for _ in 0..nodes.len() {
        users.push(Vec::new(alloc))?;
    }
    for number in 0..nodes.len() {
        for argument in nodes[number].arguments.as_slice() {
            extend(&mut users, *argument, &[number as u32])?;
        }
    }
    Ok(users)
}

/// The list of a class, which is empty after it.
fn taken(alloc: Global, lists: &mut Vec<Vec<u32>>, class: u32) -> Vec<u32> {
    match lists.get_mut(class as usize) {
        Some(list) => mem::replace(list, Vec::new(alloc)),
        None => Vec::new(alloc),
    }
}

/// Adds nodes to the list of a class.
fn extend(lists: &mut Vec<Vec<u32>>, class: u32, added: &[u32]) -> Mem<()> {
    if let Some(list) = lists.get_mut(class as usize) {
        list.extend_from_slice(added)?;
    }
    Ok(())
}

/// Gives the nodes of one class another one.
fn relabel(classes: &mut Vec<u32>, members: &[u32], from: u32, to: u32)
    ensures { AreRelabelled from to classes.old.items classes.new.items }
{
    for member in members {
        let place = *member as usize;
        if place < classes.len() && classes[place] == from {
            classes[place] = to;
        }
    }
}
