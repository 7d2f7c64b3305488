// Ground terms as numbered nodes.

ghost use Rattle.std.specs.Prelude.{◌≡◌, ◌<◌, nat_lt, length, map, IfOk, IfSome, IsTrue};
ghost use Rattle.std.specs.List.{list_all};
ghost use Rattle.fol_base.specs.Tree.{trees_of};
ghost use Rattle.fol_base.specs.Ground.{is_ground, are_ground};
ghost use Rattle.fol_base.specs.Term.{tree_of};
ghost use Rattle.congruence.specs.Congruence.{node_at};
ghost use Rattle.herbrand_list.specs.Nodes.{Stands, AllStand, AreTermNodes, is_node_of, IsGrown};

use congruence::{Arguments, Node};
use fol_base::{TRUE_SYMBOL, Term, Terms};
use indexmap::IndexMap;
use plain_types::{Mem, NoMemory};
use std::alloc::Global;

/// The most nodes.
const MOST_NODES: usize = u32::MAX as usize;

/// Nodes for terms. A term that came before has its node again, by a table that is looked up and tested; no answer rests on it.
#[derive(Drop)]
pub(crate) struct TermNodes {
    pub nodes: Vec<Node>,
    /// The number of a node by its symbol and the numbers of its arguments.
    known: IndexMap<Vec<u32>, u32>,
}

impl TermNodes {
    /// `$true` alone.
    pub fn new(alloc: Global) -> Mem<TermNodes>
        ensures { IfOk result (λ terms. AreTermNodes terms.nodes.items) }
    {
        let mut known = IndexMap::new(alloc);
        known.insert(vec![in alloc; TRUE_SYMBOL]?, 0)?;
        let mut nodes = Vec::new(alloc);
        nodes.push(Node {
            symbol: TRUE_SYMBOL,
            arguments: Arguments::new(alloc),
        })?;
        Ok(TermNodes { nodes, known })
    }

    /// The node of a ground term.
    #[cycle(number)]
    pub fn number(&mut self, alloc: Global, term: &Term) -> Mem<u32>
        requires no_variables { IsTrue (is_ground (tree_of term.now)) }
        requires nodes { AreTermNodes self.old.nodes.items }
        ensures stands { IfOk result (λ number. Stands self.new.nodes.items number (tree_of term.now)) }
        ensures grown { IfOk result (λ _. IsGrown self.old.nodes.items self.new.nodes.items) }
        ensures nodes { IfOk result (λ _. AreTermNodes self.new.nodes.items) }
    {
        match term {
            // A ground term has none.
            Term::Var(_) => unreachable!(),
            Term::App(symbol, arguments) => {
                let numbers = self.numbers(alloc, arguments)?;
                self.node(alloc, *symbol, numbers)
            }
        }
    }

    /// The nodes of ground terms, in order.
    #[cycle(number)]
    fn numbers(&mut self, alloc: Global, terms: &Terms) -> Mem<Vec<u32>>
        requires no_variables { IsTrue (are_ground (trees_of terms.now)) }
        requires nodes { AreTermNodes self.old.nodes.items }
        ensures stand { IfOk result (λ numbers. AllStand self.new.nodes.items numbers.items (trees_of terms.now)) }
        ensures grown { IfOk result (λ _. IsGrown self.old.nodes.items self.new.nodes.items) }
        ensures nodes { IfOk result (λ _. AreTermNodes self.new.nodes.items) }
    {
        let mut numbers = Vec::with_capacity(alloc, terms.len())?;
        for term in terms.as_slice() {
            let number = self.number(alloc, term)?;
            numbers.push(number)?;
        }
        Ok(numbers)
    }

    /// The node of a symbol with these arguments.
    fn node(&mut self, alloc: Global, symbol: u32, arguments: Vec<u32>) -> Mem<u32>
        requires arguments { IsTrue (list_all (λ a. nat_lt a (length self.old.nodes.items)) arguments.items) }
        requires nodes { AreTermNodes self.old.nodes.items }
        ensures within { IfOk result (λ number. number < length self.new.nodes.items) }
        ensures node { IfOk result (λ number. node_at self.new.nodes.items number ≡ record { symbol = symbol; arguments = arguments.items }) }
        ensures grown { IfOk result (λ _. IsGrown self.old.nodes.items self.new.nodes.items) }
        ensures nodes { IfOk result (λ _. AreTermNodes self.new.nodes.items) }
    {
        let mut key = vec![in alloc; symbol]?;
        key.extend_from_slice(arguments.as_slice())?;
        if let Some(number) = self.find(key.as_slice(), symbol, arguments.as_slice()) {
            return Ok(number);
        }
        if self.nodes.len() >= MOST_NODES {
            return Err(NoMemory);
        }
        let number = self.nodes.len() as u32;
        self.known.insert(key, number)?;
        self.nodes.push(Node {
            symbol,
            arguments: Arguments::from_vec(arguments),
        })?;
        Ok(number)
    }

    /// The node of a symbol with these arguments, where the table has it.
    fn find(&self, key: &[u32], symbol: u32, arguments: &[u32]) -> Option<u32>
        ensures within { IfSome result (λ number. number < length self.now.nodes.items) }
        ensures node { IfSome result (λ number. node_at self.now.nodes.items number ≡ record { symbol = symbol; arguments = arguments.now }) }
    {
        let number = self.known.get(key).copied()?;
        let place = number as usize;
        if place < self.nodes.len() && is_node_of(&self.nodes[place], symbol, arguments) {
            return Some(number);
        }
        None
    }
}

/// Whether a node is one of this symbol with these arguments.
fn is_node_of(node: &Node, symbol: u32, arguments: &[u32]) -> bool
    ensures { result ≡ is_node_of symbol arguments.now node.now }
{
    node.symbol == symbol && node.arguments.as_slice() == arguments
}
