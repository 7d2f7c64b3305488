// A tree that divides members by their features, so that a search leaves out those that a feature excludes.

ghost use Rattle.std.specs.Prelude.{◌≡◌, [], ◌∷◌, ◌++◌, ◌≤◌, ◌<◌, ℕ, Bool, IfOk, OnErr, IsTrue, IsPermutation, All, map, false, length};
ghost use Rattle.bank_clause.specs.Clause.{clause_at};
ghost use Rattle.bank_clause.specs.declared.member.Member.{Member};
ghost use Rattle.subsume.specs.Features.{AreFeaturesOf};

use crate::entry::Entry;
use crate::vector::Features;
use plain_types::Mem;
use std::alloc::Global;
use std::marker::Model;

/// Members by their features. Contracts see them as a list, with the number of divisions.
#[derive(Drop)]
#[cycle(tree)]
pub(crate) struct FeatureTree {
    pub(crate) node: Node,
}

#[derive(Drop)]
#[cycle(tree)]
pub(crate) enum Node {
    Leaf(Vec<Entry>),
    Branch(Box<Division>),
}

/// Members divided by a measure over the literals of a sign: those with at most so much, and those with more.
#[derive(Drop)]
#[cycle(tree)]
pub(crate) struct Division {
    pub(crate) positive: bool,
    pub(crate) measure: usize,
    pub(crate) most: u16,
    pub(crate) low: FeatureTree,
    pub(crate) high: FeatureTree,
    /// No member of the high side has more of any feature.
    pub(crate) bound: Features,
}

impl Model for FeatureTree {
    ghost use Rattle.std.specs.Prelude.{List, ℕ};
    ghost use Rattle.bank_clause.specs.declared.member.Member.{Member};
    ghost use Rattle.subsume.specs.MemberCode.{content_code};

    ghost Value = { List Member × ℕ };

    ghost coded = { content_code };

    ghost use Rattle.subsume.specs.Tree.{content, IsSound};

    ghost view = { λ a. content a.node };

    ghost invariant = { λ a. IsSound a.node };

    ghost size = { λ v. v.1 };

    ghost use Rattle.std.proofs.Common.{arith};

    ghost size_decreases = { λ a h. Prim.grind arith };
}

impl FeatureTree {
    /// A tree without members. It takes no memory.
    pub(crate) fn new(alloc: Global) -> FeatureTree
        ensures { result.0 ≡ [] }
    {
        FeatureTree {
            node: Node::Leaf(Vec::new(alloc)),
        }
    }
}
