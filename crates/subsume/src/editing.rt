// Putting members into a tree of features, and taking them out.

ghost use Rattle.std.specs.Prelude.{◌≡◌, ◌∷◌, ◌++◌, [], ◌≤◌, ◌<◌, ℕ, IfOk, IfSome, OnErr, IsTrue, IsPermutation, All, vec_len, vec_capacity, true, false};
ghost use Rattle.bank_clause.specs.Clause.{clause_at};
ghost use Rattle.subsume.specs.Features.{AreFeaturesOf};
ghost use Rattle.subsume.specs.Tree.{IsBoundedBy, IsDivision, IsEntry, IsSound, both_sides, content, members_of};
ghost use Rattle.subsume.specs.Editing.{HasAtMost, HasMore, HasNone, HasNoNumber, IsNumbered, IsPlaceOf};

use crate::entry::Entry;
use crate::tree::{Division, FeatureTree, Node};
use crate::vector::{Features, MEASURES};
use plain_types::Mem;
use std::alloc::Global;
use std::mem;

/// A leaf of more entries is divided, where features tell them apart.
const LEAF_ENTRIES: usize = 16;

/// Where members are divided: by how much of a measure over the literals of a sign they have.
#[derive(Clone, Copy)]
struct Cut {
    positive: bool,
    measure: usize,
    most: u16,
}

impl FeatureTree {
    /// Puts an entry in. After an out-of-memory error the members are as before.
    #[cycle(insert)]
    pub(crate) fn insert(&mut self, alloc: Global, entry: Entry) -> Mem<()>
        requires { IsEntry entry }
        ensures ok { IfOk result (λ _. IsPermutation (entry.member ∷ self.old.0) self.new.0) }
        ensures err { OnErr result (self.new.0 ≡ self.old.0) }
    {
        insert_into(alloc, &mut self.node, entry)
    }

    /// Takes out a member with a number and these features, and says whether there was one. It takes no memory.
    #[cycle(remove)]
    pub(crate) fn remove(&mut self, features: &Features, number: u32) -> bool
        ensures removed { IsTrue result → IsNumbered number self.old.0 self.new.0 }
        ensures unchanged { result ≡ false → self.new.0 ≡ self.old.0 }
        ensures absent { result ≡ false → HasNone features.now.values number self.old.0 }
    {
        remove_from(&mut self.node, features, number)
    }
}

/// Puts an entry into a node. After an out-of-memory error the members are as before.
#[cycle(insert)]
fn insert_into(alloc: Global, node: &mut Node, entry: Entry) -> Mem<()>
    requires entry { IsEntry entry }
    requires sound { IsSound node.old }
    ensures sound { IsSound node.new }
    ensures ok { IfOk result (λ _. IsPermutation (entry.member ∷ (content node.old).0) (content node.new).0) }
    ensures err { OnErr result ((content node.new).0 ≡ (content node.old).0) }
{
    match node {
        Node::Leaf(entries) => {
            entries.push(entry)?;
            if !may_divide(entries.len()) {
                return Ok(());
            }
            let full = mem::replace(entries, Vec::new(alloc));
            *node = divided(alloc, full);
            Ok(())
        }
        Node::Branch(division) => insert_beside(alloc, division, entry),
    }
}

/// Puts an entry on the side of a division on which it belongs. After an out-of-memory error the members are as before.
#[cycle(insert)]
fn insert_beside(alloc: Global, division: &mut Division, entry: Entry) -> Mem<()>
    requires entry { IsEntry entry }
    requires sound { IsDivision division.old }
    ensures sound { IsDivision division.new }
    ensures ok { IfOk result (λ _. IsPermutation (entry.member ∷ both_sides division.old) (both_sides division.new)) }
    ensures err { OnErr result (both_sides division.new ≡ both_sides division.old) }
{
    if entry.features.value(division.positive, division.measure) <= division.most {
        division.low.insert(alloc, entry)
    } else {
        division.bound.raise(&entry.features);
        division.high.insert(alloc, entry)
    }
}

/// Takes a member with a number and these features out of a node, and says whether there was one.
#[cycle(remove)]
fn remove_from(node: &mut Node, features: &Features, number: u32) -> bool
    requires { IsSound node.old }
    ensures sound { IsSound node.new }
    ensures removed { IsTrue result → IsNumbered number (content node.old).0 (content node.new).0 }
    ensures unchanged { result ≡ false → (content node.new).0 ≡ (content node.old).0 }
    ensures absent { result ≡ false → HasNone features.now.values number (content node.old).0 }
{
    match node {
        Node::Leaf(entries) => remove_entry(entries, number),
        Node::Branch(division) => remove_beside(division, features, number),
    }
}

/// Takes the entry out of the side of a division on which the features belong.
#[cycle(remove)]
fn remove_beside(division: &mut Division, features: &Features, number: u32) -> bool
    requires { IsDivision division.old }
    ensures sound { IsDivision division.new }
    ensures removed { IsTrue result → IsNumbered number (both_sides division.old) (both_sides division.new) }
    ensures unchanged { result ≡ false → both_sides division.new ≡ both_sides division.old }
    ensures absent { result ≡ false → HasNone features.now.values number (both_sides division.old) }
{
    if features.value(division.positive, division.measure) <= division.most {
        division.low.remove(features, number)
    } else {
        division.high.remove(features, number)
    }
}

/// Takes the entry with a number out, and says whether there was one.
fn remove_entry(entries: &mut Vec<Entry>, number: u32) -> bool
    requires { All IsEntry entries.old.items }
    ensures entries { All IsEntry entries.new.items }
    ensures removed { IsTrue result → IsNumbered number (members_of entries.old.items) (members_of entries.new.items) }
    ensures unchanged { result ≡ false → entries.new.items ≡ entries.old.items }
    ensures absent { result ≡ false → HasNoNumber number (members_of entries.old.items) }
{
    match place_of(entries.as_slice(), number) {
        None => false,
        Some(at) => {
            let _ = entries.swap_remove(at);
            true
        }
    }
}

/// Whether a leaf of that many entries is worth the look for a division. Where none is found, the next look is at twice as many, so that
/// many entries of the same features cost little.
fn may_divide(entries: usize) -> bool {
    entries > LEAF_ENTRIES && entries.is_power_of_two()
}

/// The place of the entry with a number.
fn place_of(entries: &[Entry], number: u32) -> Option<usize>
    ensures { IsPlaceOf number entries.now result }
{
    for index in 0..entries.len() {
        if entries[index].member.number == number {
            return Some(index);
        }
    }
    None
}

/// The entries as a leaf, or divided by the feature in which they differ most. They stay one leaf where they differ in none, and where
/// memory is wanting.
fn divided(alloc: Global, entries: Vec<Entry>) -> Node
    requires { All IsEntry entries.items }
    ensures sound { IsSound result }
    ensures members { IsPermutation (members_of entries.items) (content result).0 }
{
    let Some(cut) = widest(entries.as_slice()) else {
        return Node::Leaf(entries);
    };
    let count = entries.len();
    let mut low = match Vec::with_capacity(alloc, count) {
        Ok(low) => low,
        Err(_) => return Node::Leaf(entries),
    };
    let mut high = match Vec::with_capacity(alloc, count) {
        Ok(high) => high,
        Err(_) => return Node::Leaf(entries),
    };
    let mut division = match Box::new(alloc, empty_division(alloc, cut)) {
        Ok(division) => division,
        Err(_) => return Node::Leaf(entries),
    };
    share_out(entries, cut, &mut low, &mut high);
    set_sides(&mut division, low, high);
    Node::Branch(division)
}

/// The least features that bound those of entries.
fn bound_of(entries: &[Entry]) -> Features
    requires { All IsEntry entries.now }
    ensures { All (IsBoundedBy result.values) (members_of entries.now) }
{
    let mut bound = Features::none();
    for entry in entries {
        bound.raise(&entry.features);
    }
    bound
}

/// Gives a division its members.
fn set_sides(division: &mut Division, low: Vec<Entry>, high: Vec<Entry>)
    requires low { All IsEntry low.items }
    requires high { All IsEntry high.items }
    ensures positive { division.new.positive ≡ division.old.positive }
    ensures measure { division.new.measure ≡ division.old.measure }
    ensures most { division.new.most ≡ division.old.most }
    ensures low { division.new.low.0 ≡ members_of low.items }
    ensures high { division.new.high.0 ≡ members_of high.items }
    ensures bound { All (IsBoundedBy division.new.bound.values) (members_of high.items) }
{
    division.bound = bound_of(&high);
    division.low = FeatureTree {
        node: Node::Leaf(low),
    };
    division.high = FeatureTree {
        node: Node::Leaf(high),
    };
}

/// A division without members.
fn empty_division(alloc: Global, cut: Cut) -> Division
    requires { cut.measure < MEASURES }
    ensures positive { result.positive ≡ cut.positive }
    ensures measure { result.measure ≡ cut.measure }
    ensures most { result.most ≡ cut.most }
{
    Division {
        positive: cut.positive,
        measure: cut.measure,
        most: cut.most,
        low: FeatureTree::new(alloc),
        high: FeatureTree::new(alloc),
        bound: Features::none(),
    }
}

/// Moves the entries to the side of a cut on which each belongs. There is room for them; what is left of it is given back.
fn share_out(entries: Vec<Entry>, cut: Cut, low: &mut Vec<Entry>, high: &mut Vec<Entry>)
    requires measure { cut.measure < MEASURES }
    requires low_empty { low.old.items ≡ [] }
    requires high_empty { high.old.items ≡ [] }
    requires low_room { vec_len entries ≤ vec_capacity low.old }
    requires high_room { vec_len entries ≤ vec_capacity high.old }
    ensures entries { IsPermutation entries.items (low.new.items ++ high.new.items) }
    ensures low { All (HasAtMost cut) low.new.items }
    ensures high { All (HasMore cut) high.new.items }
{
    let mut left = entries;
    while let Some(entry) = left.pop() {
        if entry.features.value(cut.positive, cut.measure) <= cut.most {
            low.push_reserved(entry);
        } else {
            high.push_reserved(entry);
        }
    }
    low.shrink_to_fit();
    high.shrink_to_fit();
}

/// The cut in the middle of the measure in which entries differ most. None where they differ in none.
fn widest(entries: &[Entry]) -> Option<Cut>
    ensures { IfSome result (λ cut. cut.measure < MEASURES) }
{
    let mut widest = None;
    let mut spread = 0;
    for measure in 0..MEASURES {
        for sign in 0..2 {
            let positive = sign == 0;
            let (least, most) = bounds(entries, positive, measure);
            let wide = most.saturating_sub(least);
            if wide > spread {
                spread = wide;
                widest = Some(Cut {
                    positive,
                    measure,
                    most: least.saturating_add(wide / 2),
                });
            }
        }
    }
    widest
}

/// The least and the highest value of a measure.
fn bounds(entries: &[Entry], positive: bool, measure: usize) -> (u16, u16)
    requires { measure < MEASURES }
{
    let mut least = u16::MAX;
    let mut most = 0;
    for entry in entries {
        let value = entry.features.value(positive, measure);
        least = least.min(value);
        most = most.max(value);
    }
    (least, most)
}
