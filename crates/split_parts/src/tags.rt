// The tags of parts, and their signed names.

ghost use Rattle.std.specs.Prelude.{◌≡◌, ◌+◌, ◌<◌, ◌≤◌, ◌^◌, ◌&&◌, ◌++◌, [], ◌∷◌, false, not, length, map, is_some, slice_index_or, ◌==◌, if◌then◌else◌, vec_len, vec_capacity, IfOk, IfSome, OnOk, OnErr};
ghost use Rattle.fol_base.specs.Canonical.{IsCanonical};
ghost use Rattle.fol_base.specs.Literal.{clause_of, literal_of};
ghost use Rattle.kernel_steps.specs.Derivation.{complement};
ghost use Rattle.split_parts.specs.PartKeys.{key_part};
ghost use Rattle.split_parts.specs.Tags.{has_part, with_part, tag_of};
ghost use Rattle.split_parts.specs.SignedNames.{affirmed, is_ground_unit, named, signed_name};

use crate::ground::{is_ground_negative, is_ground_unit};
use crate::key::{OppositeRef, PartKey, PartRef};
use fol_base::{Clause, Literal, Literals, push_literal_copies};
use indexmap::IndexSet;
use plain_types::{Mem, NameLit, NoMemory};
use std::alloc::Global;
use std::marker::Model;

/// Tags are below it, so that the number of names has 32 bits.
const TAGS: usize = u32::MAX as usize;

/// Different parts, each under a tag, with signed names: a ground literal and its complement share a name. Contracts see the list of the
/// parts' literals, in the order of the tags, and how many more parts can be put without memory.
#[derive(Drop)]
pub struct NameTable {
    /// The parts; the tag of one is its index.
    parts: IndexSet<PartKey>,
    /// The signed names, by tag.
    signed: Vec<NameLit>,
    /// The tags of the parts with which the names came, by name.
    firsts: Vec<u32>,
}

impl Model for NameTable {
    ghost use Rattle.std.specs.Prelude.{map, length, ◌≡◌, ◌<◌, ◌^◌};
    ghost use Rattle.split_parts.specs.PartKeys.{key_part};
    ghost use Rattle.split_parts.specs.PartTable.{PartTable, part_table_code};
    ghost use Rattle.split_parts.specs.TagEntries.{table_of, signed_names, first_tags};

    ghost Value = { PartTable };

    ghost coded = { part_table_code };

    ghost view = { table_of };

    ghost invariant = { λ a. (length a.parts.keys < 2 ^ 32) × (a.signed.items ≡ signed_names (map key_part a.parts.keys))
        × (a.firsts.items ≡ first_tags (map key_part a.parts.keys)) };
}

impl NameTable {
    /// No part has a tag. It takes no memory.
    pub fn new(alloc: Global) -> NameTable
        ensures { result.parts ≡ [] }
    {
        NameTable {
            parts: IndexSet::new(alloc),
            signed: Vec::new(alloc),
            firsts: Vec::new(alloc),
        }
    }

    /// Makes room for `more` parts, and leaves the parts as they are. There are tags for fewer than 2^32 parts.
    pub fn reserve(&mut self, more: usize) -> Mem<()>
        ensures parts { self.new.parts ≡ self.old.parts }
        ensures kept { self.old.spare ≤ self.new.spare }
        ensures room { OnOk result (more ≤ self.new.spare) }
    {
        if more > TAGS - self.parts.len() {
            return Err(NoMemory);
        }
        self.parts.reserve(more)?;
        self.signed.reserve(more)?;
        self.firsts.reserve(more)?;
        Ok(())
    }

    /// The tag of a part that is handed over, and whether the part is new; a new one gets the next tag. There is room, so it takes no
    /// memory.
    pub fn put(&mut self, part: PartKey) -> (u32, bool)
        requires room { 0 < self.old.spare }
        ensures added { self.new.parts ≡ with_part self.old.parts (key_part part) }
        ensures tag { result.0 ≡ tag_of self.old.parts (key_part part) }
        ensures new { result.1 ≡ not (has_part (key_part part) self.old.parts) }
        ensures room { self.old.spare ≤ self.new.spare + 1 }
    {
        let literals = part.literals.as_slice();
        if let Some(tag) = self.parts.get_index_of(PartRef { literals }) {
            return (tag as u32, false);
        }
        (self.push_new(part), true)
    }

    /// Gives the next tag to a part that has none. There is room, so it takes no memory.
    fn push_new(&mut self, part: PartKey) -> u32
        requires room { 0 < self.old.spare }
        requires new { has_part (key_part part) self.old.parts ≡ false }
        ensures added { self.new.parts ≡ with_part self.old.parts (key_part part) }
        ensures tag { result ≡ tag_of self.old.parts (key_part part) }
        ensures room { self.old.spare ≤ self.new.spare + 1 }
    {
        let tag = self.parts.len() as u32;
        let signed = self.next_name(part.literals.as_slice());
        note_first(&mut self.firsts, signed.name, tag);
        self.signed.push_reserved(signed);
        self.parts.insert_full(part).unwrap();
        tag
    }

    /// The tag of a canonical clause, and whether the clause is new; a new one gets the next tag. After an out-of-memory error, which a clause
    /// after 2^32 - 1 others meets too, the parts are as before.
    pub fn name_of(&mut self, alloc: Global, part: &Clause) -> Mem<(u32, bool)>
        requires canonical { IsCanonical (clause_of part.now) }
        requires unnamed { part.now.names ≡ [] }
        ensures added { IfOk result (λ _. self.new.parts ≡ with_part self.old.parts (clause_of part.now).literals) }
        ensures tag { IfOk result (λ tag. tag.0 ≡ tag_of self.old.parts (clause_of part.now).literals) }
        ensures new { IfOk result (λ tag. tag.1 ≡ not (has_part (clause_of part.now).literals self.old.parts)) }
        ensures unchanged { OnErr result (self.new.parts ≡ self.old.parts) }
        ensures kept { OnErr result (self.old.spare ≤ self.new.spare) }
        ensures room { OnOk result (self.old.spare ≤ self.new.spare + 1) }
    {
        let literals = part.literals.as_slice();
        if let Some(tag) = self.parts.get_index_of(PartRef { literals }) {
            return Ok((tag as u32, false));
        }
        let key = PartKey::of(alloc, literals)?;
        self.reserve(1)?;
        Ok((self.push_new(key), true))
    }

    /// The literals of a tag's part, lent.
    pub fn part(&self, tag: u32) -> &[Literal]
        requires { tag < length self.now.parts }
        ensures { map literal_of result.now ≡ slice_index_or self.now.parts tag [] }
    {
        self.parts[tag as usize].literals.as_slice()
    }

    /// The signed name of a tag's part. It takes no memory.
    pub fn signed(&self, tag: u32) -> NameLit
        requires { tag < length self.now.parts }
        ensures { result ≡ signed_name self.now.parts (slice_index_or self.now.parts tag []) }
    {
        self.signed[tag as usize]
    }

    /// The tag of the part with which a name came: it is the part that is named, or, where its sign is negative, that one's complement.
    pub fn first_tag(&self, name: u32) -> u32
        requires { name < length (named self.now.parts) }
        ensures within { result < length self.now.parts }
        ensures first { result ≡ tag_of (map affirmed self.now.parts) (slice_index_or (named self.now.parts) name []) }
        ensures part { affirmed (slice_index_or self.now.parts result []) ≡ slice_index_or (named self.now.parts) name [] }
    {
        self.firsts[name as usize]
    }

    /// How many tags there are.
    pub fn len(&self) -> usize
        ensures { result ≡ length self.now.parts }
    {
        self.parts.len()
    }

    /// How many names there are.
    pub fn names(&self) -> u32
        ensures { result ≡ length (named self.now.parts) }
    {
        self.firsts.len() as u32
    }

    /// The signed name of a part that is met for the first time.
    fn next_name(&self, literals: &[Literal]) -> NameLit
        requires new { has_part (map literal_of literals.now) self.now.parts ≡ false }
        requires few { length self.now.parts < 2 ^ 32 }
        ensures { result ≡ signed_name (self.now.parts ++ map literal_of literals.now ∷ []) (map literal_of literals.now) }
    {
        let positive = !is_ground_negative(literals);
        let name = match self.opposite(literals) {
            Some(tag) => self.signed[tag].name,
            None => self.firsts.len() as u32,
        };
        NameLit { positive, name }
    }

    /// The tag of the part that is the complement of a ground literal.
    fn opposite(&self, literals: &[Literal]) -> Option<usize>
        ensures found { is_some result ≡ (is_ground_unit (map literal_of literals.now)
            && has_part (map complement (map literal_of literals.now)) self.now.parts) }
        ensures within { IfSome result (λ tag. tag < length self.now.parts) }
        ensures part { IfSome result (λ tag. slice_index_or self.now.parts tag [] ≡ map complement (map literal_of literals.now)) }
    {
        if !is_ground_unit(literals) {
            return None;
        }
        self.parts.get_index_of(OppositeRef {
            literal: &literals[0],
        })
    }
}

/// A name comes with a tag; one that is there keeps its first tag. There is room.
fn note_first(firsts: &mut Vec<u32>, name: u32, tag: u32)
    requires { vec_len firsts.old < vec_capacity firsts.old }
    ensures items { firsts.new.items ≡ (if name == length firsts.old.items then firsts.old.items ++ tag ∷ [] else firsts.old.items) }
    ensures len { vec_len firsts.new ≤ vec_len firsts.old + 1 }
    ensures capacity { vec_capacity firsts.new ≡ vec_capacity firsts.old }
{
    if name as usize == firsts.len() {
        firsts.push_reserved(tag);
    }
}

impl PartKey {
    /// A part of which the literals are copied.
    pub fn of(alloc: Global, literals: &[Literal]) -> Mem<PartKey>
        ensures { IfOk result (λ key. key_part key ≡ map literal_of literals.now) }
    {
        let mut copies = Vec::with_capacity(alloc, literals.len())?;
        push_literal_copies(alloc, &mut copies, literals)?;
        Ok(PartKey {
            literals: Literals::from_vec(copies),
        })
    }
}
