// Propagation: each clause with two different literals is watched by two of them, and looked at again only where a watched one becomes false
// (Moskewicz and others 2001), and then only where the literal beside it in the list (as in MiniSat, Eén and Sörensson 2003) isn't true. Which
// clauses the lists have is a hint. What is implied is read from the copies of the clauses, which have the same literals.

ghost use Rattle.std.specs.Prelude.{◌≡◌, ℕ, ◌+◌, ◌*◌, ◌<◌, ◌≤◌, ◌++◌, [], ◌∷◌, length, IfOk, IfSome, IsTrue};
ghost use Rattle.plain_types.specs.Names.{has_name};
ghost use Rattle.sat_core.specs.State.{IsSound, SameClauses, clause_at};
ghost use Rattle.sat_core.specs.Known.{known};
ghost use Rattle.sat_core.specs.Conflict.{AreWithin};
ghost use Rattle.sat_core.specs.Search.{OthersFalse, HaveLists, IsConflict, Propagates};
ghost use Rattle.sat_core.specs.Copies.{IsAlone, IsAloneAt, IsVisit};

use crate::answer::PropClauses;
use crate::clauses::Clauses;
use crate::copies::{ClauseCopy, Look};
use crate::forgetting::is_kept;
use crate::literals::{CodedLiteral, code};
use crate::trail::{Assigned, Trail};
use plain_types::{Mem, NameLit, opposite};
use std::alloc::Global;
use std::mem;

/// The indices of two literals of a clause.
#[derive(Clone, Copy)]
pub struct Pair {
    pub first: usize,
    pub second: usize,
}

/// The result of visiting an entry of a list.
#[derive(Clone, Copy)]
pub enum Visited {
    /// The entry stays.
    Kept,
    /// It stands in the list of another literal now.
    Moved,
    /// All literals of its clause but one are false.
    Closed(Closed),
}

/// A clause all of whose literals but one are false.
#[derive(Clone, Copy)]
pub struct Closed {
    /// The clause's number.
    pub number: usize,
    /// The literal.
    pub other: CodedLiteral,
}

/// An entry of the list of a literal that watches a clause.
#[derive(Clone, Copy)]
pub struct Watch {
    /// A literal of the clause: where it is true, the clause needs no look. The other watched one, but where that has been changed
    /// since.
    pub other: CodedLiteral,
    /// The clause's number.
    pub number: usize,
}

/// Whether a literal is among those of a clause, and all others are false.
fn is_alone(trail: &Trail, literals: &[NameLit], alone: NameLit) -> bool
    requires { AreWithin (length trail.now.slots.items) literals.now }
    ensures { IsTrue result → IsAlone trail.now.slots.items literals.now alone }
{
    let mut is_met = false;
    for literal in literals {
        if alone == *literal {
            is_met = true;
        } else if !trail.is_false(*literal) {
            return false;
        }
    }
    is_met
}

/// For each literal the clauses that watch it, and copies of the clauses.
#[derive(Drop)]
pub struct Watches {
    pub lists: Vec<Vec<Watch>>,
    /// The list that is gone through, taken out of those; else empty.
    pub visited: Vec<Watch>,
    /// A copy of each clause, by its number.
    pub copies: Vec<ClauseCopy>,
    /// The numbers of clauses without two different literals that haven't been looked at.
    pub units: Vec<usize>,
    /// How many entries of the trail have been looked at.
    pub seen: usize,
}

impl Watches {
    /// Nothing is watched. Each list has room for its watches of the clauses that are handed in.
    pub fn new(alloc: Global, names: u32, inputs: &PropClauses) -> Mem<Watches>
        ensures lists { IfOk result (λ watches. length watches.lists.items ≡ 2 * names) }
        ensures copies { IfOk result (λ watches. watches.copies.items ≡ []) }
    {
        let counts = watch_counts(alloc, names, inputs)?;
        let mut lists = Vec::with_capacity(alloc, counts.len())?;
        for count in &counts {
            lists.push(Vec::with_capacity(alloc, *count)?)?;
        }
        Ok(Watches {
            lists,
            visited: Vec::new(alloc),
            copies: Vec::with_capacity(alloc, inputs.len())?,
            units: Vec::new(alloc),
            seen: 0,
        })
    }

    /// Copies a clause and watches it by the literals at two indices.
    fn watch(&mut self, alloc: Global, number: usize, literals: &[NameLit], pair: Pair) -> Mem<()>
        requires lists { HaveLists (length self.old.lists.items) literals.now }
        requires first { pair.first < length literals.now }
        requires second { pair.second < length literals.now }
        ensures lists { IfOk result (λ _. length self.new.lists.items ≡ length self.old.lists.items) }
        ensures copies { IfOk result (λ _. SameClauses self.new.copies.items (self.old.copies.items ++ literals.now ∷ [])) }
    {
        self.copies
            .push(ClauseCopy::watched(alloc, literals, pair)?)?;
        let first = literals[pair.first];
        let second = literals[pair.second];
        let other = CodedLiteral::of(second);
        self.lists[code(first)].push(Watch { other, number })?;
        let other = CodedLiteral::of(first);
        self.lists[code(second)].push(Watch { other, number })?;
        Ok(())
    }

    /// Changes an entry of the list that is gone through.
    fn change(&mut self, index: usize, watch: Watch)
        ensures lists { length self.new.lists.items ≡ length self.old.lists.items }
        ensures copies { self.new.copies.items ≡ self.old.copies.items }
        ensures seen { self.new.seen ≡ self.old.seen }
    {
        if index < self.visited.len() {
            self.visited[index] = watch;
        }
    }

    /// Moves an entry of the list that is gone through to the list of a literal.
    fn move_watch(&mut self, index: usize, literal: CodedLiteral, watch: Watch) -> Mem<()>
        ensures lists { IfOk result (λ _. length self.new.lists.items ≡ length self.old.lists.items) }
        ensures copies { IfOk result (λ _. self.new.copies.items ≡ self.old.copies.items) }
        ensures seen { IfOk result (λ _. self.new.seen ≡ self.old.seen) }
    {
        let list = literal.index();
        if index < self.visited.len() && list < self.lists.len() {
            self.visited.swap_remove(index);
            self.lists[list].push(watch)?;
        }
        Ok(())
    }

    /// Looks at an entry of the list of a literal that has become false.
    fn visit(
        &mut self,
        trail: &Trail,
        falsified: CodedLiteral,
        index: usize,
        watch: Watch,
    ) -> Mem<Visited>
        ensures lists { IfOk result (λ _. length self.new.lists.items ≡ length self.old.lists.items) }
        ensures copies { IfOk result (λ _. SameClauses self.new.copies.items self.old.copies.items) }
        ensures seen { IfOk result (λ _. self.new.seen ≡ self.old.seen) }
        ensures visit { IfOk result (IsVisit trail.now.slots.items self.old.copies.items) }
    {
        let number = watch.number;
        if trail.seems_true(watch.other) || number >= self.copies.len() {
            return Ok(Visited::Kept);
        }
        match self.copies[number].look(trail, falsified) {
            Look::True(other) => {
                self.change(index, Watch { other, number });
                Ok(Visited::Kept)
            }
            Look::Moved(other, literal) => {
                self.move_watch(index, literal, Watch { other, number })?;
                Ok(Visited::Moved)
            }
            Look::Closed(other) => Ok(Visited::Closed(Closed { number, other })),
        }
    }

    /// Goes through the list that is taken out, of a literal that has become false; a clause all of whose literals are false ends it. The clauses
    /// are lent for the contracts alone: what they imply is read from the copies.
    fn visit_all(
        &mut self,
        clauses: &Clauses<'_>,
        trail: &mut Trail,
        falsified: CodedLiteral,
    ) -> Mem<Option<usize>>
        requires sound { IsSound (known clauses.now) trail.old.entries.items trail.old.slots.items }
        requires copies { SameClauses self.old.copies.items (known clauses.now) }
        ensures propagates { IfOk result (λ _. Propagates (known clauses.now) trail.old.entries.items trail.old.slots.items
            trail.new.entries.items trail.new.slots.items) }
        ensures conflict { IfOk result (λ found. IfSome found (IsConflict (known clauses.now) trail.new.slots.items)) }
        ensures lists { IfOk result (λ _. length self.new.lists.items ≡ length self.old.lists.items) }
        ensures copies { IfOk result (λ _. SameClauses self.new.copies.items (known clauses.now)) }
        ensures seen { IfOk result (λ _. self.new.seen ≡ self.old.seen) }
    {
        let mut index = 0;
        for _ in 0..self.visited.len() {
            if index >= self.visited.len() {
                break;
            }
            let watch = self.visited[index];
            match self.visit(trail, falsified, index, watch)? {
                Visited::Kept => index += 1,
                Visited::Moved => {}
                Visited::Closed(closed) => {
                    if let Some(conflict) = settle(clauses, trail, closed)? {
                        return Ok(Some(conflict));
                    }
                    index += 1;
                }
            }
        }
        Ok(None)
    }

    /// Looks at the clauses that watch a literal which has become false; a clause all of whose literals are false
    /// ends it.
    fn visit_list(
        &mut self,
        clauses: &Clauses<'_>,
        trail: &mut Trail,
        falsified: NameLit,
    ) -> Mem<Option<usize>>
        requires sound { IsSound (known clauses.now) trail.old.entries.items trail.old.slots.items }
        requires copies { SameClauses self.old.copies.items (known clauses.now) }
        requires lists { length self.old.lists.items ≡ 2 * length trail.old.slots.items }
        requires named { falsified.name < length trail.old.slots.items }
        ensures propagates { IfOk result (λ _. Propagates (known clauses.now) trail.old.entries.items trail.old.slots.items
            trail.new.entries.items trail.new.slots.items) }
        ensures conflict { IfOk result (λ found. IfSome found (IsConflict (known clauses.now) trail.new.slots.items)) }
        ensures lists { IfOk result (λ _. length self.new.lists.items ≡ length self.old.lists.items) }
        ensures copies { IfOk result (λ _. SameClauses self.new.copies.items (known clauses.now)) }
        ensures seen { IfOk result (λ _. self.new.seen ≡ self.old.seen) }
    {
        let list = code(falsified);
        mem::swap(&mut self.lists[list], &mut self.visited);
        let conflict = self.visit_all(clauses, trail, CodedLiteral::of(falsified))?;
        mem::swap(&mut self.lists[list], &mut self.visited);
        Ok(conflict)
    }

    /// Looks at the clauses without two different literals.
    fn settle_units(&mut self, clauses: &Clauses<'_>, trail: &mut Trail) -> Mem<Option<usize>>
        requires sound { IsSound (known clauses.now) trail.old.entries.items trail.old.slots.items }
        ensures propagates { IfOk result (λ _. Propagates (known clauses.now) trail.old.entries.items trail.old.slots.items
            trail.new.entries.items trail.new.slots.items) }
        ensures conflict { IfOk result (λ found. IfSome found (IsConflict (known clauses.now) trail.new.slots.items)) }
        ensures lists { IfOk result (λ _. length self.new.lists.items ≡ length self.old.lists.items) }
        ensures copies { IfOk result (λ _. self.new.copies.items ≡ self.old.copies.items) }
    {
        while let Some(number) = self.units.pop() {
            if let Some(conflict) = settle_unit(clauses, trail, number)? {
                return Ok(Some(conflict));
            }
        }
        Ok(None)
    }

    /// Makes true what is implied, until nothing more is or all literals of some clause are false.
    pub fn propagate(&mut self, clauses: &Clauses<'_>, trail: &mut Trail) -> Mem<Option<usize>>
        requires sound { IsSound (known clauses.now) trail.old.entries.items trail.old.slots.items }
        requires copies { SameClauses self.old.copies.items (known clauses.now) }
        requires lists { length self.old.lists.items ≡ 2 * length trail.old.slots.items }
        ensures propagates { IfOk result (λ _. Propagates (known clauses.now) trail.old.entries.items trail.old.slots.items
            trail.new.entries.items trail.new.slots.items) }
        ensures conflict { IfOk result (λ found. IfSome found (IsConflict (known clauses.now) trail.new.slots.items)) }
        ensures lists { IfOk result (λ _. length self.new.lists.items ≡ length self.old.lists.items) }
        ensures copies { IfOk result (λ _. SameClauses self.new.copies.items (known clauses.now)) }
    {
        if let Some(conflict) = self.settle_units(clauses, trail)? {
            return Ok(Some(conflict));
        }
        while self.seen < trail.entries.len() {
            let falsified = opposite(trail.entries[self.seen].literal);
            self.seen += 1;
            if let Some(conflict) = self.visit_list(clauses, trail, falsified)? {
                return Ok(Some(conflict));
            }
        }
        Ok(None)
    }

    /// Copies a clause that is handed in, and watches it where it has two different literals.
    pub fn add_input(&mut self, alloc: Global, number: usize, literals: &[NameLit]) -> Mem<()>
        requires { HaveLists (length self.old.lists.items) literals.now }
        ensures lists { IfOk result (λ _. length self.new.lists.items ≡ length self.old.lists.items) }
        ensures copies { IfOk result (λ _. SameClauses self.new.copies.items (self.old.copies.items ++ literals.now ∷ [])) }
    {
        match different_literal(literals) {
            Some(second) => self.watch(alloc, number, literals, Pair { first: 0, second }),
            None => {
                self.units.push(number)?;
                self.keep_copy(alloc, literals)
            }
        }
    }

    /// Copies a clause that isn't watched.
    fn keep_copy(&mut self, alloc: Global, literals: &[NameLit]) -> Mem<()>
        ensures lists { IfOk result (λ _. length self.new.lists.items ≡ length self.old.lists.items) }
        ensures copies { IfOk result (λ _. SameClauses self.new.copies.items (self.old.copies.items ++ literals.now ∷ [])) }
    {
        self.copies.push(ClauseCopy::whole(alloc, literals)?)?;
        Ok(())
    }

    /// Watches a clause that has been learned by its implied literal and the last of its false ones.
    pub fn add_learned(
        &mut self,
        alloc: Global,
        number: usize,
        trail: &Trail,
        literals: &[NameLit],
        implied: NameLit,
    ) -> Mem<()>
        requires within { AreWithin (length trail.now.slots.items) literals.now }
        requires lists { HaveLists (length self.old.lists.items) literals.now }
        requires some { 0 < length literals.now }
        ensures lists { IfOk result (λ _. length self.new.lists.items ≡ length self.old.lists.items) }
        ensures copies { IfOk result (λ _. SameClauses self.new.copies.items (self.old.copies.items ++ literals.now ∷ [])) }
    {
        let pair = learned_pair(trail, literals, implied);
        if pair.first == pair.second {
            self.keep_copy(alloc, literals)
        } else {
            self.watch(alloc, number, literals, pair)
        }
    }

    /// Watches only the clauses that are kept on.
    pub fn keep(&mut self, kept: &[bool])
        ensures lists { length self.new.lists.items ≡ length self.old.lists.items }
        ensures copies { self.new.copies.items ≡ self.old.copies.items }
    {
        for list in 0..self.lists.len() {
            self.lists[list].retain(|watch| is_kept(kept, watch.number));
        }
    }

    /// The entries from a place on have been taken back.
    pub fn cut(&mut self, count: usize)
        ensures lists { length self.new.lists.items ≡ length self.old.lists.items }
        ensures copies { self.new.copies.items ≡ self.old.copies.items }
        ensures seen { (self.new.seen ≤ count) × (self.new.seen ≤ self.old.seen) }
    {
        self.seen = self.seen.min(count);
    }
}

/// Makes true what a clause without two different literals implies; gives its number where all its literals are false.
fn settle_unit(clauses: &Clauses<'_>, trail: &mut Trail, number: usize) -> Mem<Option<usize>>
    requires sound { IsSound (known clauses.now) trail.old.entries.items trail.old.slots.items }
    ensures propagates { IfOk result (λ _. Propagates (known clauses.now) trail.old.entries.items trail.old.slots.items
        trail.new.entries.items trail.new.slots.items) }
    ensures conflict { IfOk result (λ found. IfSome found (IsConflict (known clauses.now) trail.new.slots.items)) }
{
    if number >= clauses.len() {
        return Ok(None);
    }
    let literals = clauses.literals(number);
    if literals.is_empty() {
        return Ok(Some(number));
    }
    let other = literals[0];
    if !is_alone(trail, literals, other) {
        return Ok(None);
    }
    let other = CodedLiteral::of(other);
    settle(clauses, trail, Closed { number, other })
}

/// Makes true what a clause implies all of whose literals but one are false; gives its number where this one is false too. The clauses are lent for
/// the contracts alone.
fn settle(clauses: &Clauses<'_>, trail: &mut Trail, closed: Closed) -> Mem<Option<usize>>
    requires sound { IsSound (known clauses.now) trail.old.entries.items trail.old.slots.items }
    requires alone { IsAloneAt trail.old.slots.items (known clauses.now) closed.number closed.other }
    ensures propagates { IfOk result (λ _. Propagates (known clauses.now) trail.old.entries.items trail.old.slots.items
        trail.new.entries.items trail.new.slots.items) }
    ensures conflict { IfOk result (λ found. IfSome found (IsConflict (known clauses.now) trail.new.slots.items)) }
{
    let Closed { number, other } = closed;
    let other = other.literal();
    if trail.place(other) == 0 {
        let (literal, reason) = (other, Some(number));
        trail.push(Assigned { literal, reason })?;
        return Ok(None);
    }
    if trail.is_false(other) {
        return Ok(Some(number));
    }
    Ok(None)
}

/// For each literal how many of the clauses it is to watch.
fn watch_counts(alloc: Global, names: u32, inputs: &PropClauses) -> Mem<Vec<usize>>
    ensures { IfOk result (λ counts. length counts.items ≡ 2 * names) }
{
    let mut counts = vec![in alloc; 0; 2 * names as usize]?;
    for number in 0..inputs.len() {
        let literals = inputs.get(number);
        if let Some(second) = different_literal(literals) {
            count_one(&mut counts, literals[0]);
            count_one(&mut counts, literals[second]);
        }
    }
    Ok(counts)
}

/// One more of a literal.
fn count_one(counts: &mut [usize], literal: NameLit)
    ensures { length counts.new ≡ length counts.old }
{
    let code = code(literal);
    if code < counts.len() {
        counts[code] = counts[code].saturating_add(1);
    }
}

/// The index of a literal that differs from the first one.
fn different_literal(literals: &[NameLit]) -> Option<usize>
    ensures { IfSome result (λ i. i < length literals.now) }
{
    let first = *literals.first()?;
    for (index, literal) in literals.iter().enumerate() {
        if first != *literal {
            return Some(index);
        }
    }
    None
}

/// The indices of the implied literal and of the false one that stands last on the trail; one index twice, where
/// there is no other.
fn learned_pair(trail: &Trail, literals: &[NameLit], implied: NameLit) -> Pair
    requires within { AreWithin (length trail.now.slots.items) literals.now }
    requires some { 0 < length literals.now }
    ensures first { result.first < length literals.now }
    ensures second { result.second < length literals.now }
{
    let mut pair = Pair {
        first: 0,
        second: 0,
    };
    let mut highest = 0;
    for (index, literal) in literals.iter().enumerate() {
        if implied == *literal {
            pair.first = index;
        } else if trail.place(*literal) > highest {
            highest = trail.place(*literal);
            pair.second = index;
        }
    }
    pair
}
