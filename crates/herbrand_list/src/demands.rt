// The demands of a derivation, in order of arrival, each once.

ghost use Rattle.std.specs.Prelude.{◌≡◌, ℕ, ◌<◌, ◌++◌, ◌∷◌, [], length, map, fold, slice_index_or, slice_set, IfOk, IfErr};
ghost use Rattle.fol_base.specs.Term.{tree_of};
ghost use Rattle.herbrand_list.specs.Demands.{demanded_by, with_demand, terms_for, step_at, worked, last_line, demands_of};
ghost use Rattle.herbrand_list.specs.GroundList.{weight};
ghost use Rattle.herbrand_list.specs.Worked.{constant_tree, listed, demand_of, weight_of, terms_at, row_at, ParentsAreEarlier, IsListed, SaysLarge};

use crate::arriving::{Demanded, demanded_parents, heavier, size_of_line};
use crate::codes::key_of;
use crate::fault::GroundFault;
use crate::put_in::PutIn;
use crate::sizes::sizes_of;
use congruence::Keys;
use fol_base::{Term, Terms};
use kernel_steps::Line;
use plain_types::{Mem, Numbers, Sequence};
use std::alloc::Global;

/// Demands in order of arrival.
#[derive(Drop)]
pub(crate) struct DemandList {
    demands: Sequence<Demanded>,
    /// The places of the demands of each line.
    by_line: Vec<Numbers>,
    keys: Keys,
    weight: u64,
}

impl DemandList {
    /// No demands.
    fn empty(alloc: Global, lines: usize) -> Mem<DemandList>
        ensures demands { IfOk result (λ list. list.demands ≡ []) }
        ensures keys { IfOk result (λ list. list.keys ≡ []) }
        ensures count { IfOk result (λ list. length list.by_line.items ≡ lines) }
        ensures rows { IfOk result (λ list. (n : ℕ) → row_at list.by_line.items n ≡ []) }
        ensures weight { IfOk result (λ list. list.weight ≡ 0) }
    {
        let mut by_line = Vec::with_capacity(alloc, lines)?;
        for _ in 0..lines {
            by_line.push(Numbers::new(alloc))?;
        }
        Ok(DemandList {
            demands: Sequence::new(alloc),
            by_line,
            keys: Keys::new(alloc),
            weight: 0,
        })
    }

    /// The demand of the last line alone.
    fn new(alloc: Global, constant: u32, lines: &[Line]) -> Result<DemandList, GroundFault>
        requires { 0 < length lines.now }
        ensures listed { IfOk result (IsListed constant lines.now) }
        ensures demands { IfOk result (λ list. listed list ≡ last_line lines.now ∷ []) }
        ensures large { IfErr result (SaysLarge (weight_of (constant_tree constant) lines.now (last_line lines.now ∷ []))) }
    {
        let mut list = DemandList::empty(alloc, lines.len())?;
        let last = last_line(alloc, lines);
        list.add(alloc, constant, lines, last)?;
        Ok(list)
    }

    /// The demands of a derivation: that of its last line, with all lines worked from the last to the first.
    pub fn of_lines(alloc: Global, constant: u32, lines: &[Line]) -> Result<DemandList, GroundFault>
        requires some { 0 < length lines.now }
        requires earlier { ParentsAreEarlier lines.now }
        ensures listed { IfOk result (IsListed constant lines.now) }
        ensures demands { IfOk result (λ list. listed list ≡ demands_of (constant_tree constant) lines.now) }
        ensures large { IfErr result (SaysLarge (weight (constant_tree constant) lines.now)) }
    {
        let mut list = DemandList::new(alloc, constant, lines)?;
        for number in (0..lines.len()).rev() {
            list.work(alloc, constant, lines, number)?;
        }
        Ok(list)
    }

    /// Works a line: what its demands demand arrives.
    fn work(
        &mut self,
        alloc: Global,
        constant: u32,
        lines: &[Line],
        number: usize,
    ) -> Result<(), GroundFault>
        requires there { number < length lines.now }
        requires listed { IsListed constant lines.now self.old }
        requires earlier { ParentsAreEarlier lines.now }
        ensures listed { IfOk result (λ _. IsListed constant lines.now self.new) }
        ensures demands { IfOk result (λ _. listed self.new ≡ worked (constant_tree constant) lines.now number (listed self.old)) }
        ensures large { IfErr result (SaysLarge (weight_of (constant_tree constant) lines.now
            (worked (constant_tree constant) lines.now number (listed self.old)))) }
    {
        for index in 0..self.count(number) {
            self.work_demand(alloc, constant, lines, number, index)?;
        }
        Ok(())
    }

    /// How many demands a line has.
    pub fn count(&self, number: usize) -> usize
        ensures { result ≡ length (row_at self.now.by_line.items number) }
    {
        match self.by_line.get(number) {
            Some(places) => places.len(),
            None => 0,
        }
    }

    /// The terms of a line's demand, by its index among those of the line.
    pub fn terms_of(&self, number: usize, index: usize) -> &[Term]
        requires { index < length (row_at self.now.by_line.items number) }
        ensures { map tree_of result.now ≡ terms_at (listed self.now) (slice_index_or (row_at self.now.by_line.items number) index 0) }
    {
        let place = self.place(number, index);
        match self.demands.as_slice().get(place as usize) {
            Some(demand) => demand.terms.as_slice(),
            None => &[],
        }
    }

    /// The place of a line's demand, by its index among those of the line.
    fn place(&self, number: usize, index: usize) -> u64
        requires { index < length (row_at self.now.by_line.items number) }
        ensures { result ≡ slice_index_or (row_at self.now.by_line.items number) index 0 }
    {
        self.by_line[number].as_slice()[index]
    }

    /// What one demand of a line demands arrives.
    fn work_demand(
        &mut self,
        alloc: Global,
        constant: u32,
        lines: &[Line],
        number: usize,
        index: usize,
    ) -> Result<(), GroundFault>
        requires there { number < length lines.now }
        requires demanded { index < length (row_at self.old.by_line.items number) }
        requires listed { IsListed constant lines.now self.old }
        ensures listed { IfOk result (λ _. IsListed constant lines.now self.new) }
        ensures demands { IfOk result (λ _. listed self.new ≡ fold with_demand (listed self.old)
            (demanded_by (constant_tree constant) (step_at lines.now number) (slice_index_or (terms_for number (listed self.old)) index []))) }
        ensures large { IfErr result (SaysLarge (weight_of (constant_tree constant) lines.now (fold with_demand (listed self.old)
            (demanded_by (constant_tree constant) (step_at lines.now number) (slice_index_or (terms_for number (listed self.old)) index []))))) }
    {
        let put = PutIn {
            constant,
            terms: self.terms_of(number, index),
        };
        let parents = demanded_parents(alloc, &put, lines, &lines[number].step)?;
        self.add_all(alloc, constant, lines, parents)
    }

    /// Demands arrive in order.
    fn add_all(
        &mut self,
        alloc: Global,
        constant: u32,
        lines: &[Line],
        demands: Sequence<Demanded>,
    ) -> Result<(), GroundFault>
        requires { IsListed constant lines.now self.old }
        ensures listed { IfOk result (λ _. IsListed constant lines.now self.new) }
        ensures demands { IfOk result (λ _. listed self.new ≡ fold with_demand (listed self.old) (map demand_of demands)) }
        ensures large { IfErr result (SaysLarge (weight_of (constant_tree constant) lines.now
            (fold with_demand (listed self.old) (map demand_of demands)))) }
    {
        for demand in demands.into_vec() {
            self.add(alloc, constant, lines, demand)?;
        }
        Ok(())
    }

    /// A demand arrives: it comes last, unless it is there.
    fn add(
        &mut self,
        alloc: Global,
        constant: u32,
        lines: &[Line],
        demand: Demanded,
    ) -> Result<(), GroundFault>
        requires { IsListed constant lines.now self.old }
        ensures listed { IfOk result (λ _. IsListed constant lines.now self.new) }
        ensures demands { IfOk result (λ _. listed self.new ≡ with_demand (listed self.old) (demand_of demand)) }
        ensures large { IfErr result (SaysLarge (weight_of (constant_tree constant) lines.now
            (with_demand (listed self.old) (demand_of demand)))) }
    {
        let key = key_of(alloc, demand.line, demand.terms.as_slice())?;
        let known = self.keys.meet(key)?;
        if known < self.demands.len() {
            return Ok(());
        }
        let sizes = sizes_of(alloc, demand.terms.as_slice())?;
        let size = size_of_line(lines, demand.line, sizes.as_slice());
        let weight = heavier(self.weight, size)?;
        self.weight = weight;
        push_at(&mut self.by_line, demand.line as usize, known as u64)?;
        self.demands.push(demand)?;
        Ok(())
    }
}

/// The last line with no terms.
fn last_line(alloc: Global, lines: &[Line]) -> Demanded
    requires { 0 < length lines.now }
    ensures { demand_of result ≡ last_line lines.now }
{
    Demanded {
        line: lines.len() as u64 - 1,
        terms: Terms::new(alloc),
    }
}

/// Adds a number to the list at a place, where there is one.
fn push_at(lists: &mut Vec<Numbers>, place: usize, number: u64) -> Mem<()>
    ensures { IfOk result (λ _. lists.new.items ≡ slice_set lists.old.items place (row_at lists.old.items place ++ number ∷ [])) }
{
    if place < lists.len() {
        lists[place].push(number)?;
    }
    Ok(())
}
