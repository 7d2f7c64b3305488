// Which clauses are awake, and how a new model wakes some and sends others to sleep. What is done here takes no memory: a clause that falls
// asleep leaves its node to the queue, and one that wakes finds one there.

ghost use mathlib.Core.Bool.{beq};
ghost use Rattle.std.specs.Prelude.{◌≡◌, ℕ, Bool, ◌+◌, ◌<◌, ◌≤◌, List, All, Contains, Some, not, true, length, map, slice_get, if◌then◌else◌, ◌==◌};
ghost use Rattle.std.specs.BTreeMap.{values};
ghost use Rattle.std.specs.List.{list_all, list_any};
ghost use Rattle.fol_base.specs.Clause.{clause_size};
ghost use Rattle.sat_core.specs.Clause.{literal_true, valuation_of};
ghost use Rattle.clause_queue.specs.Pairs.{numbers, with_pair, without};
ghost use Rattle.term_bank.specs.declared.bank.Bank.{Bank};
ghost use Rattle.term_bank.specs.declared.table.Table.{Table};
ghost use Rattle.pool_history.specs.Record.{PoolRecord, is_awake, is_awake_under, waits};
ghost use Rattle.pool_history.specs.Tags.{name_of_tag};
ghost use Rattle.pool_core.specs.Noted.{clause_in};
ghost use Rattle.pool_core.specs.Placing.{with_queue};
ghost use Rattle.pool_core.specs.State.{AreTagged, HasNodes, IsProofStateOf, job_entry};
ghost use Rattle.pool_core.specs.Waking.{AreLookedAt, AssertsNoneFrom, IsSomeWaking, IsWakingStateOf, looked_at};
ghost use Rattle.pool_core.specs.declared.pool.OutJob.{OutJob};

use crate::pool::{OutJob, ProofState};
use crate::splits::Splits;
use sat_core::Truths;
use std::collections::BTreeMap;
use std::mem;

impl Splits {
    /// Whether the signed names of all these tags are true under the model.
    pub(crate) fn are_true(&self, tags: &[u32]) -> bool
        requires { All (λ tag. tag < length self.now.parts.parts) tags.now }
        ensures { result ≡ list_all (λ tag. literal_true (valuation_of self.now.model) (name_of_tag self.now.parts.parts tag)) tags.now }
    {
        for tag in tags {
            if !self.is_true(*tag) {
                return false;
            }
        }
        true
    }

    /// Whether the signed name of a tag is true under the model.
    fn is_true(&self, tag: u32) -> bool
        requires { tag < length self.now.parts.parts }
        ensures { result ≡ literal_true (valuation_of self.now.model) (name_of_tag self.now.parts.parts tag) }
    {
        let signed = self.parts.signed(tag);
        value_of(&self.model, signed.name) == signed.positive
    }
}

/// The value of a name, which is false where the list doesn't have it.
fn value_of(truths: &Truths, name: u32) -> bool
    ensures { result ≡ valuation_of truths.now name }
{
    match truths.as_slice().get(name as usize) {
        Some(value) => *value,
        None => false,
    }
}

/// Whether a name has another value than before.
fn flips(before: &Truths, now: &Truths, name: u32) -> bool
    ensures { result ≡ not (beq (valuation_of before.now name) (valuation_of now.now name)) }
{
    value_of(before, name) != value_of(now, name)
}

/// Whether a job on the clause of a number is out.
fn is_out(jobs: &BTreeMap<u64, OutJob>, number: u32) -> bool
    ensures { result ≡ list_any (λ (out : OutJob). number == out.number) (values jobs.now) }
{
    jobs.values().any(|out| number == out.number)
}

impl ProofState {
    /// Whether the clause of a number is awake under the model.
    pub(crate) fn is_awake(&self, number: u32) -> bool
        requires there { number < length self.now.register.clauses }
        requires tags { AreTagged self.now }
        ensures under { let s = self.now in
            result ≡ is_awake_under (valuation_of s.splits.model) s.splits.parts.parts (clause_in s.register.clauses number) }
        ensures awake { (bank : Bank) (table : Table) (r : PoolRecord) → IsProofStateOf bank table self.now r → result ≡ is_awake r number }
    {
        self.splits
            .are_true(self.register.get(number as usize).clause.names())
    }

    /// A clause that waits and doesn't stand in the queue is put into it where it is awake. There is room.
    pub(crate) fn wait_again(&mut self, number: u32)
        requires there { number < length self.old.register.clauses }
        requires tags { AreTagged self.old }
        requires absent { ¬ Contains (numbers self.old.queue.pairs) number }
        requires room { 0 < self.old.queue.spare }
        ensures put { let s = self.old in self.new.queue.pairs
            ≡ (if is_awake_under (valuation_of s.splits.model) s.splits.parts.parts (clause_in s.register.clauses number)
            then with_pair (number, clause_size (clause_in s.register.clauses number)) s.queue.pairs else s.queue.pairs) }
        ensures waits { (bank : Bank) (table : Table) (r : PoolRecord) (pairs : List (ℕ × ℕ)) → waits r number ≡ true
            → self.old.queue.pairs ≡ without number pairs → IsProofStateOf bank table (with_queue pairs self.old) r
            → IsProofStateOf bank table self.new r }
        ensures nodes { length self.new.queue.pairs + self.new.queue.spare ≡ length self.old.queue.pairs + self.old.queue.spare }
        ensures rest { self.new ≡ record self.old { queue = self.new.queue } }
    {
        if self.is_awake(number) {
            let size = self.register.get(number as usize).clause.size();
            self.queue.push(number, size);
        }
    }

    /// A model of the first `clauses` clauses over names comes, while these jobs are out. Clauses wake where a name that they assert flips, and
    /// others fall asleep.
    pub(crate) fn take_model(
        &mut self,
        jobs: &BTreeMap<u64, OutJob>,
        truths: Truths,
        clauses: usize,
    )
        requires told { (bank : Bank) × (table : Table) × (r : PoolRecord)
            × (jobs.now.entries ≡ map job_entry r.given) × IsProofStateOf bank table self.old r }
        requires nodes { HasNodes self.old 0 }
        ensures modelled { (bank : Bank) (table : Table) (r : PoolRecord) → jobs.now.entries ≡ map job_entry r.given
            → IsProofStateOf bank table self.old r → IsProofStateOf bank table self.new (record r { model = truths; modelled = clauses }) }
        ensures nodes { length self.new.queue.pairs + self.new.queue.spare ≡ length self.old.queue.pairs + self.old.queue.spare }
        ensures rest { self.new ≡ record self.old {
          queue = self.new.queue;
          splits = record self.old.splits { model = truths; modelled = clauses };
        } }
    {
        let before = mem::replace(&mut self.splits.model, truths);
        self.splits.modelled = clauses;
        self.refresh_flipped(jobs, &before);
    }

    /// Looks anew at the clauses that assert a name which flips, where the model that was before kept the queue.
    fn refresh_flipped(&mut self, jobs: &BTreeMap<u64, OutJob>, before: &Truths)
        requires told { (bank : Bank) × (table : Table) × (r : PoolRecord)
            × IsWakingStateOf bank table self.old jobs.now.entries (is_awake (record r { model = before.now })) r }
        requires nodes { HasNodes self.old 0 }
        ensures refreshed { (bank : Bank) (table : Table) (r : PoolRecord)
            → IsWakingStateOf bank table self.old jobs.now.entries (is_awake (record r { model = before.now })) r
            → IsProofStateOf bank table self.new r }
        ensures nodes { length self.new.queue.pairs + self.new.queue.spare ≡ length self.old.queue.pairs + self.old.queue.spare }
        ensures rest { self.new ≡ record self.old { queue = self.new.queue } }
    {
        self.asserting.fit();
        for place in 0..self.splits.parts.len() {
            let Ok(tag) = u32::try_from(place) else {
                return;
            };
            let name = self.splits.parts.signed(tag).name;
            if flips(before, &self.splits.model, name) {
                self.refresh_tag(jobs, tag);
            }
        }
    }

    /// Looks anew at the clauses that assert a tag.
    fn refresh_tag(&mut self, jobs: &BTreeMap<u64, OutJob>, tag: u32)
        requires told { IsSomeWaking self.old jobs.now.entries }
        requires nodes { HasNodes self.old 0 }
        ensures refreshed { (bank : Bank) (table : Table) (awake : ℕ → Bool) (r : PoolRecord)
            → IsWakingStateOf bank table self.old jobs.now.entries awake r
            → (now : ℕ → Bool) × IsWakingStateOf bank table self.new jobs.now.entries now r
            × AreLookedAt r awake now (AssertsNoneFrom 0 self.old.asserting.entries tag) }
        ensures nodes { length self.new.queue.pairs + self.new.queue.spare ≡ length self.old.queue.pairs + self.old.queue.spare }
        ensures rest { self.new ≡ record self.old { queue = self.new.queue } }
    {
        let mut next = self.asserting.newest_of(tag);
        while next > 0 {
            let place = next - 1;
            let number = self.asserting.number_at(place);
            self.refresh(jobs, number);
            next = self.asserting.older_than(place);
        }
    }

    /// Looks anew at a clause: it stands in the queue where it waits and is awake.
    fn refresh(&mut self, jobs: &BTreeMap<u64, OutJob>, number: u32)
        requires told { IsSomeWaking self.old jobs.now.entries }
        requires there { number < length self.old.register.clauses }
        requires nodes { HasNodes self.old 0 }
        ensures refreshed { (bank : Bank) (table : Table) (awake : ℕ → Bool) (r : PoolRecord)
            → IsWakingStateOf bank table self.old jobs.now.entries awake r
            → IsWakingStateOf bank table self.new jobs.now.entries (looked_at r number awake) r }
        ensures nodes { length self.new.queue.pairs + self.new.queue.spare ≡ length self.old.queue.pairs + self.old.queue.spare }
        ensures rest { self.new ≡ record self.old { queue = self.new.queue } }
    {
        self.queue.remove(number);
        if self.waits(jobs, number) {
            self.wait_again(number);
        }
    }

    /// Whether the clause of a number waits while these jobs are out. One that has no position was never given out.
    fn waits(&self, jobs: &BTreeMap<u64, OutJob>, number: u32) -> bool
        requires there { number < length self.now.register.clauses }
        ensures { (bank : Bank) (table : Table) (pairs : List (ℕ × ℕ)) (r : PoolRecord) → jobs.now.entries ≡ map job_entry r.given
            → IsProofStateOf bank table (with_queue pairs self.now) r → result ≡ waits r number }
    {
        let registration = self.register.get(number as usize);
        if registration.death.is_some() || registration.is_active {
            return false;
        }
        registration.position.is_none() || !is_out(jobs, number)
    }
}
