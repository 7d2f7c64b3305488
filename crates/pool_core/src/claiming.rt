// Claims: clauses that are given out.

ghost use Rattle.std.specs.Prelude.{◌≡◌, ℕ, suc, ◌+◌, ◌<◌, ◌≤◌, ◌==◌, ◌++◌, [], ◌∷◌, None, Some, if◌then◌else◌, map, length, take, All, slice_get, slice_set, IfOk, OnOk, OnErr, IsFalse, vec_len, vec_capacity};
ghost use Rattle.std.specs.BTreeMap.{insert_entry};
ghost use Rattle.std.specs.Ordering.{nat_cmp};
ghost use Rattle.pool_history.specs.Answers.{IsAnswerToClaim, IsTicket, IsChangeOf, IsTicketOf, IsClaimedOf};
ghost use Rattle.pool_history.specs.Claiming.{next_given};
ghost use Rattle.pool_core.specs.KeptEvents.{events_of};
ghost use Rattle.pool_history.specs.News.{change_of, changes_from, news_since, first_told};
ghost use Rattle.pool_core.specs.Noted.{AreOfBank, IsNoted, IsNextTicket, change_at};
ghost use Rattle.pool_history.specs.Record.{jobs_out, position_of};
ghost use Rattle.clause_register.specs.Register.{at_position};
ghost use Rattle.pool_history.specs.Replay.{start, replay};
ghost use Rattle.pool_history.specs.Solving.{must_solve};
ghost use Rattle.pool_history.specs.declared.event.Event.TheVariants.{Claim};
ghost use Rattle.pool_core.specs.declared.pool.Note.TheVariants.{Activated};
ghost use Rattle.clause_register.specs.declared.register.Registration.{Registration};

use crate::history::History;
use crate::pool::{Note, OutJob, Pool};
use bank_clause::Member;
use clause_queue::Choice;
use clause_register::Register;
use plain_types::{Mem, NoMemory};
use pool_history::{Change, Claimed, Event, News, Ticket};
use std::alloc::Global;
use std::collections::BTreeMap;

/// In each run of this many given claims the last is of the oldest clause.
const CLAIMS_IN_A_ROUND: u64 = 6;

impl Pool {
    /// The answer to a caller that knows the activations and deaths of the first `told` events: an outcome that stands, the clauses over names
    /// for the solver, a clause to work on, or how many jobs are out. After an out-of-memory error the pool is as before.
    pub fn claim(&mut self, alloc: Global, told: u64) -> Mem<Claimed>
        requires told { told ≤ length self.old.history }
        ensures bank { self.new.bank ≡ self.old.bank }
        ensures origin { self.new.origin ≡ self.old.origin }
        ensures answer { IfOk result (λ answer. IsAnswerToClaim self.old.origin self.old.history told answer self.new.history) }
        ensures of_bank { IfOk result (IsClaimedOf self.old.bank) }
        ensures unchanged { OnErr result (self.new ≡ self.old) }
    {
        if let Some(outcome) = self.outcome() {
            return Ok(Claimed::Ended(outcome));
        }
        if self.must_solve() {
            return Ok(Claimed::Solve(self.give_clauses(alloc)?));
        }
        match self.next_given() {
            Some(number) => Ok(Claimed::Given(self.give(alloc, number, told)?)),
            None => Ok(Claimed::Idle(self.jobs_out()?)),
        }
    }

    /// How many jobs are out. Those on given clauses are on different ones, so there are few. A number past 32 bits is told as out of memory.
    fn jobs_out(&self) -> Mem<u32>
        ensures { IfOk result (λ count. count ≡ jobs_out (replay self.now.origin self.now.history)) }
    {
        let given = self.jobs.len() as u32;
        match given.checked_add(u32::from(self.solver.is_some())) {
            Some(count) => Ok(count),
            None => Err(NoMemory),
        }
    }

    /// Gives out the clause that is next.
    fn give(&mut self, alloc: Global, number: u32, told: u64) -> Mem<Ticket>
        requires open { (replay self.old.origin self.old.history).ended ≡ None }
        requires solved { IsFalse (must_solve (replay self.old.origin self.old.history)) }
        requires next { next_given (replay self.old.origin self.old.history) ≡ Some number }
        requires told { told ≤ length self.old.history }
        ensures bank { self.new.bank ≡ self.old.bank }
        ensures origin { self.new.origin ≡ self.old.origin }
        ensures number { IfOk result (λ ticket. ticket.number ≡ number) }
        ensures job { IfOk result (λ ticket. ticket.job ≡ suc (replay self.old.origin self.old.history).jobs) }
        ensures history { IfOk result (λ ticket. self.new.history ≡ self.old.history ++ Claim ticket.job ∷ []) }
        ensures ticket { IfOk result (λ ticket. IsTicket self.old.origin self.new.history told ticket) }
        ensures of_bank { IfOk result (IsTicketOf self.old.bank) }
        ensures unchanged { OnErr result (self.new ≡ self.old) }
    {
        let ticket = self.ticket(alloc, number, told)?;
        let job = ticket.job;
        take_claim_memory(
            &mut self.history,
            &mut self.positions,
            &mut self.proof.notes,
            &mut self.notes_before,
            &mut self.jobs,
            job,
            OutJob {
                number,
                left: ticket.left,
            },
        )?;
        self.proof.queue.remove(number);
        self.notes_before.push_reserved(self.proof.notes.len());
        activate(
            &mut self.proof.register,
            &mut self.positions,
            &mut self.proof.notes,
            number,
            ticket.position,
        );
        self.history.push(&Event::Claim(job));
        self.last_job = job;
        self.place_in_round = (self.place_in_round + 1) % CLAIMS_IN_A_ROUND;
        Ok(ticket)
    }

    /// The ticket of the clause that is next.
    fn ticket(&self, alloc: Global, number: u32, told: u64) -> Mem<Ticket>
        requires next { next_given (replay self.now.origin self.now.history) ≡ Some number }
        requires told { told ≤ length self.now.history }
        ensures next { IfOk result (IsNextTicket self.now.origin self.now.history told number) }
        ensures of_bank { IfOk result (IsTicketOf self.now.bank) }
    {
        let clause = self.proof.register.get(number as usize).clause.copied()?;
        let mut news = self.news(alloc, told as usize)?;
        let position = self.told_position(number, &mut news)?;
        let counted = self.counted.len() as u64;
        Ok(Ticket {
            job: one_more(self.last_job)?,
            number,
            position,
            clause,
            news,
            left: u64::from(self.options.inferences).saturating_sub(counted) as u32,
            as_of: one_more(self.history.len())?,
        })
    }

    /// The position of the clause that is next. Where it is a new one, the news get its activation.
    fn told_position(&self, number: u32, news: &mut News) -> Mem<u32>
        requires { next_given (replay self.now.origin self.now.history) ≡ Some number }
        ensures position { IfOk result (λ position. position ≡ position_of (replay self.now.origin self.now.history) number) }
        ensures news { OnOk result
            (map change_of news.new ≡ map change_of news.old ++ first_told (replay self.now.origin self.now.history) number) }
        ensures of_bank { OnOk result (All (IsChangeOf self.now.bank) news.old → All (IsChangeOf self.now.bank) news.new) }
    {
        let registration = self.proof.register.get(number as usize);
        match registration.position {
            Some(position) => Ok(position),
            None => {
                let position = self.positions.len() as u32;
                let clause = registration.clause.copied()?;
                news.push(Change::Activated(Member { number, clause }))?;
                Ok(position)
            }
        }
    }

    /// The activations and deaths since a place in the history.
    pub(crate) fn news(&self, alloc: Global, told: usize) -> Mem<News>
        requires { told ≤ length self.now.history }
        ensures told { IfOk result (λ news. map change_of news ≡ news_since self.now.origin self.now.history told) }
        ensures of_bank { IfOk result (All (IsChangeOf self.now.bank)) }
    {
        let mut news = News::new(alloc);
        for at in self.note_count(told)..self.proof.notes.len() {
            news.push(change(&self.proof.register, self.proof.notes[at])?)?;
        }
        Ok(news)
    }

    /// How many activations and deaths there were before an event.
    fn note_count(&self, told: usize) -> usize
        ensures { let origin = self.now.origin in
            result ≡ length (changes_from origin.options (start origin) (take told self.now.history)) }
    {
        match self.notes_before.get(told) {
            Some(count) => *count,
            None => self.proof.notes.len(),
        }
    }

    /// The clause that is given next.
    fn next_given(&self) -> Option<u32>
        ensures { result ≡ next_given (replay self.now.origin self.now.history) }
    {
        let choice = if self.place_in_round == CLAIMS_IN_A_ROUND - 1 {
            Choice::Old
        } else {
            Choice::Light
        };
        self.proof.queue.peek(choice)
    }
}

/// The change that a note tells.
fn change(register: &Register, note: Note) -> Mem<Change>
    requires { IsNoted (length register.now.clauses) note }
    ensures told { IfOk result (λ change. change_of change ≡ change_at register.now.clauses note) }
    ensures of_bank { IfOk result (λ change. (bank : ℕ) → AreOfBank bank register.now.clauses → IsChangeOf bank change) }
{
    match note {
        Note::Activated(number) => {
            let clause = register.get(number as usize).clause.copied()?;
            Ok(Change::Activated(Member { number, clause }))
        }
        Note::Died(number) => Ok(Change::Died(number)),
    }
}

/// Takes the memory of a claim: the job's entry, and room for an activation, for this event, and for one of each job that is out, this one and
/// the solver's among them.
fn take_claim_memory(
    history: &mut History,
    positions: &mut Vec<u32>,
    notes: &mut Vec<Note>,
    notes_before: &mut Vec<usize>,
    jobs: &mut BTreeMap<u64, OutJob>,
    job: u64,
    out: OutJob,
) -> Mem<()>
    ensures events { events_of history.new ≡ events_of history.old }
    ensures events_len { vec_len history.new.events ≡ vec_len history.old.events }
    ensures events_room { OnOk result (vec_len history.old.events + (length jobs.old.entries + 3) ≤ vec_capacity history.new.events) }
    ensures events_kept { vec_capacity history.old.events ≤ vec_capacity history.new.events }
    ensures positions { positions.new.items ≡ positions.old.items }
    ensures positions_room { OnOk result (vec_len positions.new < vec_capacity positions.new) }
    ensures notes { notes.new.items ≡ notes.old.items }
    ensures notes_room { OnOk result (vec_len notes.new < vec_capacity notes.new) }
    ensures before { notes_before.new.items ≡ notes_before.old.items }
    ensures before_len { vec_len notes_before.new ≡ vec_len notes_before.old }
    ensures before_room { OnOk result (vec_len notes_before.old + (length jobs.old.entries + 3) ≤ vec_capacity notes_before.new) }
    ensures before_kept { vec_capacity notes_before.old ≤ vec_capacity notes_before.new }
    ensures jobs { OnOk result (jobs.new.entries ≡ insert_entry nat_cmp jobs.old.entries job out) }
    ensures no_job { OnErr result (jobs.new.entries ≡ jobs.old.entries) }
{
    let more = jobs.len() + 3;
    history.reserve(more)?;
    positions.reserve(1)?;
    notes.reserve(1)?;
    notes_before.reserve(more)?;
    jobs.insert(job, out)?;
    Ok(())
}

/// A clause whose position is the next one is activated. One that was activated before stays as it is.
fn activate(
    register: &mut Register,
    positions: &mut Vec<u32>,
    notes: &mut Vec<Note>,
    number: u32,
    position: u32,
)
    requires there { number < length register.old.clauses }
    requires positions_room { vec_len positions.old < vec_capacity positions.old }
    requires notes_room { vec_len notes.old < vec_capacity notes.old }
    ensures register { (s : Registration) → slice_get register.old.clauses number ≡ Some s
        → register.new.clauses ≡ (if position == length positions.old.items then slice_set register.old.clauses number (at_position position s)
        else register.old.clauses) }
    ensures positions { positions.new.items
        ≡ (if position == length positions.old.items then positions.old.items ++ number ∷ [] else positions.old.items) }
    ensures notes { notes.new.items
        ≡ (if position == length positions.old.items then notes.old.items ++ Activated number ∷ [] else notes.old.items) }
{
    if position as usize == positions.len() {
        register.set_position(number as usize, position);
        positions.push_reserved(number);
        notes.push_reserved(Note::Activated(number));
    }
}

/// The next number. One past 64 bits is told as out of memory.
pub(crate) fn one_more(number: u64) -> Mem<u64>
    ensures { IfOk result (λ next. next ≡ number + 1) }
{
    match number.checked_add(1) {
        Some(next) => Ok(next),
        None => Err(NoMemory),
    }
}
