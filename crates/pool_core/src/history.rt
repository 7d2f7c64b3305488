// The history of a pool, as contracts see it.

ghost use Rattle.std.specs.Prelude.{◌≡◌, ℕ, Bool, List, Some, ◌+◌, ◌<◌, ◌≤◌, ◌++◌, [], ◌∷◌, length, vec_len, vec_capacity, OnOk};
ghost use Rattle.pool_core.specs.KeptEvents.{events_of};
ghost use Rattle.pool_history.specs.declared.batch.Batch.{Batch};
ghost use Rattle.pool_history.specs.declared.event.Event.TheVariants.{Return, ReturnModel};

use plain_types::Mem;
use pool_history::{Batch, Event};
use sat_core::Truths;
use std::alloc::Global;
use std::snapshot::Snapshot;

/// The events of a pool, in order. What they hold stands in the pool's clauses, lines and keys and isn't kept twice: contracts alone see
/// of an event more than that it happened.
#[derive(Drop)]
pub struct History {
    pub(crate) events: Vec<Snapshot<Event>>,
}

impl History {
    /// No events.
    pub(crate) fn new(alloc: Global) -> History
        ensures { events_of result ≡ [] }
    {
        History {
            events: Vec::new(alloc),
        }
    }

    /// How many events there were.
    pub fn len(&self) -> u64
        ensures { result ≡ length (events_of self.now) }
    {
        self.events.len() as u64
    }

    /// Makes room for `more` events, and leaves the events as they are.
    pub(crate) fn reserve(&mut self, more: usize) -> Mem<()>
        ensures events { events_of self.new ≡ events_of self.old }
        ensures len { vec_len self.new.events ≡ vec_len self.old.events }
        ensures room { OnOk result (vec_len self.new.events + more ≤ vec_capacity self.new.events) }
        ensures kept { vec_capacity self.old.events ≤ vec_capacity self.new.events }
    {
        self.events.reserve(more)?;
        Ok(())
    }

    /// Adds an event. There is room for it.
    pub(crate) fn push(&mut self, event: &Event)
        requires { vec_len self.old.events < vec_capacity self.old.events }
        ensures events { events_of self.new ≡ events_of self.old ++ event.now ∷ [] }
        ensures len { vec_len self.new.events ≡ vec_len self.old.events + 1 }
        ensures room { vec_capacity self.new.events ≡ vec_capacity self.old.events }
    {
        self.events.push_reserved(Snapshot::of(event));
    }

    /// Adds the return of a batch, which comes back. There is room for it.
    pub(crate) fn push_return(&mut self, batch: Batch) -> Batch
        requires { vec_len self.old.events < vec_capacity self.old.events }
        ensures batch { result ≡ batch }
        ensures events { events_of self.new ≡ events_of self.old ++ Return batch ∷ [] }
        ensures len { vec_len self.new.events ≡ vec_len self.old.events + 1 }
        ensures room { vec_capacity self.new.events ≡ vec_capacity self.old.events }
    {
        let event = Event::Return(batch);
        self.push(&event);
        let Some(batch) = returned_batch(event) else {
            unreachable!();
        };
        batch
    }

    /// Adds that a model of the clauses over names was taken, which comes back. There is room for it.
    pub(crate) fn push_model(&mut self, job: u64, truths: Truths) -> Truths
        requires { vec_len self.old.events < vec_capacity self.old.events }
        ensures truths { result ≡ truths }
        ensures events { events_of self.new ≡ events_of self.old ++ ReturnModel job truths ∷ [] }
        ensures len { vec_len self.new.events ≡ vec_len self.old.events + 1 }
        ensures room { vec_capacity self.new.events ≡ vec_capacity self.old.events }
    {
        let event = Event::ReturnModel { job, truths };
        self.push(&event);
        let Some(truths) = returned_model(event) else {
            unreachable!();
        };
        truths
    }
}

/// The batch that was taken in an event, if one was.
fn returned_batch(event: Event) -> Option<Batch>
    ensures { (batch : Batch) → event ≡ Return batch → result ≡ Some batch }
{
    match event {
        Event::Return(batch) => Some(batch),
        _other => None,
    }
}

/// The model that was taken in an event, if one was.
fn returned_model(event: Event) -> Option<Truths>
    ensures { (job : ℕ) (truths : List Bool) → event ≡ ReturnModel job truths → result ≡ Some truths }
{
    match event {
        Event::ReturnModel { truths, .. } => Some(truths),
        _other => None,
    }
}
