//! The pool of clauses: what is claimed and returned, and what it keeps to answer at once.
//!
//! Contracts see a pool as its bank, what it began with, and its history, the list of its events. What each call answers is told by the
//! replay of these, whose definitions and laws stand in `pool_history`, a crate below; they are shown again here. So a contract names no
//! field, and a theorem on histories is one on pools. The invariant (`specs/State.antt`) says of each field that it is the replay's.
//!
//! **What is kept, and why.**
//!
//! - The *register* (`clause_register`, a crate below) has the registered clauses by their numbers, with the events in which they died, and
//!   finds the living copy of a clause by its hash.
//! - The *queue* (`ready_queue.rt`) has the clauses that wait and are awake, by age and by size. It has a node for each registered clause: so
//!   one that is given up, or that a model wakes, finds a node and takes no memory.
//! - The *index of assertions* (`tag_index.rt`) finds the clauses that assert a tag. A new model (`waking.rt`) looks at those alone whose names
//!   flip; each is put into the queue or taken out of it.
//! - The *notes* are a list of all activations and deaths. Beside each event stands how many came before it. So the news since an event
//!   are read off the list, from one place on, however many workers ask and whenever they asked last.
//! - The *steps* of the lines alone: a line's clause is its step's conclusion, and the writer makes it again for the few that it prints.
//! - Of splitting (`splits.rt`) the parts with their tags and signed names, the numbers of the lines that introduce these, the clauses over
//!   names with their lines, and the last model.
//! - Of the events and the counted keys only the numbers (`history.rt`, `counted_keys.rt`): what a batch held is in the clauses and lines,
//!   and contracts alone see more. The keys that were set aside are kept, since the outcome names one.
//!
//! **Calls.** `claim` (`claiming.rt`) gives out a clause, or all clauses over names for the solver (`solving.rt`), which come before clauses
//! where the model isn't of all of them. `give_back` (`returning.rt`) takes a batch or turns it down, `give_model` (`solving.rt`) takes the
//! solver's answer, and `abandon` (`giving_up.rt`) takes a job of either kind back. `pool.rt` begins a pool (`inputs.rt`) and tells of it,
//! `members.rt` hands out clauses and lines. `historied.rt` makes a pool the state of a turn lock.
//!
//! **Answers of the solver.** A model takes the place of the last one, and is of the clauses that the solver was handed, though others came
//! since. It takes no memory: clauses wake or fall asleep. The chains of a log become lines (`chain_lines.rt`), whose memory is taken before
//! anything changes. The last of them is the empty clause, so the pool is refuted.
//!
//! **A return** does its work in two halves. `taking.rt` takes all the memory: the results are made of terms of the bank
//! (`interning.rt`), each in the form in which it comes (`form.rt`), how much they may bring is counted (`demand.rt`), and there is room for
//! that and for all that may die. After an out-of-memory error the batch comes back, and the pool is as before. Then `proof_state.rt`,
//! `placing.rt` and `counting.rt` do what the replay says, in its order: the given clause dies or becomes active, entries are counted,
//! results come, and removals take effect. That half can't fail.
//!
//! A claim does likewise: it makes the ticket, then takes room for the job's entry, for a position, and for an event and a count of notes
//! for each job that is out, the solver's among them. So giving a job up and taking a model take no memory, and can't fail: the event has room,
//! and each clause a node in the queue.
//!
//! **A result comes** (`arriving.rt`) whole, and is registered (`registering.rt`) unless an equal clause lives; or, where it has no literals
//! but assertions, as a clause over names; or in its parts (`parts.rt`). These get their tags in order, with the lines that introduce new names
//! (`splitting.rt`); then come the split line and its clause over names, whose names are sorted (`sorting.rt`); and each part is registered under
//! its tag. Tags are given here and no earlier, since a result may never come: the limit may be reached, or its victim dead. An input comes
//! as a result does (`inputs.rt`), but is parted by the pool (`input_parts.rt`).
//!
//! **Cost.** A claim costs the news since the caller was told and a logarithm for the queue and the jobs. One for the solver copies the clauses
//! over names, as two blocks. A return costs its batch: each result is hashed once and looked up in one chain. A model costs a look at each tag,
//! and at the clauses that assert one whose name flips. Nothing else is linear in the pool but `members`, `outcome` where nothing waits and
//! keys were set aside, and a look-up where many equal clauses have died.
#![tactic(auto)]

mod arriving;
mod chain_lines;
mod claiming;
mod counted_keys;
mod counting;
mod demand;
mod form;
mod giving_up;
mod historied;
mod history;
mod input_parts;
mod inputs;
mod interning;
mod members;
mod parts;
mod placing;
mod pool;
mod proof_state;
mod ready_queue;
mod registering;
mod returning;
mod solving;
mod sorting;
mod splits;
mod splitting;
mod tag_index;
mod taking;
mod waking;

pub use history::History;
pub use pool::Pool;
pub use pool_history::{
    Back, Batch, Change, Claimed, Entry, Event, Fate, MetEntries, News, Options, Outcome,
    PropTicket, Redundancy, Removal, Removals, Ticket, Work, laws,
};
pub use returning::NotTaken;
pub use solving::ModelNotTaken;
