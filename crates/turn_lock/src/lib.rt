//! A lock over a state that has a history. Whoever takes a turn sees all that it has seen before, and what was added through it stays its
//! own.
//!
//! It is a lock by test and test-and-set: who waits looks at the gate, and tries it only where it is open. That its clauses hold over
//! every interleaving follows from a rule over the memory and over what each pass knows, which each atomic step keeps (after Owicki and
//! Gries, 1976). Nothing is promised of progress, fairness or time.
//!
//! All workers share one state, the pool, and each changes it only in a turn. What has to be proved is not only that no two turns
//! overlap. A worker that returns for its second turn must find all that it saw in its first, and what it started must still be its own.
//! `turn_lock` states that for any state that has a *history*, a list of entries that grows, an *origin* that stays, and a *key* for each
//! entry by which entries belong together (trait `Historied`).
//!
//! **Who knows what.** A `Pass` is leave to take turns. It has no bytes at run time; in the proofs it has a *view*: the history that it
//! has *seen*, the places in it that it *owns* (those added through it), and its *shares* of 1,024. A lock is made with one pass.
//! `split_pass` cuts a pass in two, `join_pass` makes one of two, and who has all shares is alone and may `close` the lock. `take` makes
//! of a pass a `Turn`, which has the state; `give` makes of the turn a pass again. A turn can't be dropped.
//!
//! **What there is in memory.** A table of `atomic_table` with two words and one slot. Word 0 is the *gate*, 0 while it is open and 1
//! while a turn is under way. Word 1 is the *length* of the history. The slot has the state.
//!
//! **The steps.** Each is one operation of the table; nothing else touches the words or the slot.
//!
//! - *Try the gate*, in `take`, where a look found it open: a compare-exchange from 0 to 1. Where it succeeds, the taker's view holds the
//!   gate and the slot is the taker's. Where it fails, nothing changes, and the taker yields the processor and tries again.
//! - *Slot out*, in `take`: the state is read out of the slot, which only the holder can do.
//! - *Slot in*, in `give`: the state is written back into the slot.
//! - *Raise the length*, in `give`: the giver has seen the whole history, and owns the places that were added. This is the moment at
//!   which a turn's entries count.
//! - *Open the gate*, in `give`: the slot goes home, and the giver's view no longer holds the gate.
//! - *Split*, in `split_pass`: the pass's shares are cut, and a second view comes with the same seen history and no places. A step before
//!   it notes the number of shares in the view, and changes no word.
//! - *Join*, in `join_pass`: the kept view takes the longer seen history and the places and shares of both; the other view is spent.
//! - *Load the length*, in `join_pass`, of each pass and of the joined one: nothing changes. It tells the pass what the rule says of its
//!   view.
//!
//! A look at the gate, by one who waits, is no step: it tells nothing and changes nothing.
//!
//! **The rule.** It holds between any two steps, whichever threads take them and in whatever order. A view with a share is *live*, one
//! with none is *spent*.
//!
//! 1. The words are the gate and the length of the *counted history*.
//! 2. While the gate is open, the state is in the slot, its history is the counted one, and its origin is the lock's.
//! 3. While the gate is closed, exactly one view holds it. That view knows the counted history and is live.
//! 4. What a live view has seen begins the counted history.
//! 5. The places that a live view owns were added since the lock was made and lie below the length of what it has seen, each once.
//! 6. Every entry with the key of an entry at a place that a view owns stands at a place that the same view owns.
//! 7. No two views own one place.
//! 8. Every live view has the history and the origin of the state with which the lock was made, and so had the view with which it was
//!    last joined. That history begins the counted one, and what each live view has seen.
//! 9. The shares of all views add up to 1,024.
//! 10. A spent view holds no gate and owns no place.
//! 11. Every place of the counted history that was added since the lock was made is owned by some view, which so is live.
//!
//! Between two raises the counted history stays, and a raise makes it longer: of all the steps, only the raise picks another counted
//! history, and it shows that the old one begins the new one.
//!
//! **Why the clauses follow.** The step that closes the gate sees the state at home, so by parts 2, 4 and 6 the taker learns that the
//! state's history begins with what it has seen and has its keys. While it holds the gate nobody else can raise the length (part 3). At
//! the raise the entries that were added have keys that were new, or the giver's own. So another pass's keys (part 6) aren't touched: an
//! added entry with such a key would have a key of an owned place of both, against part 7. After a join the view owns the places of both,
//! each once (part 5), so the two had none in common, and no keys either: a common key would be that of an owned place of both in the
//! longer of the two lists that were seen. Who closes the lock with all shares is the only live view (part 9), holds no gate, and so
//! finds the state at home (parts 2 and 3), and owns all that was added (part 11).
//!
//! The rule is `specs/Rule.antt`, what each step tells is `specs/Steps.antt`, and that each step keeps the rule is `proofs/Keeps.antt`
//! for turns and `proofs/Passes.antt` for splits and joins.
#![tactic(auto)]

mod historied;
pub mod laws;
mod lock;
mod pass;
mod steps;
mod view;

pub use historied::Historied;
pub use lock::TurnLock;
pub use pass::{Hold, Pass, Turn};
