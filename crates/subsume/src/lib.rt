//! Subsumption of clauses: one clause by another, and by a set of clauses that is searched by feature vectors.
//!
//! A clause subsumes another where one substitution maps its literals to different literals of the other, sides in either order, and its
//! assertions are among the other's. This is subsumption by multisets, so a clause never subsumes its own factor.
//!
//! **One clause by another** (`subsuming.rt`, `placing.rt`). This is a search by backtracking, and NP-complete. Three things keep it short.
//! Each literal must have a partner at all, which is asked before the search. At each step the literal with the fewest partners left is
//! placed next (`choosing.rt`), so that a search that fails does so early. And where more literals than there are partners want the same few
//! partners, the search stops (`crowding.rt`, a case of Hall's theorem). None of the three changes the answer: they are hints, and the
//! contracts say "none exactly where no substitution does".
//!
//! **Sets** (`subsumers.rt`). A clause that subsumes another has no feature greater than the other's. The 64 features are Schulz's
//! (Simple and Efficient Clause Subsumption with Feature Vector Indexing, 2004): over the positive literals and over the negative ones, the
//! number of literals, the number of symbols and variables, and the number of symbols in each of thirty classes: those whose number has a
//! digit at one of the last three places, so that up to a thousand symbols are told apart (`vector.rt`). They are kept in 16 bits each, and
//! what is larger counts as the largest. `tree.rt` divides the members by one feature at each node; `editing.rt` chooses the feature when a
//! leaf is too full. `lowest.rt` looks for the lowest member that subsumes a clause (forward), `collecting.rt` for all members that a clause
//! subsumes (backward); it leaves out the high side of a division where no member of it has as much of each feature. At a leaf the features
//! are compared first, then the clauses. Members with one literal have a tree of their own (`parted.rt`), so that `forward_longer` can leave
//! them out: an index of their sides, as `unit_cutting` has one, finds those that subsume sooner.
//!
//! **What is proved.** `subsumes` gives a substitution exactly where there is one. `forward` gives the lowest subsumer, `forward_longer`
//! some subsumer with several literals or none, `backward` exactly the members that are subsumed, rising. That the trees leave nothing out
//! is part of this.
//!
//! **Cost.** Copies of clauses that can't be told apart by the features end in one leaf, and each search looks at all of it.
#![tactic(auto)]

mod choosing;
mod collecting;
mod counting;
mod crowding;
mod editing;
mod entry;
mod lowest;
mod matching;
mod parted;
mod placing;
mod searching;
mod subsumers;
mod subsuming;
mod target;
mod tree;
mod vector;

pub use counting::features;
pub use matching::{are_alike, match_sides};
pub use searching::{backward, forward, forward_except, forward_longer};
pub use subsumers::Subsumers;
pub use subsuming::subsumes;

pub mod laws;
