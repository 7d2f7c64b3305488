//! A discrimination tree (McCune 1992; Graf, Term Indexing, 1996): an index of terms that finds those that may unify with a query, may be
//! generalisations of it, or may be instances of it.
//!
//! **Paths.** A term is stored under the list of its heads in reading order, where each variable is a *star*, whichever it is (`label.rt`).
//! So the tree finds *compatible* terms: those that fit when each occurrence of a variable may stand for another term. Whether equal
//! variables stand for equal terms is left to the caller, who unifies or matches. A node has its children in the order of their labels, and
//! the entries whose path ends there (`node.rt`). A path that no other one shares is kept as one list, a *tail* (`tail.rt`): most paths end
//! so, and need no nodes then.
//!
//! **Queries.** A query walks down the tree with the list of the terms that are still to be read; this list lies in the callers' frames and
//! takes no memory (`work.rt`). At a star in the tree a whole subterm of the query is passed over; at a variable of the query whole subterms
//! of the tree are (`query.rt`). Numbers of arguments stand in the labels, so no list of skips is kept.
//!
//! **Matchers for nothing.** `first_generalisation` hands its test, with each entry, the subterms for which the stars on the way stand
//! (`stars.rt`). So rewriting by units reads the matcher off the path. It stops at the first entry that the test accepts.
//!
//! **What is proved.** The tree is seen as a list of entries, each a term and a number. Each query gives exactly the compatible ones, each
//! once; `is_compatible` (`scan.rt`) is the plain test that the definition is. Putting in after out of memory leaves the tree as it was;
//! taking out takes no memory and removes empty branches. The counted queries also tell how many nodes were read.
//!
//! **Cost.** An entry is put in or taken out in time linear in its symbols, with a search by halving at each node. A query may visit every
//! path that fits; it reads no label twice on one path.
#![tactic(auto)]

mod entry;
mod first;
mod fitting;
mod label;
pub mod laws;
mod node;
mod query;
mod scan;
mod sorted;
mod stars;
mod steps;
mod tail;
mod tree;
mod work;

pub use scan::is_compatible;
pub use stars::{Generalisation, Stars};
pub use steps::Steps;
pub use tree::DiscTree;
