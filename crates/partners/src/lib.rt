//! An index of clauses by their sites for superposition, which finds the partners of a clause (Graf, Term Indexing, 1996).
//!
//! The set keeps two discrimination trees (`partners.rt`). One has the sides from which superposition can start, the other the terms at the
//! places into which it can go. An entry's number tells the member and the site (`index.rt`). To find the inferences of a clause, each of its
//! sides is looked up among the places of the others, and each of its places among their sides (`meeting.rt`); what the trees find is handed
//! to `superpose`, site by site.
//!
//! Each member has a *position*, the turn at which it was activated. A clause meets the members below its own position alone, so two clauses
//! meet once, in the job of the later one.
//!
//! **What is proved.** `superpositions` adds every superposition between the clause and each member whose position is below the bound, both
//! ways, each once: the same list that a scan over all pairs of sites would give, in another order. `superpositions_up_to` adds all of these, or
//! as many as are asked for. After out of memory the list is as before.
//!
//! **Cost.** A look-up for each site of the clause. What is found is sorted, so that the order of the inferences doesn't depend on the form
//! of the tree, and runs repeat.
#![tactic(auto)]

mod index;
pub mod laws;
mod meeting;
mod partners;
mod site;

pub use index::in_order;
pub use partners::Partners;
