//! The register of clauses: each registered clause by its number, and the living copy of a clause by its hash.
//!
//! **What it is.** A saturation numbers its clauses in the order in which it registers them. For each the register keeps the clause, the
//! number of its line, its place in the order of activation, whether its job is done, and the event in which it died
//! (`Registration`). Before a clause is registered, `find` tells whether an equal one lives: then nothing is to be registered. A clause
//! that died keeps its number, but isn't found any more, so an equal one may be registered again.
//!
//! **Chains** (`chains.rt`). A clause is looked up by its hash. The numbers of one hash are chained, from the newest to the oldest: a
//! table has the newest number of each hash, and a list has for each number the one before it. A number stays in its chain for good, so
//! a death is a single write. Of equal clauses only the newest can live, since none is registered while another lives. So a look-up
//! comes to the living copy before it comes to one that died. Numbers of anything else can be chained by their keys likewise (`Chains`).
//!
//! **What contracts see** is a list of registrations, and for how many more there is room (`specs/RegisterCode.antt`). `find` answers the
//! place in that list of the living clause that is equal by the numbers of its terms, or `None` exactly where none lives. What is asked of
//! a number or of a list of numbers is answered exactly too, also where no clause has the number. `push` adds one registration;
//! `set_position`, `set_active` and `bury` change that of one number, and leave the others. Only `reserve` takes memory. After an
//! out-of-memory error the registrations are as before, and there is at least the room that there was.
//!
//! **Invariant** (`specs/RegisterLiving.antt`). The chains are those of the clauses' hashes, no two living clauses are copies of each
//! other, and there are at most 2^32 clauses, since their numbers have 32 bits. So `push` asks for a clause of which no living one is a
//! copy, and `bury` for a clause that lives.
//!
//! **Cost.** A look-up reads the table once and then walks one chain, comparing clauses by the numbers of their terms. It passes those
//! clauses of the hash that came after the living copy, or all of them where none lives. What is asked of a list of numbers costs the
//! list; all else is constant. The hash is handed in, so it is computed once for a look-up and the registration after it.
#![tactic(auto)]

mod chains;
mod register;

pub use chains::Chains;
pub use register::{Register, Registration};
