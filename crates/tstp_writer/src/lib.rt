//! The writer of derivations: of the lines that one line needs, the text in the format of TSTP (Sutcliffe 2017).
//!
//! A derivation in memory is a list of lines with numbered parents (`kernel_steps`). A text of it is a list of annotated formulas with
//! names and sources: first the formulas of the problem that the lines stand on, then the negation of the conjecture, where one of them
//! is the conjecture, then the lines. It goes in four stages, one after another:
//!
//! - *The needed lines* (`needed.rt`): one pass from the last line backwards marks the parents of each marked step. A step's parents are
//!   earlier, so each step is settled when the pass comes to it. An opposite line has no parent by number: it needs the component line of
//!   its name, so the pass also keeps the names that are needed. `cone_of` does this for anything that has steps, for the lines of a
//!   derivation (`cone`) and for the steps of a pool alone (`pool_writer`). A caller that knows that all lines are
//!   needed skips this pass (`write_all_lines`).
//! - *The cited formulas* (`cited.rt`): the places of the problem from which the clausify lines take their clauses.
//! - *The layout* (`layout.rt`, `places.rt`): each formula, negation and line gets its place in the text, which is its name `cN`. Here the
//!   parents' numbers become places among the needed lines.
//! - *The text* (`text.rt`, `lines.rt`, `sources.rt`, `items.rt`, `clauses.rt`, over `page.rt`): formulas, sources, items and clauses are
//!   added at the end of one `Page`, piece by piece.
//!
//! Names of split-off parts are printed with a prefix that no symbol of the problem begins with, and are numbered in the order in which
//! their component lines stand.
//!
//! **What is proved.** The text is exactly the definition's (`IsWritten`): the trees of the needed lines, spelled. Where the formulas can
//! be printed, the file's name is shown, and the lines are a refutation that can be read again, the text is an accepted derivation of the
//! problem: what is read of it is, line by line, what was written (`written_texts_are_accepted` and the laws before it). The bounds that
//! a reader has on nesting and on numbers are met (`fits.rt`). A call on a `Page` that is out of memory leaves it as it was.
//!
//! **Cost.** Linear in the lines up to the last one (a byte each), the problem's formulas, the symbols and the text.
#![tactic(auto)]

mod cited;
mod clauses;
mod fits;
mod items;
pub mod laws;
mod layout;
mod lines;
mod marks;
mod needed;
mod page;
mod places;
mod script;
mod sources;
mod text;
mod write;

pub use clauses::push_clause;
pub use items::push_chosen;
pub use lines::push_formula_name;
pub use needed::{HasStep, cone, cone_of};
pub use page::Page;
pub use write::{write_all_lines, write_lines};
