//! Where the program's bytes come from and where they go: libraries of named texts, and sinks.
//!
//! The outside is met in two traits. `Library` loads named texts, `Sink` takes bytes; both count their faults. Code that is generic over
//! them has only their clauses, so it can't answer a load or a write fault by itself: its own contract says that such a fault comes only
//! where the count rose. The program's top call is generic over both: it is handed a `FileLibrary` and a `StdoutSink` by `main`, and by
//! tests a `MemLibrary` (its calls fail by number), a `SureLibrary` (it never fails) and a `MemSink` (it takes a few bytes a call, has so
//! much room, and fails by number).
//!
//! What the traits promise of content is told only by those over memory. Of the real files and the real output two short functions are
//! proved over any reader and any writer (`read_front`, `write_some`), and what the system does beneath them is trusted.
#![tactic(auto)]

mod delivery;
mod fault;
mod file;
pub mod laws;
mod library;
mod memory;
mod memory_sink;
mod sink;
mod stdout;

pub use delivery::deliver;
pub use fault::{LoadFault, SinkFault};
pub use file::FileLibrary;
pub use library::Library;
pub use memory::{Files, MemFile, MemLibrary, SureLibrary};
pub use memory_sink::MemSink;
pub use sink::Sink;
pub use stdout::StdoutSink;
