//! The outside of a run: a folder of files, and a sink of bytes.
#![tactic(auto)]

mod folder;
mod host;
mod memory;
mod sink;

pub use folder::{Faults, Folder, ListError, ReadError};
pub use host::{HostFolder, HostSink};
pub use memory::{MemoryFolder, MemorySink};
pub use sink::{Sink, WriteError};
