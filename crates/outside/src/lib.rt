//! The outside of the tool: files that are read one after the other, and a sink that is written.
//!
//! Entry: the traits `Files` and `Sink`, and `take_all`, which takes a whole file within a limit. The files and the
//! sink of the host, those in memory whose calls fail where they are told to, and those that never fail meet them.
//! It does not know what is in a file. Only what the top call does stands on it.
#![tactic(auto)]

mod host;
mod logs;
mod memory;
mod steady;
mod taking;
#[cfg(test)]
mod tests;
mod traits;

pub use host::{HostFiles, HostSink};
pub use memory::{MemFiles, MemSink};
pub use steady::{SteadyFiles, SteadySink};
pub use taking::{TakeFault, take_all};
pub use traits::{Failed, Files, Sink};
