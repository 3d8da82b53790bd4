//! Files and a sink in memory, whose calls fail where they are told to: for tests of what stands above.

mod files;
pub(crate) mod lookup;
mod sink;

pub use files::MemFiles;
pub use sink::MemSink;
