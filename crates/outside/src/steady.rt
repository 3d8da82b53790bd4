//! Files and a sink that never fail.

ghost use Rattle.std.specs.Prelude.{◌≡◌, ◌++◌, ◌-◌, ◌^◌, min, Some, None, [], length};
ghost use Rattle.outside.specs.Memory.{files_of, shown};

use crate::logs::{ReadLog, WriteLog};
use crate::memory::lookup::{moved_on, rest_of, start_of};
use crate::traits::{Failed, Files, Sink};
use std::marker::Model;

/// Files in memory that never fail; a name that no file has is an empty file. Clauses see the files, by name and
/// bytes, the readings, and what is left of the file that was started last.
///
/// A call costs time linear in the files and the bytes that it moves.
#[derive(Drop)]
pub struct SteadyFiles {
    files: Vec<(String, Vec<u8>)>,
    at: Option<(usize, usize)>,
    log: ReadLog,
}

impl Model for SteadyFiles {
    ghost use Rattle.std.specs.Prelude.{◌≡◌};
    ghost use Rattle.outside.specs.Memory.{AreRead, SteadyState, files_of, rest_at};

    ghost Value = { SteadyState };

    ghost view = { λ a. record {
      files = files_of a.files.items;
      log = a.log.readings;
      rest = rest_at a.files.items a.at;
    } };

    ghost invariant = { λ a.
        AreRead (files_of a.files.items) (rest_at a.files.items a.at) a.log.readings
        × (a.log.failed ≡ 0) };
}

impl SteadyFiles {
    /// Files by name and bytes, none of them started.
    pub fn new(files: Vec<(String, Vec<u8>)>) -> SteadyFiles
        ensures { result ≡ record { files = files_of files.items; log = []; rest = [] } }
    {
        SteadyFiles {
            files,
            at: None,
            log: ReadLog::new(),
        }
    }
}

impl Files for SteadyFiles {
    ghost log = { λ s. s.log };

    ghost failed = { λ _. 0 };

    ghost contents = { λ s. Some s.files };

    fn start(&mut self, name: &str) -> Result<(), Failed> {
        self.at = start_of(&self.files, name);
        self.log.start(name, Ok(()));
        Ok(())
    }

    fn next(&mut self, into: &mut [u8]) -> Result<usize, Failed> {
        let rest = rest_of(&self.files, self.at);
        let count = rest.len().min(into.len());
        into[..count].copy_from_slice(&rest[..count]);
        self.at = moved_on(&self.files, self.at, count);
        self.log.next(into, Ok(count));
        Ok(count)
    }
}

/// A sink that never fails: it takes every piece whole, and keeps only how many bytes came. Clauses see the bytes.
#[derive(Drop)]
pub struct SteadySink {
    counted: u64,
    log: WriteLog,
}

impl Model for SteadySink {
    ghost use Rattle.std.specs.Prelude.{◌≡◌, ℕ, List, length};
    ghost use Rattle.outside.specs.Memory.{shown};

    ghost Value = { List ℕ };

    ghost view = { λ a. a.log.bytes };

    ghost invariant = { λ a. (a.counted ≡ shown (length a.log.bytes)) × (a.log.failed ≡ 0) };
}

impl SteadySink {
    /// A sink to which no byte came.
    pub fn new() -> SteadySink
        ensures { result ≡ [] }
    {
        SteadySink {
            counted: 0,
            log: WriteLog::new(),
        }
    }

    /// How many bytes came, up to 2^64 - 1.
    pub fn counted(&self) -> u64
        ensures { result ≡ shown (length self.now) }
    {
        self.counted
    }
}

impl Sink for SteadySink {
    ghost written = { λ s. s };

    ghost failed = { λ _. 0 };

    fn put(&mut self, piece: &[u8]) -> Result<usize, Failed>
        ensures whole { result ≡ Ok (length piece.now) }
        ensures written { self.new ≡ self.old ++ piece.now }
    {
        self.counted = self.counted.saturating_add(piece.len() as u64);
        self.log.put(piece, Ok(piece.len()));
        Ok(piece.len())
    }
}
