//! Files in memory.

ghost use Rattle.std.specs.Prelude.{◌≡◌, ◌+◌, ◌<◌, ◌||◌, ◌++◌, ◌↔◌, Some, [], ◌∷◌, length, take, min, not, is_err, All, IfOk, OnErr, if◌then◌else◌};
ghost use Rattle.outside.specs.Memory.{files_of, fails_at, has_file, one_more, shown};
ghost use Rattle.outside.specs.Readings.{Agrees, at_last, begun, content_of, goes_on};
ghost use Rattle.outside.specs.Puts.{failures};

use crate::logs::ReadLog;
use crate::memory::lookup::{moved_on, rest_of, start_of};
use crate::traits::{Failed, Files};
use std::marker::Model;

/// Files in memory.
///
/// Calls of `start` and `next` are numbered together from 1, and numbers stand still at 2^64 - 1. A call fails exactly
/// where its number is among those that are to fail, or where it starts a name that no file has. Of two files with one
/// name the first counts. A call costs time linear in the files, the numbers and the bytes that it moves.
#[derive(Drop)]
pub struct MemFiles {
    files: Vec<(String, Vec<u8>)>,
    fail: Vec<u64>,
    calls: u64,
    faults: u64,
    at: Option<(usize, usize)>,
    log: ReadLog,
}

impl Model for MemFiles {
    ghost use Rattle.std.specs.Prelude.{◌≡◌};
    ghost use Rattle.outside.specs.Memory.{AreRead, FilesState, files_of, rest_at, shown};

    ghost Value = { FilesState };

    ghost view = { λ a. record {
      files = files_of a.files.items;
      fail = a.fail.items;
      calls = a.calls;
      failed = a.log.failed;
      log = a.log.readings;
      rest = rest_at a.files.items a.at;
    } };

    ghost invariant = { λ a.
        AreRead (files_of a.files.items) (rest_at a.files.items a.at) a.log.readings
        × (a.faults ≡ shown a.log.failed) };
}

impl MemFiles {
    /// Files by name and bytes, and the numbers of the calls that are to fail. It takes no memory.
    pub fn new(files: Vec<(String, Vec<u8>)>, fail: Vec<u64>) -> MemFiles
        ensures { result ≡ record {
          files = files_of files.items;
          fail = fail.items;
          calls = 0;
          failed = 0;
          log = [];
          rest = [];
        } }
    {
        MemFiles {
            files,
            fail,
            calls: 0,
            faults: 0,
            at: None,
            log: ReadLog::new(),
        }
    }

    /// How many calls failed, up to 2^64 - 1.
    pub fn faults(&self) -> u64
        ensures { result ≡ shown self.now.failed }
    {
        self.faults
    }
}

impl Files for MemFiles {
    ghost log = { λ s. s.log };

    ghost failed = { λ s. s.failed };

    ghost contents = { λ s. Some s.files };

    fn start(&mut self, name: &str) -> Result<(), Failed>
        ensures fails { is_err result ≡ (fails_at self.old.fail (one_more self.old.calls) || not
            (has_file self.old.files name.now)) }
        ensures rest { self.new.rest ≡
            (if is_err result then self.old.rest else content_of self.old.files name.now) }
        ensures log { self.new.log ≡ self.old.log ++ begun name.now result ∷ [] }
        ensures calls { self.new.calls ≡ one_more self.old.calls }
        ensures failed { self.new.failed ≡ self.old.failed + failures result }
        ensures files { self.new.files ≡ self.old.files }
        ensures fail { self.new.fail ≡ self.old.fail }
        ensures agrees { All (Agrees self.new.files) self.new.log }
    {
        self.calls = self.calls.saturating_add(1);
        let found = start_of(&self.files, name);
        if found.is_none() || self.fail.contains(&self.calls) {
            self.faults = self.faults.saturating_add(1);
            self.log.start(name, Err(Failed));
            return Err(Failed);
        }
        self.at = found;
        self.log.start(name, Ok(()));
        Ok(())
    }

    fn next(&mut self, into: &mut [u8]) -> Result<usize, Failed>
        requires { 0 < length into.old }
        ensures fails { is_err result ≡ fails_at self.old.fail (one_more self.old.calls) }
        ensures most { IfOk result (λ n. n ≡ min (length self.old.rest) (length into.new)) }
        ensures moves { IfOk result (λ n. self.old.rest ≡ take n into.new ++ self.new.rest) }
        ensures end { IfOk result (λ n. (n ≡ 0) ↔ (self.old.rest ≡ [])) }
        ensures err { OnErr result (self.new.rest ≡ self.old.rest) }
        ensures log { self.new.log ≡ at_last (goes_on result into.new) self.old.log }
        ensures calls { self.new.calls ≡ one_more self.old.calls }
        ensures failed { self.new.failed ≡ self.old.failed + failures result }
        ensures files { self.new.files ≡ self.old.files }
        ensures fail { self.new.fail ≡ self.old.fail }
        ensures agrees { All (Agrees self.new.files) self.new.log }
    {
        self.calls = self.calls.saturating_add(1);
        if self.fail.contains(&self.calls) {
            self.faults = self.faults.saturating_add(1);
            self.log.next(into, Err(Failed));
            return Err(Failed);
        }
        let rest = rest_of(&self.files, self.at);
        let count = rest.len().min(into.len());
        into[..count].copy_from_slice(&rest[..count]);
        self.at = moved_on(&self.files, self.at, count);
        self.log.next(into, Ok(count));
        Ok(count)
    }
}
