//! Logs of calls that only clauses read. They take no memory, and noting a call does nothing at run time.

ghost use Rattle.std.specs.Prelude.{◌≡◌, ◌+◌, ◌≤◌, [], ◌∷◌, ◌++◌, length, IfOk};
ghost use Rattle.outside.specs.Readings.{begun, goes_on, at_last};
ghost use Rattle.outside.specs.Puts.{taken, failures};

use crate::traits::Failed;
use ghost_log::History;
use std::marker::Model;

/// The readings of files, and how many calls failed.
#[derive(Drop)]
pub struct ReadLog {
    history: History,
}

impl Model for ReadLog {
    ghost use Rattle.outside.specs.Histories.{Reads, readings_in, faults_in};

    ghost Value = { Reads };

    ghost view = { λ a. record {
      readings = readings_in a.history.calls;
      failed = faults_in a.history.calls;
    } };
}

impl ReadLog {
    /// No reading.
    pub fn new() -> ReadLog
        ensures readings { result.readings ≡ [] }
        ensures failed { result.failed ≡ 0 }
    {
        ReadLog {
            history: History::new(),
        }
    }

    /// A start of the file of that name.
    pub fn start(&mut self, name: &str, answer: Result<(), Failed>)
        ensures readings { self.new.readings ≡ self.old.readings ++ begun name.now answer ∷ [] }
        ensures failed { self.new.failed ≡ self.old.failed + failures answer }
    {
        match answer {
            Ok(()) => self.history.note(&[0], name.as_bytes()),
            Err(_) => self.history.note(&[1], name.as_bytes()),
        }
    }

    /// A call for more, which gave the front of the buffer.
    pub fn next(&mut self, into: &[u8], answer: Result<usize, Failed>)
        requires { IfOk answer (λ n. n ≤ length into.now) }
        ensures readings { self.new.readings ≡
            at_last (goes_on answer into.now) self.old.readings }
        ensures failed { self.new.failed ≡ self.old.failed + failures answer }
    {
        match answer {
            Ok(0) => self.history.note(&[3], &[]),
            Ok(count) => self.history.note(&[2], &into[..count]),
            Err(_) => self.history.note(&[4], &[]),
        }
    }
}

/// The bytes that a sink took, and how many puts failed.
#[derive(Drop)]
pub struct WriteLog {
    history: History,
}

impl Model for WriteLog {
    ghost use Rattle.outside.specs.Histories.{Writes, bytes_in, faults_in};

    ghost Value = { Writes };

    ghost view = { λ a. record {
      bytes = bytes_in a.history.calls;
      failed = faults_in a.history.calls;
    } };
}

impl WriteLog {
    /// No put.
    pub fn new() -> WriteLog
        ensures bytes { result.bytes ≡ [] }
        ensures failed { result.failed ≡ 0 }
    {
        WriteLog {
            history: History::new(),
        }
    }

    /// A put, which took the front of the piece.
    pub fn put(&mut self, piece: &[u8], answer: Result<usize, Failed>)
        requires { IfOk answer (λ n. n ≤ length piece.now) }
        ensures bytes { self.new.bytes ≡ self.old.bytes ++ taken answer piece.now }
        ensures failed { self.new.failed ≡ self.old.failed + failures answer }
    {
        match answer {
            Ok(count) => self.history.note(&[2], &piece[..count]),
            Err(_) => self.history.note(&[1], &[]),
        }
    }
}
