//! A sink in memory.

ghost use Rattle.std.specs.Prelude.{◌≡◌, ◌+◌, ◌<◌, ◌≤◌, ◌-◌, ◌||◌, ◌&&◌, ◌++◌, [], length, min, is_err, nat_lt, nat_le, IfOk};
ghost use Rattle.outside.specs.Memory.{fails_at, one_more, shown};
ghost use Rattle.outside.specs.Puts.{failures, taken};

use crate::logs::WriteLog;
use crate::traits::{Failed, Sink};
use qual_base::NoMemory;
use std::alloc::Global;
use std::marker::Model;

/// A sink in memory that has room for some bytes.
///
/// Puts are numbered from 1, and numbers stand still at 2^64 - 1. A put fails exactly where its number is among those
/// that are to fail, or where its piece is not empty and the room is full. It takes no memory, and time linear in the
/// piece and the numbers.
#[derive(Drop)]
pub struct MemSink {
    bytes: Vec<u8>,
    room: usize,
    most: usize,
    fail: Vec<u64>,
    calls: u64,
    faults: u64,
    log: WriteLog,
}

impl Model for MemSink {
    ghost use Rattle.std.specs.Prelude.{◌≡◌, ◌≤◌, vec_len, vec_capacity};
    ghost use Rattle.outside.specs.Memory.{SinkState, shown};

    ghost Value = { SinkState };

    ghost view = { λ a. record {
      written = a.bytes.items;
      room = a.room;
      most = a.most;
      fail = a.fail.items;
      calls = a.calls;
      failed = a.log.failed;
    } };

    ghost invariant = { λ a. (1 ≤ a.most) × (a.room ≤ vec_capacity a.bytes)
        × (vec_len a.bytes ≤ a.room) × (a.faults ≡ shown a.log.failed) };
}

impl MemSink {
    /// An empty sink with memory for `room` bytes, of whose puts each takes at most `most` bytes, and those with the
    /// numbers of `fail` fail.
    pub fn new(alloc: Global, room: usize, most: usize, fail: Vec<u64>) -> Result<MemSink, NoMemory>
        requires { 1 ≤ most }
        ensures { IfOk result
            (λ sink. sink ≡ record {
              written = [];
              room = room;
              most = most;
              fail = fail.items;
              calls = 0;
              failed = 0;
            }) }
    {
        match Vec::with_capacity(alloc, room) {
            Ok(bytes) => Ok(MemSink {
                bytes,
                room,
                most,
                fail,
                calls: 0,
                faults: 0,
                log: WriteLog::new(),
            }),
            Err(_) => Err(NoMemory),
        }
    }

    /// The bytes that were written.
    pub fn bytes(&self) -> &[u8]
        ensures { result.now ≡ self.now.written }
    {
        self.bytes.as_slice()
    }

    /// How many puts failed, up to 2^64 - 1.
    pub fn faults(&self) -> u64
        ensures { result ≡ shown self.now.failed }
    {
        self.faults
    }
}

impl Sink for MemSink {
    ghost written = { λ s. s.written };

    ghost failed = { λ s. s.failed };

    fn put(&mut self, piece: &[u8]) -> Result<usize, Failed>
        ensures fails { is_err result ≡ (fails_at self.old.fail (one_more self.old.calls) ||
            (nat_lt 0 (length piece.now) && nat_le self.old.room (length self.old.written))) }
        ensures took { IfOk result
            (λ n. n ≡ min (length piece.now)
            (min self.old.most (self.old.room - length self.old.written))) }
        ensures some { IfOk result (λ n. 0 < length piece.now → 0 < n) }
        ensures written { self.new.written ≡ self.old.written ++ taken result piece.now }
        ensures calls { self.new.calls ≡ one_more self.old.calls }
        ensures failed { self.new.failed ≡ self.old.failed + failures result }
        ensures room { self.new.room ≡ self.old.room }
        ensures most { self.new.most ≡ self.old.most }
        ensures fail { self.new.fail ≡ self.old.fail }
    {
        self.calls = self.calls.saturating_add(1);
        let is_full = !piece.is_empty() && self.bytes.len() >= self.room;
        if is_full || self.fail.contains(&self.calls) {
            self.faults = self.faults.saturating_add(1);
            self.log.put(piece, Err(Failed));
            return Err(Failed);
        }
        let count = piece.len().min(self.most).min(self.room - self.bytes.len());
        match self.bytes.extend_from_slice(&piece[..count]) {
            Ok(()) => {
                self.log.put(piece, Ok(count));
                Ok(count)
            }
            Err(_) => unreachable!(),
        }
    }
}
