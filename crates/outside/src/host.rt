//! Real files and the real standard output. What the outside holds is not known here; what it gave and took is.

ghost use Rattle.std.specs.Prelude.{◌≡◌, ◌<◌, ◌≤◌, None, [], length, IfOk};

use crate::logs::{ReadLog, WriteLog};
use crate::traits::{Failed, Files, Sink};
use std::io::{Read, Write};
use std::marker::Model;
use std::{fs, rt};

/// The files of the host, of which one at a time is open. Clauses see what was read, and how many calls failed.
#[derive(Drop)]
pub struct HostFiles<'a, R: rt::Files> {
    host: &'a R,
    open: Option<R::File>,
    log: ReadLog,
}

impl<'a, R: rt::Files> Model for HostFiles<'a, R> {
    ghost use Rattle.outside.specs.Histories.{Reads};

    ghost Value = { Reads };

    ghost view = { λ a. a.log };
}

impl<'a, R: rt::Files> HostFiles<'a, R> {
    /// The files of a host, none of them open.
    pub fn new(host: &'a R) -> Self
        ensures readings { result.readings ≡ [] }
        ensures failed { result.failed ≡ 0 }
    {
        HostFiles {
            host,
            open: None,
            log: ReadLog::new(),
        }
    }
}

/// Reads bytes of a file that is open; there are none of no file.
fn read_open<F: Read>(open: &mut Option<F>, into: &mut [u8]) -> Result<usize, Failed>
    ensures within { IfOk result (λ n. n ≤ length into.new) }
{
    match open {
        Some(file) => file.read(into).map_err(|_| Failed),
        None => Ok(0),
    }
}

impl<R: rt::Files> Files for HostFiles<'_, R> {
    ghost log = { λ s. s.readings };

    ghost failed = { λ s. s.failed };

    ghost contents = { λ _. None };

    fn start(&mut self, name: &str) -> Result<(), Failed> {
        match fs::open(self.host, name) {
            Ok(file) => {
                self.open = Some(file);
                self.log.start(name, Ok(()));
                Ok(())
            }
            Err(_) => {
                self.log.start(name, Err(Failed));
                Err(Failed)
            }
        }
    }

    fn next(&mut self, into: &mut [u8]) -> Result<usize, Failed> {
        let result = read_open(&mut self.open, into);
        self.log.next(into, result);
        result
    }
}

/// The standard output of the host. Clauses see what it took, and how many puts failed.
#[derive(Drop)]
pub struct HostSink<W: Write> {
    out: W,
    log: WriteLog,
}

impl<W: Write> Model for HostSink<W> {
    ghost use Rattle.outside.specs.Histories.{Writes};

    ghost Value = { Writes };

    ghost view = { λ a. a.log };
}

/// Writes some bytes and flushes them; none of a piece that is not empty is a failure too.
fn write_through<W: Write>(out: &mut W, piece: &[u8]) -> Result<usize, Failed>
    ensures within { IfOk result (λ n. n ≤ length piece.now) }
    ensures some { IfOk result (λ n. 0 < length piece.now → 0 < n) }
{
    let count = out.write(piece).map_err(|_| Failed)?;
    if count == 0 && !piece.is_empty() {
        return Err(Failed);
    }
    out.flush().map_err(|_| Failed)?;
    Ok(count)
}

impl<W: Write> HostSink<W> {
    /// A sink over the standard output of a host.
    pub fn new(out: W) -> Self
        ensures bytes { result.bytes ≡ [] }
        ensures failed { result.failed ≡ 0 }
    {
        HostSink {
            out,
            log: WriteLog::new(),
        }
    }
}

impl<W: Write> Sink for HostSink<W> {
    ghost written = { λ s. s.bytes };

    ghost failed = { λ s. s.failed };

    fn put(&mut self, piece: &[u8]) -> Result<usize, Failed> {
        let result = write_through(&mut self.out, piece);
        self.log.put(piece, result);
        result
    }
}
