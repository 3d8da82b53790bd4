//! Calls of the tool over files in memory, read from a file, and what each answers: a test by its printed text.
//!
//! The file `calls.txt` has lines that begin with `@`, each of one word and what follows it, and the lines of files:
//!
//! - `@call TITLE` begins a call. What stands before the first one is common to all calls.
//! - `@word TEXT` is a word of the call. A call without one has `--lattice l.q s.c`, and with `@none` it has none.
//! - `@file NAME` begins a file: the lines up to the next line with `@`, with a line feed between each two of them.
//! - `@fill FROM TO TEXT` adds the text to the file for each number in turn: `%k` is the number, `%j` the one below it, `%l` a
//!   line feed.
//! - `@cut COUNT` keeps so many bytes of the file.
//! - `@fail NUMBER` has a read fail, `@put NUMBER` a write, `@most COUNT` has a write take so many bytes.
#![tactic(auto)]

mod call;
mod calls;
mod lines;

use calls::answers;
use outside::{HostFiles, HostSink, take_all};
use row_files::{MOST_BYTES, put_all};
use std::process::ExitCode;

/// Prints what the calls of the file answer.
fn main(rt: HostRuntime) -> ExitCode {
    let alloc = rt.alloc();
    let mut files = HostFiles::new(&rt);
    let Ok(bytes) = take_all(alloc, &mut files, "calls.txt", MOST_BYTES) else {
        return ExitCode::from(1);
    };
    let Ok(text) = answers(alloc, &bytes) else {
        return ExitCode::from(2);
    };
    let mut out = HostSink::new(rt.stdout());
    if put_all(&mut out, &text) {
        ExitCode::from(0)
    } else {
        ExitCode::from(3)
    }
}
