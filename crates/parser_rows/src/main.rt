//! Rows of a file, and what the front end answers for each: a test by its printed text.
//!
//! The file `sources.txt` has a row a line. A line that begins with `@` is printed as it stands. If its first word is one of
//! these, it says what the rows below it are:
//!
//! - `@faults`: sources, of which each is a unit or is refused at the place and for the reason that are printed: `S1` a token
//!   that goes on with no form, `S2` one that makes the unit too high, `N1` a name that has another kind in its scope, `C1` a
//!   word that continues no mix, `O1` an assignment to no unary form;
//! - `@trees`: sources, of which the tree or the fault is printed, as `shown` and `shown_statements` write trees;
//! - `@prelude`: the same, read as unit 0, where index words stand;
//! - `@wide`: the same, read as wider C;
//! - `@mixes`: words of a declaration, in which each name that is no tag is a typedef name. How many there are of a mix is
//!   printed, the number of the token at which they are none, or `unfinished`;
//! - `@typed`: such words, and whether a type stands among them;
//! - `@preludes` and `@wide_preludes`: texts, of which the index words are printed, each by its token with its numbers, or why it
//!   is no prelude and where.
//!
//! In a row, what stands between two backquotes is `n`, a line feed, `t`, a tab, a number and a text, which is that text so
//! many times, or nothing. Lines without bytes are left out.
#![tactic(auto)]

mod answers;
mod mixes;
mod preludes;
mod rows;
mod shown;
mod shown_statements;
mod text;

use outside::{HostFiles, HostSink, take_all};
use row_files::{MOST_BYTES, put_all};
use rows::answers;
use std::process::ExitCode;

/// Prints what the rows of the file answer.
fn main(rt: HostRuntime) -> ExitCode {
    let alloc = rt.alloc();
    let mut files = HostFiles::new(&rt);
    let Ok(bytes) = take_all(alloc, &mut files, "sources.txt", MOST_BYTES) else {
        return ExitCode::from(1);
    };
    let Ok(rows) = str::from_utf8(&bytes) else {
        return ExitCode::from(1);
    };
    let Ok(text) = answers(alloc, rows) else {
        return ExitCode::from(2);
    };
    let mut out = HostSink::new(rt.stdout());
    if put_all(&mut out, text.as_bytes()) {
        ExitCode::from(0)
    } else {
        ExitCode::from(3)
    }
}
