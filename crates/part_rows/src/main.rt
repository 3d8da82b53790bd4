//! Rows of a file, and what parts of the analysis answer for each: a test by its printed text.
//!
//! The file `rows.txt` has a row a line, which is words with blanks between them. A line that begins with `@` is printed as it
//! stands. If its first word is one of these, it says what the rows below it are:
//!
//! - `@lattices`: the entries and the order lines of a lattice, or why they make none;
//! - `@collections`: such lattices, with ` / ` between them;
//! - `@paths`: a graph of constraints, and which variables its matched paths join;
//! - `@flow`, `@equate`, `@smash`, `@unsmash`, `@cross`: two types, and the constraints between skeletons of them;
//! - `@lengths`: a type, and how many constraints there are behind a `flow`, an `equate` and a `smash` of two skeletons of it;
//! - `@full`: a count of `equate`s and a type, of which flows are added until there are too many constraints;
//! - `@table`: letters with numbers;
//! - `@words`: words of qualifiers, each with its lattice and element;
//! - `@names`: the tape of a unit, and what its names stand for.
//!
//! Behind a word `?` stand questions, whose answers are printed in order. `lattices`, `tables`, `paths`, `types` and `tapes` say what
//! their words are. In a row, what stands between two backquotes is a number and a text, which is that text so many times.
//! `rt try` has no stack for the rows of deep types and no time for the longest ones: the built program has both.
#![tactic(auto)]

mod flows;
mod graphs;
mod lattices;
mod names;
mod paths;
mod rows;
mod tables;
mod tapes;
mod types;
mod words;

use outside::{HostFiles, HostSink, take_all};
use row_files::{MOST_BYTES, put_all};
use rows::answers;
use std::process::ExitCode;

/// Prints what the rows of the file answer.
fn main(rt: HostRuntime) -> ExitCode {
    let alloc = rt.alloc();
    let mut files = HostFiles::new(&rt);
    let Ok(bytes) = take_all(alloc, &mut files, "rows.txt", MOST_BYTES) else {
        return ExitCode::from(1);
    };
    let Ok(rows) = str::from_utf8(&bytes) else {
        return ExitCode::from(1);
    };
    let Ok(text) = answers(alloc, rows) else {
        return ExitCode::from(2);
    };
    let mut out = HostSink::new(rt.stdout());
    if put_all(&mut out, text.as_bytes()) {
        ExitCode::from(0)
    } else {
        ExitCode::from(3)
    }
}
