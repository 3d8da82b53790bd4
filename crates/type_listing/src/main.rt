//! What a source's names and expressions are: a line for each, by the readers of a resolved program. For tests, by its printed
//! text.
//!
//! Its words are the names of a lattice file and of a source. The lines come in the order of the tokens that they stand at,
//! each with its place, LINE:COLUMN:
//!
//! - `name PLACE NAME KIND | TYPE | SIZE FIRST OWNER`: a name that is declared there, with the number of constructors of its
//!   type, the place of its first declaration, and the function that it belongs to, or `-`;
//! - `expression PLACE TOKEN place | TYPE` or `.. value | TYPE`: the expression with this key token, and the type of its value;
//! - `use PLACE NAME means FIRST`: a name in an expression;
//! - `typename PLACE | TYPE`.
//!
//! A type is `B` or `V`, `*T` a pointer, `(T, T, ...)->T` a function, `S` or `U` with a place the struct or union that was first
//! declared there. Annotation words stand before what they are written on, for a pointer behind its `*`, for an ellipsis behind
//! it, as in `*[const 1:1]B`.
#![tactic(auto)]

mod lines;
mod listing;
mod text;

use listing::list;
use outside::{HostFiles, HostSink, take_all};
use row_files::{MOST_BYTES, put_all};
use std::env;
use std::process::ExitCode;

/// Lists the source that the second word names, over the lattices of the first. Its status is 1 where a file is not read, 2
/// where it is refused, 3 where a write fails.
fn main(rt: HostRuntime) -> ExitCode {
    let alloc = rt.alloc();
    let mut words = Vec::new(alloc);
    if let Ok(args) = env::args(&rt) {
        for word in args.skip(1) {
            if words.push(word).is_err() {
                return ExitCode::from(1);
            }
        }
    }
    let [lattice_name, source_name] = words.as_slice() else {
        return ExitCode::from(1);
    };
    let mut files = HostFiles::new(&rt);
    let Ok(lattice) = take_all(alloc, &mut files, lattice_name, MOST_BYTES) else {
        return ExitCode::from(1);
    };
    let Ok(source) = take_all(alloc, &mut files, source_name, MOST_BYTES) else {
        return ExitCode::from(1);
    };
    let Ok(text) = list(alloc, &lattice, source_name, &source) else {
        return ExitCode::from(2);
    };
    let mut out = HostSink::new(rt.stdout());
    if put_all(&mut out, &text) {
        ExitCode::from(0)
    } else {
        ExitCode::from(3)
    }
}
