//! Rows, one after another.

use crate::flows::{flow_text, full_text, lengths_text};
use crate::lattices::{collection_text, lattice_text};
use crate::names::names_text;
use crate::paths::paths_text;
use crate::tables::{table_text, words_text};
use crate::words::halves;
use qual_base::NoMemory;
use row_files::row_text;
use std::alloc::Global;

/// Which constraints stand between two skeletons.
#[derive(Clone, Copy, PartialEq, Eq)]
pub(crate) enum Flow {
    Into,
    Equal,
    IntoVariable,
    OutOfVariable,
    Cross,
}

/// What rows are.
#[derive(Clone, Copy)]
enum Kind {
    Lattices,
    Collections,
    Table,
    Words,
    Paths,
    Flows(Flow),
    Lengths,
    Full,
    Names,
}

/// What the rows below a line with `@` are; nothing where it says nothing of them.
fn kind_of(line: &str) -> Option<Kind> {
    let word = match line.split_once(' ') {
        Some((word, _)) => word,
        None => line,
    };
    match word.as_bytes() {
        b"@lattices" => Some(Kind::Lattices),
        b"@collections" => Some(Kind::Collections),
        b"@table" => Some(Kind::Table),
        b"@words" => Some(Kind::Words),
        b"@paths" => Some(Kind::Paths),
        b"@flow" => Some(Kind::Flows(Flow::Into)),
        b"@equate" => Some(Kind::Flows(Flow::Equal)),
        b"@smash" => Some(Kind::Flows(Flow::IntoVariable)),
        b"@unsmash" => Some(Kind::Flows(Flow::OutOfVariable)),
        b"@cross" => Some(Kind::Flows(Flow::Cross)),
        b"@lengths" => Some(Kind::Lengths),
        b"@full" => Some(Kind::Full),
        b"@names" => Some(Kind::Names),
        _ => None,
    }
}

/// What a row answers.
fn row_answer(alloc: Global, kind: Kind, row: &str) -> Result<String, NoMemory> {
    let words = row_text(alloc, row)?;
    let (front, questions) = halves(words.as_str(), '?');
    match kind {
        Kind::Lattices => lattice_text(alloc, front, questions),
        Kind::Collections => collection_text(alloc, front, questions),
        Kind::Table => table_text(alloc, front, questions),
        Kind::Words => words_text(alloc, front, questions),
        Kind::Paths => paths_text(alloc, front, questions),
        Kind::Flows(how) => flow_text(alloc, how, front),
        Kind::Lengths => lengths_text(alloc, front),
        Kind::Full => full_text(alloc, front),
        Kind::Names => names_text(alloc, front, questions),
    }
}

/// Adds a row and what it answers.
fn put_row(alloc: Global, out: &mut String, kind: Kind, row: &str) -> Result<(), NoMemory> {
    let text = row_answer(alloc, kind, row)?;
    out.push_str(row)?;
    out.push_str("\n ")?;
    out.push_str(text.as_str())?;
    out.push('\n')?;
    Ok(())
}

/// What the rows of a text answer, each behind the row itself.
pub(crate) fn answers(alloc: Global, text: &str) -> Result<String, NoMemory> {
    let mut out = String::new(alloc);
    let mut kind = Kind::Lattices;
    for line in text.split('\n') {
        if line.starts_with('@') {
            kind = kind_of(line).unwrap_or(kind);
            out.push_str(line)?;
            out.push('\n')?;
        } else if !line.is_empty() {
            put_row(alloc, &mut out, kind, line)?;
        }
    }
    Ok(out)
}
