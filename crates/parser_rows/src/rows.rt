//! Rows, one after another.

use crate::answers::{Kind, answer};
use crate::mixes::{mix_text, typed_text};
use crate::preludes::prelude_text;
use qual_base::NoMemory;
use row_files::row_text;
use std::alloc::Global;

/// What the rows below a line with `@` are; nothing where it says nothing of them.
fn kind_of(line: &str) -> Option<Kind> {
    let word = match line.split_once(' ') {
        Some((word, _)) => word,
        None => line,
    };
    match word.as_bytes() {
        b"@faults" => Some(Kind::Faults),
        b"@trees" => Some(Kind::Trees),
        b"@prelude" => Some(Kind::Prelude),
        b"@wide" => Some(Kind::Wide),
        b"@mixes" => Some(Kind::Mixes),
        b"@typed" => Some(Kind::Typed),
        b"@preludes" => Some(Kind::Preludes),
        b"@wide_preludes" => Some(Kind::WidePreludes),
        _ => None,
    }
}

/// What a row answers.
fn row_answer(alloc: Global, kind: Kind, row: &str) -> Result<String, NoMemory> {
    let source = row_text(alloc, row)?;
    match kind {
        Kind::Mixes => mix_text(alloc, source.as_bytes()),
        Kind::Typed => typed_text(alloc, source.as_bytes()),
        Kind::Preludes => prelude_text(alloc, false, source.as_bytes()),
        Kind::WidePreludes => prelude_text(alloc, true, source.as_bytes()),
        _ => answer(alloc, kind, source.as_bytes()),
    }
}

/// Adds a row and what it answers.
fn put_row(alloc: Global, out: &mut String, kind: Kind, row: &str) -> Result<(), NoMemory> {
    let text = row_answer(alloc, kind, row)?;
    out.push_str(row)?;
    out.push_str("\n  ")?;
    out.push_str(text.as_str())?;
    out.push('\n')?;
    Ok(())
}

/// What the rows of a text answer, each behind the row itself.
pub(crate) fn answers(alloc: Global, text: &str) -> Result<String, NoMemory> {
    let mut out = String::new(alloc);
    let mut kind = Kind::Faults;
    for line in text.split('\n') {
        if line.starts_with('@') {
            kind = kind_of(line).unwrap_or(kind);
            out.push_str(line)?;
            out.push('\n')?;
        } else if !line.is_empty() {
            put_row(alloc, &mut out, kind, line)?;
        }
    }
    Ok(out)
}
