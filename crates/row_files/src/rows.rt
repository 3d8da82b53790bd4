//! What a row stands for.

use std::alloc::{AllocError, Global};

/// Adds a text so many times.
fn put_times(whole: &mut String, text: &str, count: u32) -> Result<(), AllocError> {
    for _ in 0..count {
        whole.push_str(text)?;
    }
    Ok(())
}

/// Adds what a piece between backquotes means.
fn put_piece(whole: &mut String, piece: &str) -> Result<(), AllocError> {
    match piece.as_bytes() {
        b"n" => whole.push('\n'),
        b"t" => whole.push('\t'),
        _ => match piece.split_once(' ') {
            Some((count, text)) => put_times(whole, text, count.parse::<u32>().unwrap_or(0)),
            None => Ok(()),
        },
    }
}

/// The text that a row stands for. In it, `n` between two backquotes is a line feed, `t` a tab, a number and a text that text so
/// many times, and nothing is nothing. Time and memory are linear in that text.
pub fn row_text(alloc: Global, row: &str) -> Result<String, AllocError> {
    let mut whole = String::new(alloc);
    let mut is_inside = false;
    for piece in row.split('`') {
        if is_inside {
            put_piece(&mut whole, piece)?;
        } else {
            whole.push_str(piece)?;
        }
        is_inside = !is_inside;
    }
    Ok(whole)
}
