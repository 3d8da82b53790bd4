//! Writing what all rows answer.

use outside::Sink;

/// The most bytes of a file of rows.
pub const MOST_BYTES: usize = 16_777_216;

/// Writes a text, and returns whether all of it was taken: where a write fails, only a front of it was.
pub fn put_all<O: Sink>(out: &mut O, text: &[u8]) -> bool {
    let mut sent = 0;
    while sent < text.len() {
        match out.put(&text[sent..]) {
            Ok(count) => sent += count,
            Err(_) => return false,
        }
    }
    true
}
