//! Words, the numbers in them, and the words of an answer.

use qual_base::NoMemory;
use std::alloc::Global;

/// A word by its parts between colons: a name, and the numbers behind it. A number that is not there is 0.
#[derive(Clone, Copy)]
pub(crate) struct Word<'a> {
    pub(crate) name: &'a [u8],
    pub(crate) first: u32,
    pub(crate) second: u32,
    pub(crate) third: u32,
}

/// What stands before and behind the first separator; all of it and nothing where there is none.
pub(crate) fn halves(text: &str, separator: char) -> (&str, &str) {
    match text.split_once(separator) {
        Some((front, rest)) => (front, rest),
        None => (text, ""),
    }
}

/// The number that digits say, and 0 for anything else.
pub(crate) fn number(digits: &str) -> u32 {
    digits.parse::<u32>().unwrap_or(0)
}

pub(crate) fn word_of(text: &str) -> Word<'_> {
    let (name, rest) = halves(text, ':');
    let (first, rest) = halves(rest, ':');
    let (second, third) = halves(rest, ':');
    Word {
        name: name.as_bytes(),
        first: number(first),
        second: number(second),
        third: number(third),
    }
}

/// Adds a word to an answer, behind a blank.
pub(crate) fn put(out: &mut String, word: &str) -> Result<(), NoMemory> {
    out.push(' ')?;
    out.push_str(word)?;
    Ok(())
}

/// Adds a number to an answer.
pub(crate) fn put_number(alloc: Global, out: &mut String, number: u32) -> Result<(), NoMemory> {
    put(out, format!(in alloc; "{number}")?.as_str())
}

/// Adds an answer to a question whether something is so.
pub(crate) fn put_whether(out: &mut String, is_so: bool) -> Result<(), NoMemory> {
    put(out, if is_so { "yes" } else { "no" })
}
