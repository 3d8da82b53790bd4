//! Tables, the words of qualifiers, and questions about them.
//!
//! A table has the first letter of each word. Its questions are `len`, `all` for the letters in order, and `get:n`. The words of
//! qualifiers are `$word:lattice:element`, and a question is such a word alone.

use crate::words::{halves, put, put_number, word_of};
use qual_base::{Elem, LatticeNo, NoMemory, Numbered, QualWords, Table, VarId};
use std::alloc::Global;

/// Adds a letter to an answer.
fn put_letter(alloc: Global, out: &mut String, letter: u8) -> Result<(), NoMemory> {
    put(out, format!(in alloc; "{}", letter as char)?.as_str())
}

/// The table of the first letters of words.
fn table_of(alloc: Global, words: &str) -> Result<Table<VarId, u8>, NoMemory> {
    let mut table = Table::new(alloc);
    for word in words.split_whitespace() {
        if let [letter, ..] = word.as_bytes() {
            if table.len() < u32::MAX {
                table.push(*letter)?;
            }
        }
    }
    Ok(table)
}

/// Adds the letter of a number, or that there is none.
fn put_item(
    alloc: Global,
    out: &mut String,
    table: &Table<VarId, u8>,
    at: u32,
) -> Result<(), NoMemory> {
    match table.get(VarId::new(at)) {
        Some(letter) => put_letter(alloc, out, *letter),
        None => put(out, "none"),
    }
}

/// Adds the letters in the order of their numbers.
fn put_items(alloc: Global, out: &mut String, table: &Table<VarId, u8>) -> Result<(), NoMemory> {
    for letter in table.as_slice() {
        put_letter(alloc, out, *letter)?;
    }
    Ok(())
}

/// What a table answers to questions.
pub(crate) fn table_text(alloc: Global, words: &str, questions: &str) -> Result<String, NoMemory> {
    let table = table_of(alloc, words)?;
    let mut out = String::new(alloc);
    for text in questions.split_whitespace() {
        let question = word_of(text);
        match question.name {
            b"len" => put_number(alloc, &mut out, table.len())?,
            b"all" => put_items(alloc, &mut out, &table)?,
            _ => put_item(alloc, &mut out, &table, question.first)?,
        }
    }
    Ok(out)
}

/// The number below 256 that digits say, and 0 for anything else.
fn small(digits: &str) -> u8 {
    digits.parse::<u8>().unwrap_or(0)
}

/// The words of qualifiers that words spell.
fn words_of(alloc: Global, words: &str) -> Result<QualWords, NoMemory> {
    let mut all = QualWords::new(alloc);
    for text in words.split_whitespace() {
        let (word, rest) = halves(text, ':');
        let (lattice, element) = halves(rest, ':');
        let lattice = LatticeNo::new(small(lattice));
        all.push(word.as_bytes(), lattice, Elem::new(small(element)))?;
    }
    Ok(all)
}

/// What the words of qualifiers mean.
pub(crate) fn words_text(alloc: Global, words: &str, questions: &str) -> Result<String, NoMemory> {
    let all = words_of(alloc, words)?;
    let mut out = String::new(alloc);
    for word in questions.split_whitespace() {
        match all.find(word.as_bytes()) {
            Some((lattice, element)) => {
                let text = format!(in alloc; "{}:{}", lattice.number(), element.number())?;
                put(&mut out, text.as_str())?;
            }
            None => put(&mut out, "none")?,
        }
    }
    Ok(out)
}
