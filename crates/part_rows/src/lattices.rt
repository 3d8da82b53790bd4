//! Lattices by their entries and order lines, and questions about them.
//!
//! A word `low<high` is an order line, and any other the name of an entry, which is one on references where it begins with a
//! capital. Elements are numbers in the order of the entries. Questions are `size`, `bottom`, `leq:a:b`, `join:a:b`,
//! `meet:a:b`, `all:n` for the join of a set whose bits are those of the number, `name:a` and `entry:a`; of a collection
//! `count`, `find:name`, and `word:name` of its words for the lexer.

use crate::words::{Word, halves, put, put_number, put_whether, word_of};
use lattice_core::{Deref, Entry, Lattice, LatticeFault, Lattices, Level, Name, Pair, Sign};
use qual_base::{Elem, ElemSet, LatticeNo, NoMemory};
use std::alloc::{AllocError, Global};

fn name(alloc: Global, text: &str) -> Result<Name, AllocError> {
    Ok(Name::new(text.as_bytes().to_vec(alloc)?))
}

/// The entries of words; a name that begins with a capital is one on references.
fn entries(alloc: Global, words: &str) -> Result<Vec<Entry>, AllocError> {
    let mut all = Vec::new(alloc);
    for text in words.split_whitespace() {
        if text.split_once('<').is_some() {
            continue;
        }
        let level = match text.as_bytes() {
            [b'A'..=b'Z', ..] => Level::Ref,
            _ => Level::Value,
        };
        all.push(Entry {
            name: name(alloc, text)?,
            level,
            sign: Sign::Eq,
            write: false,
            deref: Deref::No,
        })?;
    }
    Ok(all)
}

/// The order lines of words.
fn pairs(alloc: Global, words: &str) -> Result<Vec<Pair>, AllocError> {
    let mut all = Vec::new(alloc);
    for line in words.split_whitespace() {
        if let Some((low, high)) = line.split_once('<') {
            all.push(Pair {
                low: name(alloc, low)?,
                high: name(alloc, high)?,
            })?;
        }
    }
    Ok(all)
}

/// The lattice of some words, or why they make none.
fn build(alloc: Global, words: &str) -> Result<Lattice, LatticeFault> {
    let all = entries(alloc, words)?;
    if all.is_empty() {
        return Err(LatticeFault::TooMany);
    }
    Lattice::build(alloc, all, pairs(alloc, words)?.as_slice())
}

/// Adds a name to an answer.
fn put_name(out: &mut String, name: &[u8]) -> Result<(), NoMemory> {
    match str::from_utf8(name) {
        Ok(text) => put(out, text),
        Err(_) => put(out, "?"),
    }
}

/// A fault with its names.
fn put_fault(out: &mut String, fault: &LatticeFault) -> Result<(), NoMemory> {
    match fault {
        LatticeFault::TooMany => put(out, "too many"),
        LatticeFault::Repeated(a) => {
            put(out, "repeated")?;
            put_name(out, a.bytes())
        }
        LatticeFault::UnknownName(a) => {
            put(out, "unknown")?;
            put_name(out, a.bytes())
        }
        LatticeFault::LevelMix(a, b) => {
            put(out, "mixed")?;
            put_name(out, a.bytes())?;
            put_name(out, b.bytes())
        }
        LatticeFault::Cycle(a, b) => {
            put(out, "cycle")?;
            put_name(out, a.bytes())?;
            put_name(out, b.bytes())
        }
        LatticeFault::NotALattice(a, b) => {
            put(out, "no lattice")?;
            put_name(out, a.bytes())?;
            put_name(out, b.bytes())
        }
        LatticeFault::NoMemory => Err(NoMemory),
    }
}

/// Adds an element by its number.
fn put_element(alloc: Global, out: &mut String, element: Elem) -> Result<(), NoMemory> {
    put(out, format!(in alloc; "{}", element.number())?.as_str())
}

/// A number that an element may have.
fn small(number: u32) -> u8 {
    u8::try_from(number).unwrap_or(255)
}

/// Adds the answer to a question about two elements.
fn put_pair(
    alloc: Global,
    out: &mut String,
    lattice: &Lattice,
    question: &Word,
) -> Result<(), NoMemory> {
    let a = small(question.first);
    let b = small(question.second);
    if a >= lattice.size() || b >= lattice.size() {
        return put(out, "?");
    }
    let (a, b) = (Elem::new(a), Elem::new(b));
    match question.name {
        b"leq" => put_whether(out, lattice.leq(a, b)),
        b"join" => put_element(alloc, out, lattice.join(a, b)),
        b"meet" => put_element(alloc, out, lattice.meet(a, b)),
        _ => put(out, "?"),
    }
}

/// Adds the answer to a question for a name.
fn put_name_of(out: &mut String, lattice: &Lattice, question: &Word) -> Result<(), NoMemory> {
    let a = small(question.first);
    if a >= lattice.size() {
        return put(out, "?");
    }
    match question.name {
        b"name" => put_name(out, lattice.name_of(Elem::new(a))),
        _ => put_name(out, lattice.entry(Elem::new(a)).name.bytes()),
    }
}

/// Adds the answer to a question about a lattice.
fn put_answer(
    alloc: Global,
    out: &mut String,
    lattice: &Lattice,
    question: &Word,
) -> Result<(), NoMemory> {
    match question.name {
        b"size" => put_number(alloc, out, u32::from(lattice.size())),
        b"bottom" => put_element(alloc, out, lattice.bottom()),
        b"all" => {
            let set = ElemSet::new(u64::from(question.first));
            put_element(alloc, out, lattice.join_of(set))
        }
        b"name" | b"entry" => put_name_of(out, lattice, question),
        _ => put_pair(alloc, out, lattice, question),
    }
}

/// Adds the answers to questions about a lattice; that it is one where there are none.
fn put_answers(
    alloc: Global,
    out: &mut String,
    lattice: &Lattice,
    questions: &str,
) -> Result<(), NoMemory> {
    if questions.is_empty() {
        return put(out, "a lattice");
    }
    for question in questions.split_whitespace() {
        put_answer(alloc, out, lattice, &word_of(question))?;
    }
    Ok(())
}

/// The answers to questions about a lattice, or why there is none.
pub(crate) fn lattice_text(
    alloc: Global,
    words: &str,
    questions: &str,
) -> Result<String, NoMemory> {
    let mut out = String::new(alloc);
    match build(alloc, words) {
        Ok(lattice) => put_answers(alloc, &mut out, &lattice, questions)?,
        Err(fault) => put_fault(&mut out, &fault)?,
    }
    Ok(out)
}

/// Adds the lattice and the element that a name stands for.
fn put_found(
    alloc: Global,
    out: &mut String,
    found: Option<(LatticeNo, Elem)>,
) -> Result<(), NoMemory> {
    match found {
        Some((lattice, element)) => {
            let text = format!(in alloc; "{}:{}", lattice.number(), element.number())?;
            put(out, text.as_str())
        }
        None => put(out, "none"),
    }
}

/// Adds what the words of lattices say of a name.
fn put_word(alloc: Global, out: &mut String, all: &Lattices, name: &[u8]) -> Result<(), NoMemory> {
    let words = all.words(alloc)?;
    put_found(alloc, out, words.find(name))
}

/// Adds the answer to a question about lattices.
fn put_collected(
    alloc: Global,
    out: &mut String,
    all: &Lattices,
    question: &str,
) -> Result<(), NoMemory> {
    let (what, name) = halves(question, ':');
    match what.as_bytes() {
        b"count" => put_number(alloc, out, u32::from(all.len())),
        b"find" => put_found(alloc, out, all.find(name.as_bytes())),
        b"word" => put_word(alloc, out, all, name.as_bytes()),
        _ => put(out, "?"),
    }
}

/// Adds a lattice to others, if there are fewer than 16 and it is one.
fn collect(all: &mut Lattices, made: Result<Lattice, LatticeFault>) -> Result<(), NoMemory> {
    match made {
        Ok(lattice) => {
            if all.len() < 16 {
                all.push(lattice)
            } else {
                Ok(())
            }
        }
        Err(_) => Ok(()),
    }
}

/// The answers to questions about lattices.
pub(crate) fn collection_text(
    alloc: Global,
    words: &str,
    questions: &str,
) -> Result<String, NoMemory> {
    let mut all = Lattices::new(alloc);
    for lattice in words.split('/') {
        collect(&mut all, build(alloc, lattice))?;
    }
    let mut out = String::new(alloc);
    for question in questions.split_whitespace() {
        put_collected(alloc, &mut out, &all, question)?;
    }
    Ok(out)
}
