//! One call of the tool.

use cqual_tool::run_in_memory;
use outside::{MemFiles, MemSink};
use std::alloc::{AllocError, Global};

/// The bytes that a sink has room for.
const ROOM: usize = 1_048_576;

/// A file by its name and its bytes.
#[derive(Drop)]
pub struct File {
    pub name: Vec<u8>,
    pub bytes: Vec<u8>,
}

/// The words and the files of a call, the numbers of the read and the write that fail (0: none), and how many bytes a write takes.
#[derive(Drop)]
pub struct Call {
    pub words: Vec<Vec<u8>>,
    pub is_wordless: bool,
    pub files: Vec<File>,
    pub read: u64,
    pub write: u64,
    pub most: u64,
}

impl Call {
    /// No words and no files.
    pub fn new(alloc: Global) -> Self {
        Call {
            words: Vec::new(alloc),
            is_wordless: false,
            files: Vec::new(alloc),
            read: 0,
            write: 0,
            most: 1000,
        }
    }
}

/// A text of bytes; an empty one where they are no text.
fn text(alloc: Global, bytes: &[u8]) -> Result<String, AllocError> {
    match str::from_utf8(bytes) {
        Ok(text) => String::from_str(alloc, text),
        Err(_) => String::from_str(alloc, ""),
    }
}

/// Adds files to those of a call.
fn put_files(
    alloc: Global,
    all: &mut Vec<(String, Vec<u8>)>,
    files: &[File],
) -> Result<(), AllocError> {
    for file in files {
        let name = text(alloc, &file.name)?;
        let bytes = file.bytes.to_vec(alloc)?;
        all.push((name, bytes))?;
    }
    Ok(())
}

/// The words of a call.
fn words_of(alloc: Global, call: &Call) -> Result<Vec<String>, AllocError> {
    let mut words = Vec::new(alloc);
    if call.words.is_empty() && !call.is_wordless {
        words.push(String::from_str(alloc, "--lattice")?)?;
        words.push(String::from_str(alloc, "l.q")?)?;
        words.push(String::from_str(alloc, "s.c")?)?;
    }
    for word in &call.words {
        words.push(text(alloc, word)?)?;
    }
    Ok(words)
}

/// Adds what a call answers, over its own files and then the common ones: its status, and the bytes that were written.
pub fn put_answer(
    alloc: Global,
    out: &mut Vec<u8>,
    common: &Call,
    call: &Call,
) -> Result<(), AllocError> {
    let words = words_of(alloc, call)?;
    let mut all = Vec::new(alloc);
    put_files(alloc, &mut all, &call.files)?;
    put_files(alloc, &mut all, &common.files)?;
    let mut files = MemFiles::new(all, vec![in alloc; call.read]?);
    let most = usize::try_from(call.most).unwrap_or(1).max(1);
    let Ok(mut sink) = MemSink::new(alloc, ROOM, most, vec![in alloc; call.write]?) else {
        return Err(AllocError);
    };
    let status = run_in_memory(alloc, &words, &mut files, &mut sink);
    let line = format!(in alloc; "exit {}\n", status.exit())?;
    out.extend_from_slice(line.as_bytes())?;
    out.extend_from_slice(sink.bytes())?;
    if !sink.bytes().is_empty() && sink.bytes().last() != Some(&b'\n') {
        out.push(b'\n')?;
    }
    Ok(())
}
