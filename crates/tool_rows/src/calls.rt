//! The calls of a file, one after another.

ghost use Rattle.std.specs.Prelude.{◌≤◌, IfOk, length};

use crate::call::{Call, File, put_answer};
use crate::lines::{number, split};
use std::alloc::{AllocError, Global};

/// What a line with `@` says.
enum Said {
    Call,
    Word,
    None,
    File,
    Fill,
    Cut,
    Fail,
    Put,
    Most,
}

/// What a line says by its first word; nothing where it is a line of a file.
fn word_says(word: &[u8]) -> Option<Said> {
    match word {
        b"@call" => Some(Said::Call),
        b"@word" => Some(Said::Word),
        b"@none" => Some(Said::None),
        b"@file" => Some(Said::File),
        b"@fill" => Some(Said::Fill),
        b"@cut" => Some(Said::Cut),
        b"@fail" => Some(Said::Fail),
        b"@put" => Some(Said::Put),
        b"@most" => Some(Said::Most),
        _ => None,
    }
}

/// Adds a text for a number: `%k` is the number, `%j` the one below it, `%l` a line feed.
fn put_filled(
    alloc: Global,
    out: &mut Vec<u8>,
    text: &[u8],
    number: u64,
) -> Result<(), AllocError> {
    let mut is_marked = false;
    for byte in text {
        if is_marked {
            is_marked = false;
            match *byte {
                b'k' => {
                    let digits = format!(in alloc; "{number}")?;
                    out.extend_from_slice(digits.as_bytes())?;
                }
                b'j' => {
                    let below = number.saturating_sub(1);
                    let digits = format!(in alloc; "{below}")?;
                    out.extend_from_slice(digits.as_bytes())?;
                }
                b'l' => out.push(b'\n')?,
                other => out.push(other)?,
            }
        } else if *byte == b'%' {
            is_marked = true;
        } else {
            out.push(*byte)?;
        }
    }
    Ok(())
}

/// Adds a text for each number from one to another.
fn fill(alloc: Global, out: &mut Vec<u8>, rest: &[u8]) -> Result<(), AllocError> {
    let first = split(rest, b' ');
    let second = split(first.rest, b' ');
    let from = number(first.line);
    let to = number(second.line).min(100_000_000);
    for k in from..to.saturating_add(1) {
        put_filled(alloc, out, second.rest, k)?;
    }
    Ok(())
}

/// A line of a file: behind the first line with a line feed before it.
fn put_line(call: &mut Call, line: &[u8], is_first: bool) -> Result<(), AllocError> {
    let Some(file) = call.files.last_mut() else {
        return Ok(());
    };
    if !is_first {
        file.bytes.push(b'\n')?;
    }
    file.bytes.extend_from_slice(line)
}

/// What a line with `@` does to a call, other than beginning one.
fn take(alloc: Global, call: &mut Call, what: Said, rest: &[u8]) -> Result<(), AllocError> {
    match what {
        Said::Call => Ok(()),
        Said::Word => {
            call.words.push(rest.to_vec(alloc)?)?;
            Ok(())
        }
        Said::None => {
            call.is_wordless = true;
            Ok(())
        }
        Said::File => {
            call.files.push(File {
                name: rest.to_vec(alloc)?,
                bytes: Vec::new(alloc),
            })?;
            Ok(())
        }
        Said::Fill => match call.files.last_mut() {
            Some(file) => fill(alloc, &mut file.bytes, rest),
            None => Ok(()),
        },
        Said::Cut => {
            if let Some(file) = call.files.last_mut() {
                file.bytes
                    .truncate(usize::try_from(number(rest)).unwrap_or(0));
            }
            Ok(())
        }
        Said::Fail => {
            call.read = number(rest);
            Ok(())
        }
        Said::Put => {
            call.write = number(rest);
            Ok(())
        }
        Said::Most => {
            call.most = number(rest);
            Ok(())
        }
    }
}

/// The lines of one call or of what is common, and what is left behind them.
fn read<'a>(alloc: Global, call: &mut Call, text: &'a [u8]) -> Result<&'a [u8], AllocError>
    ensures { IfOk result (λ rest. length rest.now ≤ length text.now) }
{
    let mut rest = text;
    let mut is_first = true;
    while !rest.is_empty() {
        let line = split(rest, b'\n');
        let word = split(line.line, b' ');
        match word_says(word.line) {
            Some(Said::Call) => return Ok(rest),
            Some(what) => {
                is_first = true;
                take(alloc, call, what, word.rest)?;
            }
            None => {
                put_line(call, line.line, is_first)?;
                is_first = false;
            }
        }
        rest = line.rest;
    }
    Ok(rest)
}

/// What the calls of a text answer, each behind its title.
pub fn answers(alloc: Global, text: &[u8]) -> Result<Vec<u8>, AllocError> {
    let mut common = Call::new(alloc);
    let mut out = Vec::new(alloc);
    let mut rest = read(alloc, &mut common, text)?;
    while !rest.is_empty() {
        let line = split(rest, b'\n');
        out.extend_from_slice(line.line)?;
        out.push(b'\n')?;
        let mut call = Call::new(alloc);
        rest = read(alloc, &mut call, line.rest)?;
        put_answer(alloc, &mut out, &common, &call)?;
    }
    Ok(out)
}
