//! What a text is as a prelude, in words.

use crate::answers::{MOST, dollar_words};
use cq_prelude::{PreludeFault, PreludeRead, read_prelude};
use qual_base::{NoMemory, Numbered, Spot, TokenId};
use std::alloc::Global;

/// Adds the numbers of an index word.
fn put_numbers(alloc: Global, text: &mut String, numbers: &[u16]) -> Result<(), NoMemory> {
    for number in numbers {
        text.push_str(format!(in alloc; " {number}")?.as_str())?;
    }
    Ok(())
}

/// The index words of a prelude, each by its token with its numbers.
fn marks_text(alloc: Global, read: &PreludeRead) -> Result<String, NoMemory> {
    let mut text = String::from_str(alloc, "a prelude")?;
    for at in 0..read.source.tokens.len() {
        if let Some(numbers) = read.prelude.set_at(TokenId::new(at)) {
            text.push_str(format!(in alloc; " {at}:")?.as_str())?;
            put_numbers(alloc, &mut text, numbers)?;
            text.push(';')?;
        }
    }
    Ok(text)
}

/// Why a text is no prelude, and where.
fn placed(alloc: Global, code: &str, spot: Spot) -> Result<String, NoMemory> {
    Ok(format!(in alloc; "{code} {}:{}", spot.line, spot.column)?)
}

fn fault_text(alloc: Global, fault: PreludeFault) -> Result<String, NoMemory> {
    match fault {
        PreludeFault::Lex(_) => Ok(String::from_str(alloc, "tokens")?),
        PreludeFault::Parse(_, spot) => placed(alloc, "syntax", spot),
        PreludeFault::HasBody(spot) => placed(alloc, "body", spot),
        PreludeFault::BadIndex(spot) => placed(alloc, "index", spot),
        PreludeFault::Shape(_, spot) => placed(alloc, "shape", spot),
        PreludeFault::NoMemory => Err(NoMemory),
    }
}

/// The index words of a prelude, or why a text is none and where.
pub(crate) fn prelude_text(
    alloc: Global,
    is_wide: bool,
    source: &[u8],
) -> Result<String, NoMemory> {
    if source.len() > MOST {
        return Ok(String::from_str(alloc, "too long")?);
    }
    let words = dollar_words(alloc)?;
    match read_prelude(alloc, is_wide, source, &words) {
        Ok(read) => marks_text(alloc, &read),
        Err(fault) => fault_text(alloc, fault),
    }
}
