//! A status with the whole text that is to be written.

ghost use Rattle.std.specs.Prelude.{◌≡◌, ℕ, ◌++◌, [], ◌∷◌, IfOk, codes};
ghost use Rattle.cqual_tool.specs.Texts.{malformed_line, no_name_line};
ghost use Rattle.cqual_tool.specs.Texts.{no_signature_at, no_signature_line};
ghost use Rattle.cqual_tool.specs.Faults.{placed_line};
ghost use Rattle.cqual_tool.specs.Statuses.{Says};

use crate::status::Status;
use annotate::put;
use std::alloc::{AllocError, Global};

/// A status and its text.
#[derive(Drop)]
pub struct Answer {
    pub status: Status,
    pub text: Vec<u8>,
}

/// The line of a fault, by where it is: a file, or a place in one.
fn fault_line(alloc: Global, place: &[u8], code: &[u8]) -> Result<Answer, AllocError>
    ensures { IfOk result (Says Status.Malformed (malformed_line place.now code.now)) }
{
    let mut text = Vec::new(alloc);
    put(&mut text, b"malformed ")?;
    put(&mut text, place)?;
    put(&mut text, b": ")?;
    put(&mut text, code)?;
    put(&mut text, b"\n")?;
    Ok(Answer {
        status: Status::Malformed,
        text,
    })
}

/// The line of a name that no declared name of the sources has.
pub fn no_name(alloc: Global, name: &[u8]) -> Result<Answer, AllocError>
    ensures { IfOk result (Says Status.NoName (no_name_line name.now)) }
{
    let mut text = Vec::new(alloc);
    put(&mut text, b"no name ")?;
    put(&mut text, name)?;
    put(&mut text, b"\n")?;
    Ok(Answer {
        status: Status::NoName,
        text,
    })
}

/// The line of a library that has no signatures.
pub fn no_signature(alloc: Global, code: &[u8]) -> Result<Answer, AllocError>
    ensures { IfOk result (Says Status.NoSignature (no_signature_line code.now)) }
{
    let mut text = Vec::new(alloc);
    put(&mut text, b"no signature: ")?;
    put(&mut text, code)?;
    put(&mut text, b"\n")?;
    Ok(Answer {
        status: Status::NoSignature,
        text,
    })
}

/// The line of a library that has no signatures for what is at a place.
pub fn no_signature_at(alloc: Global, place: &[u8], code: &[u8]) -> Result<Answer, AllocError>
    ensures { IfOk result (Says Status.NoSignature (no_signature_at place.now code.now)) }
{
    let mut text = Vec::new(alloc);
    put(&mut text, b"no signature at ")?;
    put(&mut text, place)?;
    put(&mut text, b": ")?;
    put(&mut text, code)?;
    put(&mut text, b"\n")?;
    Ok(Answer {
        status: Status::NoSignature,
        text,
    })
}

/// The line of a fault of a whole file.
pub fn malformed(alloc: Global, file: &str, code: &[u8]) -> Result<Answer, AllocError>
    ensures { IfOk result (Says Status.Malformed (malformed_line file.now code.now)) }
{
    fault_line(alloc, file.as_bytes(), code)
}

/// The line of a fault at a place that is written already.
pub fn placed(alloc: Global, place: &[u8], code: &[u8]) -> Result<Answer, AllocError>
    ensures { IfOk result (Says Status.Malformed (placed_line place.now code.now)) }
{
    fault_line(alloc, place, code)
}
