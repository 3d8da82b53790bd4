//! Taking a whole file within a limit.

ghost use Rattle.std.specs.Prelude.{◌≡◌, ◌<◌, [], ◌∷◌, IfOk, vec_len};
ghost use Rattle.outside.specs.Readings.{Reading, ReadOn, stands};
ghost use Rattle.outside.specs.Taking.{Takes};

use crate::traits::Files;
use std::alloc::{AllocError, Global};
use thiserror::Error;

/// Why a file was not taken.
#[derive(Clone, Copy, PartialEq, Eq, Debug, Error)]
pub enum TakeFault {
    /// A read failed.
    #[error("a read failed")]
    ReadFault,
    /// The file is longer than the limit.
    #[error("the file is longer than its limit")]
    TooLarge,
    /// There was not enough memory.
    #[error("out of memory")]
    NoMemory,
}

/// How many bytes are asked for at once.
const PIECE: usize = 65_536;

/// Bytes to lend to a read.
fn zeros(alloc: Global, count: usize) -> Result<Vec<u8>, AllocError>
    ensures { IfOk result (λ v. vec_len v ≡ count) }
{
    vec![in alloc; 0u8; count]
}

/// All bytes of a file of at most `limit` bytes.
///
/// It takes time and memory linear in the bytes taken, of which there are at most `limit + 1`, beside 65,536 bytes to
/// read into.
///
/// TooLarge comes once `limit + 1` bytes were taken, ReadFault at the first read that failed, and either or want of
/// memory ends it at once.
pub fn take_all<F: Files>(
    alloc: Global,
    files: &mut F,
    name: &str,
    limit: usize,
) -> Result<Vec<u8>, TakeFault>
    requires { limit < usize.MAX }
    // It reads that file once, and nothing else.
    ensures read { (reading : Reading)
        × ReadOn (stands (F.log files.old) (F.failed files.old) (F.contents files.old))
        (stands (F.log files.new) (F.failed files.new) (F.contents files.new)) (reading ∷ [])
        × (reading.name ≡ name.now) × Takes limit reading result }
{
    if files.start(name).is_err() {
        return Err(TakeFault::ReadFault);
    }
    let Ok(mut buffer) = zeros(alloc, PIECE) else {
        return Err(TakeFault::NoMemory);
    };
    let mut taken = Vec::new(alloc);
    while taken.len() <= limit {
        let lent = buffer.len().min(limit + 1 - taken.len());
        let piece = &mut buffer[..lent];
        match files.next(piece) {
            Ok(count) => {
                if count == 0 {
                    return Ok(taken);
                }
                if taken.extend_from_slice(&piece[..count]).is_err() {
                    return Err(TakeFault::NoMemory);
                }
            }
            Err(_) => return Err(TakeFault::ReadFault),
        }
    }
    Err(TakeFault::TooLarge)
}
