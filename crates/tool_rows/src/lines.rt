//! Lines, words and numbers.

ghost use Rattle.std.specs.Prelude.{◌≤◌, ◌-◌, length};

/// A line without its line feed, and what stands behind it.
#[derive(Clone, Copy)]
pub struct Line<'a> {
    pub line: &'a [u8],
    pub rest: &'a [u8],
}

/// Where a byte stands first; the length where it does not.
fn position(bytes: &[u8], byte: u8) -> usize {
    for at in 0..bytes.len() {
        if bytes[at] == byte {
            return at;
        }
    }
    bytes.len()
}

/// The front of some bytes before a byte, and what stands behind that.
pub fn split(bytes: &[u8], byte: u8) -> Line<'_>
    ensures { length result.rest.now ≤ length bytes.now - 1 }
{
    let at = position(bytes, byte);
    let line = bytes.get(..at).unwrap_or(bytes);
    let rest = bytes.get(at.saturating_add(1)..).unwrap_or(b"");
    Line { line, rest }
}

/// The number that digits say, and 0 for anything else.
pub fn number(bytes: &[u8]) -> u64 {
    let mut number = 0_u64;
    for byte in bytes {
        if !byte.is_ascii_digit() {
            return 0;
        }
        number = number
            .saturating_mul(10)
            .saturating_add(u64::from(byte.saturating_sub(b'0')));
    }
    number
}
