//! Lines and columns of a file.

ghost use Rattle.std.specs.Prelude.{◌≡◌, ◌≤◌, ◌<◌, ◌^◌, ◌-◌, ◌+◌, ◌==◌, if◌then◌else◌, length};
ghost use Rattle.lattice_file.specs.Places.{line_of, column_of};

/// The line and the column behind a byte.
fn behind(line: u64, column: u64, byte: u8) -> (u64, u64)
    requires line { line < 2 ^ 63 }
    requires column { column < 2 ^ 63 }
    ensures line { result.0 ≡ (if byte == 10 then line + 1 else line) }
    ensures column { result.1 ≡ (if byte == 10 then 1 else column + 1) }
{
    if byte == b'\n' {
        (line + 1, 1)
    } else {
        (line, column + 1)
    }
}

/// The line and the column of a place, in one pass over what stands before it.
pub fn line_and_column(bytes: &[u8], place: usize) -> (u64, u64)
    requires within { place ≤ length bytes.now }
    requires small { length bytes.now < 2 ^ 32 - 1 }
    ensures line { result.0 ≡ line_of bytes.now place }
    ensures column { result.1 ≡ column_of bytes.now place }
{
    let mut line: u64 = 1;
    let mut column: u64 = 1;
    for byte in &bytes[..place] {
        (line, column) = behind(line, column, *byte);
    }
    (line, column)
}
