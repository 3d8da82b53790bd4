//! Gaps, words and colour texts in the bytes of a lattice file.

ghost use Rattle.std.specs.Prelude.{◌≡◌, ◌≤◌, ◌<◌, ◌+◌, true, false, length, drop, IfOk, IfErr};
ghost use Rattle.std.specs.Prelude.{slice_index, ◌⊎◌};
ghost use Rattle.std.specs.List.{list_all, slice_range};
ghost use Rattle.std.specs.Str.{bytes_eq};
ghost use Rattle.lattice_file.specs.Text.{StaysOpen, is_blank, lengthens, stands_in_words};
ghost use Rattle.lattice_file.specs.Text.{stands_in_text};
ghost use Rattle.lattice_file.specs.Extents.{CommentEnds, LineEnds, GapGoes, CommentFails};
ghost use Rattle.lattice_file.specs.Extents.{GapFails, begins_lexeme, IsFront};

/// Whether a byte stands in words.
pub fn is_word_byte(byte: u8) -> bool
    ensures { result ≡ stands_in_words byte }
{
    matches!(byte, b'a'..=b'z' | b'A'..=b'Z' | b'0'..=b'9' | b'_' | b'$')
}

/// The place behind a comment's `*/`, or the end of the bytes where none comes.
fn block_comment_end(bytes: &[u8], from: usize) -> Result<usize, usize>
    requires { from ≤ length bytes.now }
    ensures later { IfOk result (λ end. from < end) }
    ensures within { IfOk result (λ end. end ≤ length bytes.now) }
    ensures comment { IfOk result (CommentEnds bytes.now from) }
    ensures over { IfErr result (λ place. place ≡ length bytes.now) }
    ensures open_to_the_end { IfErr result (λ place. StaysOpen (slice_range bytes.now from place)) }
{
    let mut at = from;
    while at + 1 < bytes.len() {
        if bytes[at] == b'*' && bytes[at + 1] == b'/' {
            return Ok(at + 2);
        }
        at += 1;
    }
    Err(bytes.len())
}

/// The place of the first line feed, or the end of the bytes.
fn line_end(bytes: &[u8], from: usize) -> usize
    requires { from ≤ length bytes.now }
    ensures later { from ≤ result }
    ensures within { result ≤ length bytes.now }
    ensures line { LineEnds bytes.now from result }
{
    let mut at = from;
    while at < bytes.len() && bytes[at] != b'\n' {
        at += 1;
    }
    at
}

/// The place behind a comment that begins with the `/` at `at`, or the place of the byte that makes it none.
fn comment_end(bytes: &[u8], at: usize) -> Result<usize, usize>
    requires within { at < length bytes.now }
    requires slash { slice_index bytes.now at ≡ 47 }
    ensures gap { IfOk result (GapGoes bytes.now at) }
    ensures later { IfOk result (λ end. at < end) }
    ensures within { IfOk result (λ end. end ≤ length bytes.now) }
    ensures fails { IfErr result (CommentFails bytes.now at) }
{
    if at + 1 == bytes.len() {
        return Err(at + 1);
    }
    match bytes[at + 1] {
        b'*' => block_comment_end(bytes, at + 2),
        b'/' => Ok(line_end(bytes, at + 2)),
        _ => Err(at + 1),
    }
}

/// Whether a byte is a blank.
fn is_blank_byte(byte: u8) -> bool
    ensures { result ≡ is_blank byte }
{
    matches!(byte, b' ' | b'\t' | b'\r' | b'\n')
}

/// The place behind the blank or the comment at a place, or that place where neither stands there.
fn gap_piece_end(bytes: &[u8], at: usize) -> Result<usize, usize>
    requires { at < length bytes.now }
    ensures gap { IfOk result (GapGoes bytes.now at) }
    ensures later { IfOk result (λ end. at ≤ end) }
    ensures within { IfOk result (λ end. end ≤ length bytes.now) }
    ensures stops { IfOk result (λ end. end ≡ at → begins_lexeme (drop at bytes.now) ≡ true) }
    ensures fails { IfErr result (CommentFails bytes.now at) }
{
    if is_blank_byte(bytes[at]) {
        return Ok(at + 1);
    }
    if bytes[at] == b'/' {
        comment_end(bytes, at)
    } else {
        Ok(at)
    }
}

/// The first place from one on at which no gap goes on, or the place at which a comment fails.
pub fn skip_gap(bytes: &[u8], from: usize) -> Result<usize, usize>
    requires { from ≤ length bytes.now }
    ensures gap { IfOk result (GapGoes bytes.now from) }
    ensures later { IfOk result (λ end. from ≤ end) }
    ensures within { IfOk result (λ end. end ≤ length bytes.now) }
    ensures stops { IfOk result (λ end. begins_lexeme (drop end bytes.now) ≡ true) }
    ensures fails { IfErr result (GapFails bytes.now from) }
{
    let mut at = from;
    while at < bytes.len() {
        let end = gap_piece_end(bytes, at)?;
        if end == at {
            return Ok(at);
        }
        at = end;
    }
    Ok(at)
}

/// The end of the row of letters, digits, `_` and `$` that begins at `from`.
pub fn word_end(bytes: &[u8], from: usize) -> usize
    requires { from ≤ length bytes.now }
    ensures ends { lengthens (drop result bytes.now) ≡ false }
    ensures word { list_all stands_in_words (slice_range bytes.now from result) ≡ true }
    ensures later { from ≤ result }
    ensures within { result ≤ length bytes.now }
{
    let mut at = from;
    while at < bytes.len() && is_word_byte(bytes[at]) {
        at += 1;
    }
    at
}

/// The place of the first quote or line feed, or the end of the bytes.
pub fn text_end(bytes: &[u8], from: usize) -> usize
    requires { from ≤ length bytes.now }
    ensures text { list_all stands_in_text (slice_range bytes.now from result) ≡ true }
    ensures later { from ≤ result }
    ensures within { result ≤ length bytes.now }
    ensures ends { (result ≡ length bytes.now)
        ⊎ (stands_in_text (slice_index bytes.now result) ≡ false) }
{
    let mut at = from;
    while at < bytes.len() && bytes[at] != b'"' && bytes[at] != b'\n' {
        at += 1;
    }
    at
}

/// The length of the front that two texts share, in at most as many steps.
pub fn shared_front(word: &[u8], other: &[u8]) -> usize
    ensures { IsFront (λ w. bytes_eq w other.now) word.now result }
{
    let mut at = 0;
    while at < word.len() && at < other.len() && word[at] == other[at] {
        at += 1;
    }
    at
}
