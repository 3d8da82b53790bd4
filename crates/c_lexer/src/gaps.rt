//! Space, comments and skipped lines.

ghost use Rattle.std.specs.Prelude.{ℕ, ◌≡◌, ◌≤◌, ◌==◌, ◌||◌, true, nat_eq, codes, length};
ghost use Rattle.std.specs.Prelude.{MatchOption};
ghost use Rattle.std.specs.List.{starts_with};
ghost use Rattle.c_lexer.specs.Gaps.{is_blank, is_other_space, line_len, IsBlockComment, IsGap};
ghost use Rattle.c_lexer.specs.Gaps.{HasNoGap, fresh_behind};
ghost use Rattle.c_lexer.specs.Spelling.{begins_with, begins_comment};

use memchr::{memchr, memmem};

/// What stands between two tokens.
#[derive(Clone, Copy)]
pub(crate) enum Gap {
    /// A space or a tab.
    Blank,
    LineFeed,
    /// A vertical tab, a form feed or a carriage return.
    OtherSpace,
    BlockComment,
    /// From `//` to before the end of the line.
    LineComment,
    /// A line whose first byte that is no blank is `#`, from there to before its end.
    SkippedLine,
}

/// Whether only blanks stand on the line behind the gap.
pub(crate) fn is_fresh_behind(gap: Gap, fresh: bool) -> bool
    ensures { result ≡ fresh_behind gap fresh }
{
    match gap {
        Gap::Blank => fresh,
        Gap::LineFeed => true,
        Gap::OtherSpace | Gap::BlockComment | Gap::LineComment | Gap::SkippedLine => false,
    }
}

fn rest_of_line(bytes: &[u8]) -> usize
    ensures { result ≡ line_len bytes.now }
{
    memchr(b'\n', bytes).unwrap_or(bytes.len())
}

/// The length of the comment in front, where it ends.
fn block_comment_len(bytes: &[u8]) -> Option<usize>
    requires { starts_with nat_eq bytes.now (codes "/*") ≡ true }
    ensures { MatchOption result
        ((n : ℕ) → ¬ IsBlockComment bytes.now n) (λ n. IsBlockComment bytes.now n) }
{
    match memmem::find(&bytes[2..], b"*/") {
        Some(n) => Some(n + 4),
        None => None,
    }
}

fn begins_with_blank(bytes: &[u8]) -> bool
    ensures { result ≡ begins_with is_blank bytes.now }
{
    match bytes {
        [first, ..] => matches!(*first, b' ' | b'\t'),
        [] => false,
    }
}

fn begins_with_line_feed(bytes: &[u8]) -> bool
    ensures { result ≡ begins_with (λ c. c == 10) bytes.now }
{
    match bytes {
        [first, ..] => *first == b'\n',
        [] => false,
    }
}

fn begins_with_other_space(bytes: &[u8]) -> bool
    ensures { result ≡ begins_with is_other_space bytes.now }
{
    match bytes {
        [first, ..] => matches!(*first, 0x0b | 0x0c | b'\r'),
        [] => false,
    }
}

fn begins_with_hash(bytes: &[u8]) -> bool
    ensures { result ≡ begins_with (λ c. c == 35) bytes.now }
{
    match bytes {
        [first, ..] => *first == b'#',
        [] => false,
    }
}

/// The gap in front with its length; `fresh` says that only blanks stand before it on its line.
///
/// A block comment that does not end is no gap.
pub(crate) fn gap_in_front(fresh: bool, bytes: &[u8]) -> Option<(Gap, usize)>
    ensures { MatchOption result
        (HasNoGap fresh bytes.now) (λ found. IsGap found.0 fresh bytes.now found.1) }
{
    if begins_with_blank(bytes) {
        return Some((Gap::Blank, 1));
    }
    if begins_with_line_feed(bytes) {
        return Some((Gap::LineFeed, 1));
    }
    if begins_with_other_space(bytes) {
        return Some((Gap::OtherSpace, 1));
    }
    if bytes.starts_with(b"//") {
        return Some((Gap::LineComment, rest_of_line(bytes)));
    }
    if fresh && begins_with_hash(bytes) {
        return Some((Gap::SkippedLine, rest_of_line(bytes)));
    }
    if !bytes.starts_with(b"/*") {
        return None;
    }
    match block_comment_len(bytes) {
        Some(n) => Some((Gap::BlockComment, n)),
        None => None,
    }
}
