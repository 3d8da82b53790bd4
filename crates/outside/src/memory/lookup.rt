//! Finding files by name, and what is left of one.

ghost use Rattle.std.specs.Prelude.{◌≡◌, ◌+◌, ◌^◌, ◌<◌, ◌≤◌, Some, [], length, drop, MatchOption, is_some};
ghost use Rattle.outside.specs.Memory.{files_of, rest_at, has_file};
ghost use Rattle.outside.specs.Readings.{content_of};

/// The number of the first file of that name.
fn find(files: &[(String, Vec<u8>)], name: &str) -> Option<usize>
    ensures has { is_some result ≡ has_file (files_of files.now) name.now }
    ensures content { MatchOption result (content_of (files_of files.now) name.now ≡ [])
        (λ n. rest_at files.now (Some (n, 0)) ≡ content_of (files_of files.now) name.now) }
{
    for (i, file) in files.iter().enumerate() {
        if file.0.as_str() == name {
            return Some(i);
        }
    }
    None
}

/// The start of the first file of that name.
pub fn start_of(files: &[(String, Vec<u8>)], name: &str) -> Option<(usize, usize)>
    ensures has { is_some result ≡ has_file (files_of files.now) name.now }
    ensures content { rest_at files.now result ≡ content_of (files_of files.now) name.now }
{
    find(files, name).map(|file| (file, 0))
}

/// What is left of a file from a place on.
pub fn rest_of(files: &[(String, Vec<u8>)], at: Option<(usize, usize)>) -> &[u8]
    ensures rest { result.now ≡ rest_at files.now at }
{
    let Some((file, from)) = at else {
        return &[];
    };
    match files.get(file) {
        Some(found) if from <= found.1.len() => &found.1[from..],
        _ => &[],
    }
}

/// The place after some bytes more.
pub fn moved_on(
    files: &[(String, Vec<u8>)],
    at: Option<(usize, usize)>,
    count: usize,
) -> Option<(usize, usize)>
    requires { count ≤ length (rest_at files.now at) }
    ensures { rest_at files.now result ≡ drop count (rest_at files.now at) }
{
    let (file, from) = at?;
    match files.get(file) {
        Some(found) if from <= found.1.len() => Some((file, from + count)),
        _ => at,
    }
}
