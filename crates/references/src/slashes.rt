// The last `/` of a path, and the two pieces of the path that it ends.
ghost use Rattle.std.specs.Prelude.{◌≡◌, ◌≤◌, length, take};
ghost use Rattle.references.specs.Paths.{last_slash, directory, parent};
ghost use Rattle.references.specs.Views.{Inside};

// Where the last `/` stands, if there is one.
fn last_slash(path: &[u8]) -> Option<usize>
    ensures value { result ≡ last_slash path.now }
    ensures within { Inside result (length path.now) }
{
    path.iter().rposition(|byte| *byte == b'/')
}

// The path up to its last `/`, which stays.
pub(crate) fn directory_of(path: &[u8]) -> &[u8]
    ensures { result.now ≡ directory path.now }
{
    match last_slash(path) {
        Some(at) => &path[..at + 1],
        None => b"",
    }
}

// How many bytes the path has without its last segment and the `/` before that.
pub(crate) fn parent_length(path: &[u8]) -> usize
    ensures value { take result path.now ≡ parent path.now }
    ensures within { result ≤ length path.now }
{
    last_slash(path).unwrap_or(0)
}
