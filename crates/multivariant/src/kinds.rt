// Which lines are tags, and how long the names of these are.
ghost use Rattle.std.specs.Prelude.{◌≡◌, ◌≤◌};
ghost use Rattle.multivariant.specs.Tags.{is_tag, name_length};

use tags::kind::Kind;

pub(crate) fn is_tag(kind: Kind) -> bool
    ensures { result ≡ is_tag kind }
{
    matches!(kind, Kind::Steering | Kind::Stream)
}

// How many bytes the name of a tag has, its colon included.
pub(crate) fn name_length(kind: Kind) -> usize
    ensures value { result ≡ name_length kind }
    ensures bound { result ≤ 24 }
{
    match kind {
        Kind::Steering => 24,
        Kind::Stream => 18,
        Kind::Uri | Kind::Other => 0,
    }
}
