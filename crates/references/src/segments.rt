// Telling the segments of a path apart.
ghost use Rattle.std.specs.Prelude.{◌≡◌};
ghost use Rattle.references.specs.Paths.{segment_of};

use crate::segment::Segment;

pub(crate) fn segment_of(text: &[u8]) -> Segment
    ensures { result ≡ segment_of text.now }
{
    match text {
        [b'.'] => Segment::Here,
        [b'.', b'.'] => Segment::Above,
        _ => Segment::Plain,
    }
}
