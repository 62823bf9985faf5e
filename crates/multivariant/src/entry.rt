// A stream by what it says: the ID of its pathway, and its URI line, each lent from the playlist.
ghost use Rattle.std.specs.Prelude.{◌≡◌};

use crate::stream::Stream;
use crate::streams::pathway_of;

#[derive(Clone, Copy, Debug, PartialEq, Eq)]
pub struct Entry<'a> {
    pub id: &'a [u8],
    pub uri: &'a [u8],
}

impl<'a> From<Stream<'a>> for Entry<'a> {
    ghost use Rattle.std.specs.Prelude.{◌≡◌};
    ghost use Rattle.multivariant.specs.Items.{item_of};
    ghost use Rattle.multivariant.specs.Views.{served, item};

    ghost from_gives = { λ s e. item e ≡ item_of (served s) };

    fn from(stream: Stream<'a>) -> Entry<'a> {
        Entry {
            id: pathway_of(stream),
            uri: stream.uri.text,
        }
    }
}
