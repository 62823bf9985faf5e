// The streams of a playlist by what they say, one by one, and by where they stand.
ghost use Rattle.std.specs.Prelude.{◌≡◌, ◌+◌, ◌<◌, ◌≤◌, [], ◌∷◌, length, IfSome, MatchOption};
ghost use Rattle.multivariant.specs.Items.{item_of, items_at, items_of};
ghost use Rattle.multivariant.specs.Spans.{item_in};
ghost use Rattle.multivariant.specs.Views.{served, entries_left, StandsIn};

use crate::entry::Entry;
use crate::placed::Placed;
use crate::spans::{id_span, line_span};
use crate::stream::Stream;
use crate::streams::{Streams, stream_at, streams_from, streams_of};

// The streams that are still to come.
#[derive(Clone, Copy)]
pub struct Entries<'a> {
    streams: Streams<'a>,
}

// The streams whose tags stand in the line that begins at `at` or behind it.
pub fn entries_from(text: &[u8], at: usize) -> Entries<'_>
    ensures { entries_left result ≡ items_at at text.now }
{
    Entries {
        streams: streams_from(text, at),
    }
}

// All streams of a playlist.
pub fn entries_of(text: &[u8]) -> Entries<'_>
    ensures { entries_left result ≡ items_of text.now }
{
    Entries {
        streams: streams_of(text),
    }
}

impl<'a> Iterator for Entries<'a> {
    type Item = Entry<'a>;

    ghost use Rattle.std.specs.Iterator.{YieldsFirstBy, item_count};
    ghost use Rattle.multivariant.specs.Views.{item, entries_left};

    ghost next_gives = { YieldsFirstBy item entries_left };

    ghost remaining = { item_count entries_left };

    fn next(&mut self) -> Option<Entry<'a>> {
        let stream = self.streams.next()?;
        Some(Entry::from(stream))
    }
}

// Where a stream stands.
fn placed_at(text: &[u8], stream: Stream) -> Placed
    requires tag { IfSome stream.tag (StandsIn text.now) }
    requires uri { StandsIn text.now stream.uri }
    ensures item { item_in text.now result ≡ item_of (served stream.entry) }
    ensures next { result.next ≡ stream.entry.uri.next }
{
    let Stream { tag, uri } = stream;
    Placed {
        id: id_span(text, tag),
        uri: line_span(text, uri),
        next: uri.next,
    }
}

// The first stream whose tag stands in the line that begins at `at` or behind it.
pub fn entry_at(text: &[u8], at: usize) -> Option<Placed>
    ensures step { MatchOption result (items_at at text.now ≡ [])
        (λ e. items_at at text.now ≡ item_in text.now e ∷ items_at e.next text.now) }
    ensures forth { IfSome result (λ e. (at < e.next) × (e.next ≤ length text.now + 1)) }
{
    let stream = stream_at(text, at)?;
    Some(placed_at(text, stream))
}
