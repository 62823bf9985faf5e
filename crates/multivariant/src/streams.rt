// The streams of a playlist, one by one.
ghost use Rattle.std.specs.Prelude.{◌≡◌, ◌+◌, ◌<◌, ◌≤◌, [], ◌∷◌, length, IfSome, MatchOption};
ghost use Rattle.tags.specs.Views.{whole, place_of};
ghost use Rattle.multivariant.specs.Streams.{streams_at, streams_of, pathway_of, is_of, has_stream};
ghost use Rattle.multivariant.specs.Views.{served, streams_left, StandsIn};

use crate::stream::Stream;
use crate::tag::{id_of, name_of};
use tags::kind::Kind;
use tags::lines::{Lines, lines_from, lines_of};

// The streams whose tags stand in the lines that are still to come.
#[derive(Clone, Copy)]
pub(crate) struct Streams<'a> {
    lines: Lines<'a>,
}

// The streams whose tags stand in the line that begins at `at` or behind it.
pub(crate) fn streams_from(text: &[u8], at: usize) -> Streams<'_>
    ensures left { streams_left result ≡ streams_at at text.now }
    ensures text { whole result.lines ≡ text.now }
    ensures place { place_of result.lines ≡ at }
{
    Streams {
        lines: lines_from(text, at, false),
    }
}

// All streams of a playlist.
pub(crate) fn streams_of(text: &[u8]) -> Streams<'_>
    ensures { streams_left result ≡ streams_of text.now }
{
    Streams {
        lines: lines_of(text),
    }
}

impl<'a> Iterator for Streams<'a> {
    type Item = Stream<'a>;

    ghost use Rattle.std.specs.Iterator.{item_count};
    ghost use Rattle.multivariant.specs.Views.{streams_left, StreamStep};

    ghost next_gives = { StreamStep };

    ghost remaining = { item_count streams_left };

    fn next(&mut self) -> Option<Stream<'a>> {
        let mut tag = None;
        while let Some(line) = self.lines.next() {
            match line.kind {
                Kind::Stream => tag = Some(line),
                Kind::Uri => return Some(Stream { tag, uri: line }),
                Kind::Steering | Kind::Other => {}
            }
        }
        None
    }
}

// The first stream whose tag stands in the line that begins at `at` or behind it.
pub(crate) fn stream_at(text: &[u8], at: usize) -> Option<Stream<'_>>
    ensures step { MatchOption result (streams_at at text.now ≡ [])
        (λ s. streams_at at text.now ≡ served s ∷ streams_at s.uri.next text.now) }
    ensures forth { IfSome result (λ s. (at < s.uri.next) × (s.uri.next ≤ length text.now + 1)) }
    ensures stands { IfSome result (λ s. IfSome s.tag (StandsIn text.now) × StandsIn text.now s.uri) }
{
    streams_from(text, at).next()
}

// The pathway that a stream belongs to.
pub(crate) fn pathway_of(stream: Stream<'_>) -> &[u8]
    ensures { result.now ≡ pathway_of (served stream.entry) }
{
    name_of(stream.tag.and_then(id_of))
}

pub(crate) fn is_of(stream: Stream<'_>, id: &[u8]) -> bool
    ensures { result ≡ is_of id.now (served stream.entry) }
{
    pathway_of(stream) == id
}

// Whether the pathway has a stream.
pub(crate) fn has_stream(text: &[u8], id: &[u8]) -> bool
    ensures { result ≡ has_stream id.now (streams_of text.now) }
{
    streams_of(text).any(|stream| is_of(stream, id))
}
