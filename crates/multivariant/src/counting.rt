// Counting pathways and their streams.
ghost use Rattle.std.specs.Prelude.{◌≡◌, ◌^◌, ◌<◌, [], length, take};
ghost use Rattle.multivariant.specs.Streams.{streams_of, count_of};
ghost use Rattle.multivariant.specs.Views.{served};
ghost use Rattle.multivariant.specs.Offences.{excess, pathways_now, overrun, bad_count};

use crate::stream::Stream;
use crate::streams::{is_of, pathway_of, streams_of};
use pathways::limits::{MEMBERS, PATHWAYS};

// How many of the first `end` streams belong to the pathway.
fn count_streams(text: &[u8], end: usize, id: &[u8]) -> usize
    ensures { result ≡ count_of id.now (take end (streams_of text.now)) }
{
    streams_of(text)
        .take(end)
        .filter(|stream| is_of(*stream, id))
        .count()
}

// Whether a stream is one too many, behind so many pathways, and so many streams of its own.
fn is_excess(pathways: usize, same: usize) -> bool
    ensures { result ≡ excess pathways same }
{
    if same == 0 {
        return pathways >= PATHWAYS;
    }
    same >= MEMBERS
}

fn pathways_now(pathways: usize, same: usize) -> usize
    requires { pathways < 2 ^ 63 }
    ensures { result ≡ pathways_now pathways same }
{
    if same == 0 { pathways + 1 } else { pathways }
}

// Where a stream's tag stands.
fn place_of(stream: Stream) -> usize
    ensures { result ≡ (served stream.entry).tag.place }
{
    stream.tag.map_or(0, |tag| tag.place)
}

// The tag of the first stream by which a count passes its limit.
fn find_overrun(text: &[u8]) -> Option<usize>
    ensures { result ≡ overrun 0 [] (streams_of text.now) }
{
    let mut pathways = 0;
    for (before, stream) in streams_of(text).enumerate() {
        let same = count_streams(text, before, pathway_of(stream));
        if is_excess(pathways, same) {
            return Some(place_of(stream));
        }
        pathways = pathways_now(pathways, same);
    }
    None
}

// The place of a count outside its limits.
pub(crate) fn bad_count(text: &[u8]) -> Option<usize>
    ensures { result ≡ bad_count (length text.now) (streams_of text.now) }
{
    if streams_of(text).next().is_none() {
        return Some(text.len());
    }
    find_overrun(text)
}
