// What single lines of a playlist may offend by.
ghost use Rattle.std.specs.Prelude.{◌≡◌, ◌+◌, ◌^◌, ◌<◌};
ghost use Rattle.references.specs.Resolution.{resolved};
ghost use Rattle.tags.specs.Lines.{rows_at};
ghost use Rattle.tags.specs.Views.{row, found};
ghost use Rattle.multivariant.specs.Tags.{spot_of, is_quoted_value, server_of, id_of};
ghost use Rattle.multivariant.specs.Streams.{streams_of};
ghost use Rattle.multivariant.specs.Offences.{is_served, stands, bad_id, bare_id, bad_server, bad_uri, is_known};

use crate::kinds::name_length;
use crate::streams::has_stream;
use crate::tag::{id_of, is_quoted, server_of, unquote};
use pathways::ids::is_legal_id;
use references::resolution::resolve;
use tags::kind::Kind;
use tags::line::Line;
use tags::lines::lines_from;
use tags::value::Value;

// Whether a URI line comes behind a line and before the next stream tag.
pub(crate) fn is_served(text: &[u8], line: Line) -> bool
    ensures { result ≡ is_served (rows_at line.entry.next line.entry.waits text.now) }
{
    for next in lines_from(text, line.next, line.waits) {
        match next.kind {
            Kind::Stream => return false,
            Kind::Uri => return true,
            Kind::Steering | Kind::Other => {}
        }
    }
    false
}

// Whether the reference stands for a URI.
fn is_standing(own: &[u8], reference: &[u8]) -> bool
    ensures { result ≡ stands (resolved own.now reference.now) }
{
    resolve(own, reference).is_some()
}

// Where the value of a tag stands in the playlist.
fn spot_of(line: Line, value: Value) -> usize
    requires { line.place + 24 + value.place < 2 ^ 64 }
    ensures { result ≡ spot_of (row line.entry) (found value.entry) }
{
    line.place + name_length(line.kind) + value.place
}

pub(crate) fn bad_id(line: Line) -> Option<usize>
    ensures { result ≡ bad_id (row line.entry) (id_of (row line.entry)) }
{
    let id = id_of(line)?;
    let illegal = is_quoted(id.text) && !is_legal_id(unquote(id.text));
    illegal.then_some(spot_of(line, id))
}

pub(crate) fn bare_id(line: Line) -> Option<usize>
    ensures { result ≡ bare_id (row line.entry) (id_of (row line.entry)) }
{
    let id = id_of(line)?;
    (!is_quoted(id.text)).then_some(spot_of(line, id))
}

// A SERVER-URI that stands for no URI.
fn bad_server(own: &[u8], line: Line) -> Option<usize>
    ensures { result ≡ bad_server own.now (row line.entry) (server_of (row line.entry)) }
{
    let server = server_of(line)?;
    (!is_standing(own, unquote(server.text))).then_some(spot_of(line, server))
}

pub(crate) fn bad_uri(own: &[u8], line: Line) -> Option<usize>
    ensures { result ≡ bad_uri own.now (row line.entry) line.entry.kind }
{
    match line.kind {
        Kind::Steering => bad_server(own, line),
        Kind::Uri => (!is_standing(own, line.text)).then_some(line.place),
        Kind::Stream | Kind::Other => None,
    }
}

pub(crate) fn has_quoted_server(line: Line) -> bool
    ensures { result ≡ is_quoted_value (server_of (row line.entry)) }
{
    server_of(line).is_some_and(|server| is_quoted(server.text))
}

// Whether the pathway that a steering tag names, if it names one, has a stream.
pub(crate) fn is_known(text: &[u8], line: Line) -> bool
    ensures { result ≡ is_known (streams_of text.now) (id_of (row line.entry)) }
{
    id_of(line).is_none_or(|id| has_stream(text, unquote(id.text)))
}
