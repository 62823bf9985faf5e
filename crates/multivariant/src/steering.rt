// The steering tag of a playlist.
ghost use Rattle.std.specs.Prelude.{◌≡◌, false, length, IfSome};
ghost use Rattle.std.specs.Option.{option_map};
ghost use Rattle.tags.specs.Lines.{rows_of};
ghost use Rattle.multivariant.specs.Streams.{steering_in};
ghost use Rattle.multivariant.specs.Tags.{server_of, id_of};
ghost use Rattle.multivariant.specs.Items.{steering_of, foremost, inner_of, server_text};
ghost use Rattle.multivariant.specs.Spans.{sliced, names_in};
ghost use Rattle.multivariant.specs.Views.{tag_row, StandsIn};
ghost use Rattle.multivariant.specs.Offences.{bad_steering};

use crate::named::Steering;
use crate::span::Span;
use crate::spans::{id_span, server_span, slice, slice_if};
use tags::kind::Kind;
use tags::line::Line;
use tags::lines::lines_of;

// The first steering tag.
fn steering_tag(text: &[u8]) -> Option<Line<'_>>
    ensures value { tag_row result ≡ steering_in (rows_of text.now) }
    ensures stands { IfSome result (StandsIn text.now) }
{
    lines_of(text).find(|line| line.kind == Kind::Steering)
}

// What the first steering tag names, and where.
#[tactic(auto, using(crate::proofs::Slicing::spanned_inner))]
pub fn steering_of(text: &[u8]) -> Steering<'_>
    ensures server { result.server.now ≡ server_text (server_of (steering_of text.now)) }
    ensures id { option_map (λ x. x.now) result.id ≡ inner_of (id_of (steering_of text.now)) }
    ensures server_span { sliced text.now result.server_span ≡ server_text (server_of (steering_of text.now)) }
    ensures id_span { names_in text.now result.id_span ≡ foremost (id_of (steering_of text.now)) }
{
    let tag = steering_tag(text);
    // Where there is no server, its span is one of no bytes: whoever asks for the place of what is not there gets that.
    let server = server_span(text, tag).unwrap_or(Span { from: 0, to: 0 });
    let id = id_span(text, tag);
    Steering {
        server: slice(text, server),
        id: slice_if(text, id),
        server_span: server,
        id_span: id,
    }
}

// The place of a second steering tag, or the text's end where there is none at all.
pub(crate) fn bad_steering(text: &[u8]) -> Option<usize>
    ensures { result ≡ bad_steering (length text.now) false (rows_of text.now) }
{
    let mut seen = false;
    for line in lines_of(text) {
        if line.kind == Kind::Steering && seen {
            return Some(line.place);
        }
        seen = line.kind == Kind::Steering || seen;
    }
    if seen { None } else { Some(text.len()) }
}
