// Where the values of tags and the lines of a playlist stand.
ghost use Rattle.std.specs.Prelude.{◌≡◌, ◌+◌, ◌≤◌, length, IfSome};
ghost use Rattle.std.specs.Option.{option_map};
ghost use Rattle.tags.specs.Places.{Lies};
ghost use Rattle.tags.specs.Attributes.{unquoted};
ghost use Rattle.tags.specs.Views.{row};
ghost use Rattle.multivariant.specs.Tags.{list_of, server_of, id_of, named};
ghost use Rattle.multivariant.specs.Items.{foremost};
ghost use Rattle.multivariant.specs.Spans.{sliced, name_in, names_in};
ghost use Rattle.multivariant.specs.Views.{tag_row, StandsIn};

use crate::kinds::name_length;
use crate::span::Span;
use crate::tag::{id_of, server_of, unquote};
use tags::line::Line;
use tags::value::Value;

// Where the bytes between the quotes of a tag's value stand.
fn inner_span(text: &[u8], line: Line, value: Value) -> Span
    requires line { StandsIn text.now line }
    requires value { Lies (list_of (row line)) value.place value.text.now }
    requires within { value.place + length value.text.now ≤ length line.text.now + 1 }
    ensures { sliced text.now result ≡ unquoted value.entry.text.now }
{
    let from = line.place + name_length(line.kind) + value.place + 1;
    let to = from + unquote(value.text).len();
    Span { from, to }
}

// Where the ID of a tag stands, if it has one.
pub(crate) fn id_span(text: &[u8], tag: Option<Line>) -> Option<Span>
    requires { IfSome tag (StandsIn text.now) }
    ensures name { name_in text.now result ≡ named (id_of (tag_row tag.entry)) }
    ensures given { names_in text.now result ≡ foremost (id_of (tag_row tag.entry)) }
{
    let tag = tag?;
    let id = id_of(tag)?;
    Some(inner_span(text, tag, id))
}

// Where the reference to the steering server stands, if the tag has one.
pub(crate) fn server_span(text: &[u8], tag: Option<Line>) -> Option<Span>
    requires { IfSome tag (StandsIn text.now) }
    ensures { names_in text.now result ≡ foremost (server_of (tag_row tag.entry)) }
{
    let tag = tag?;
    let server = server_of(tag)?;
    Some(inner_span(text, tag, server))
}

// Where a line stands.
pub(crate) fn line_span(text: &[u8], line: Line) -> Span
    requires { StandsIn text.now line }
    ensures { sliced text.now result ≡ line.entry.text.now }
{
    Span {
        from: line.place,
        to: line.place + line.text.len(),
    }
}

// The bytes of a span.
pub(crate) fn slice(text: &[u8], span: Span) -> &[u8]
    ensures { result.now ≡ sliced text.now span }
{
    let Span { from, to } = span;
    if from <= to && to <= text.len() {
        return &text[from..to];
    }
    &[]
}

// The bytes of a span, if there is one.
pub(crate) fn slice_if(text: &[u8], span: Option<Span>) -> Option<&[u8]>
    ensures { option_map (λ x. x.now) result ≡ option_map (sliced text.now) span }
{
    Some(slice(text, span?))
}
