// What a tag says: its attribute list, and the two values that steering asks for.
ghost use Rattle.std.specs.Prelude.{◌≡◌, ◌+◌, ◌≤◌, length, drop, IfSome};
ghost use Rattle.std.specs.Option.{option_map};
ghost use Rattle.tags.specs.Places.{Lies};
ghost use Rattle.tags.specs.Attributes.{is_quoted, unquoted};
ghost use Rattle.tags.specs.Views.{row, found};
ghost use Rattle.multivariant.specs.Tags.{list_of, server_of, id_of, named};

use crate::kinds::name_length;
use tags::attributes::value_of;
use tags::line::Line;
use tags::value::Value;
use uri::cutting::cut;

pub(crate) fn list_of(line: Line<'_>) -> &[u8]
    ensures value { result.now ≡ list_of (row line.entry) }
    ensures within { length result.now ≤ length line.entry.text.now }
{
    line.text.get(name_length(line.kind)..).unwrap_or(&[])
}

// The value of SERVER-URI in a tag. Like `id_of` a name for one call, since what stands above speaks of servers and IDs.
pub(crate) fn server_of(line: Line<'_>) -> Option<Value<'_>>
    ensures value { option_map found result ≡ server_of (row line.entry) }
    ensures lies { IfSome result (λ v. Lies (list_of (row line.entry)) v.place v.text.now) }
    ensures within { IfSome result (λ v. v.place + length v.text.now ≤ length line.entry.text.now + 1) }
{
    value_of(list_of(line), b"SERVER-URI")
}

// The value of PATHWAY-ID in a tag.
pub(crate) fn id_of(line: Line<'_>) -> Option<Value<'_>>
    ensures value { option_map found result ≡ id_of (row line.entry) }
    ensures lies { IfSome result (λ v. Lies (list_of (row line.entry)) v.place v.text.now) }
    ensures within { IfSome result (λ v. v.place + length v.text.now ≤ length line.entry.text.now + 1) }
{
    value_of(list_of(line), b"PATHWAY-ID")
}

pub(crate) fn is_quoted(value: &[u8]) -> bool
    ensures { result ≡ is_quoted value.now }
{
    matches!(value, [b'"', ..])
}

// What stands between the quotes of a value.
pub(crate) fn unquote(value: &[u8]) -> &[u8]
    ensures { result.now ≡ unquoted value.now }
{
    let (inner, _) = cut(b'"', value.get(1..).unwrap_or(&[]));
    inner
}

// The pathway that a value names, which is `.` where there is none.
pub(crate) fn name_of(id: Option<Value<'_>>) -> &[u8]
    ensures { result.now ≡ named (option_map found id.entry) }
{
    id.map_or(b".".as_slice(), |value| unquote(value.text))
}
