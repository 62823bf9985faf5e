// The fields of an attribute list, one by one.
ghost use Rattle.std.specs.Prelude.{◌≡◌, ◌+◌, ◌<◌, ◌≤◌, false, [], ◌∷◌, length, MatchOption};
ghost use Rattle.tags.specs.Attributes.{parting, now_quoted, field_length, fields_of, fields_at};
ghost use Rattle.tags.specs.Places.{Lies};
ghost use Rattle.tags.specs.Views.{field, fields_left};

use crate::field::Field;
use crate::lines::rest_from;

// Whether a comma parts two fields there.
fn is_parting(quoted: bool, byte: u8) -> bool
    ensures { result ≡ parting quoted byte }
{
    byte == b',' && !quoted
}

// Whether what follows the byte stands between quotes.
fn now_quoted(quoted: bool, byte: u8) -> bool
    ensures { result ≡ now_quoted quoted byte }
{
    if byte == b'"' { !quoted } else { quoted }
}

// The length of the first field: it ends at a comma that does not stand between quotes.
fn field_length(list: &[u8]) -> usize
    ensures value { result ≡ field_length false list.now }
    ensures within { result ≤ length list.now }
{
    let mut quoted = false;
    // `position` was tried: its closure changes `quoted`, and the library's lemmas on chains take closures that change nothing.
    for (i, byte) in list.iter().enumerate() {
        if is_parting(quoted, *byte) {
            return i;
        }
        quoted = now_quoted(quoted, *byte);
    }
    list.len()
}

// The field that begins at `at`, where the list is that long.
fn field_at(list: &[u8], at: usize) -> Option<Field<'_>>
    ensures step { MatchOption result (fields_at at list.now ≡ []) (λ f. fields_at at list.now ≡ field f ∷ fields_at f.next list.now) }
    ensures forth { MatchOption result (length list.now < at) (λ f. (at < f.next) × (f.next ≤ length list.now + 1)) }
    ensures lies { MatchOption result (length list.now < at) (λ f. Lies list.now f.place f.text.now) }
    ensures span { MatchOption result (length list.now < at) (λ f. f.place + length f.text.now + 1 ≡ f.next) }
{
    if at > list.len() {
        return None;
    }
    let rest = rest_from(list, at);
    let length = field_length(rest);
    Some(Field {
        place: at,
        text: &rest[0..length],
        next: at + length + 1,
    })
}

// The fields from the one that begins at `at`.
#[derive(Clone, Copy)]
pub(crate) struct Fields<'a> {
    list: &'a [u8],
    at: usize,
}

pub(crate) fn fields_from(list: &[u8], at: usize) -> Fields<'_>
    ensures left { fields_left result ≡ fields_at at list.now }
    ensures list { result.list.now ≡ list.now }
{
    Fields { list, at }
}

pub(crate) fn fields_of(list: &[u8]) -> Fields<'_>
    ensures left { fields_left result ≡ fields_of list.now }
    ensures list { result.list.now ≡ list.now }
{
    fields_from(list, 0)
}

impl<'a> Iterator for Fields<'a> {
    type Item = Field<'a>;

    ghost use Rattle.std.specs.Iterator.{item_count};
    ghost use Rattle.tags.specs.Views.{fields_left, FieldStep};

    ghost next_gives = { FieldStep };

    ghost remaining = { item_count fields_left };

    fn next(&mut self) -> Option<Field<'a>> {
        let field = field_at(self.list, self.at)?;
        self.at = field.next;
        Some(field)
    }
}
