// Attribute lists: whether one has the syntax, whether it repeats a name, and the value of a name.
ghost use Rattle.std.specs.Prelude.{◌≡◌, ◌+◌, ◌^◌, ◌<◌, ◌≤◌, false, [], ◌∷◌, length, IfSome, Decides, MatchOption};
ghost use Rattle.std.specs.Option.{option_map};
ghost use Rattle.std.specs.Str.{bytes_eq};
ghost use Rattle.terms.specs.Classes.{every};
ghost use Rattle.uri.specs.Cuts.{before};
ghost use Rattle.tags.specs.Attributes.{parting, now_quoted, field_length, fields_at, is_closed, is_value, is_attribute, is_list, has_name, repeats_name, or_nothing, found_in, value_of};
ghost use Rattle.tags.specs.Charsets.{stands};
ghost use Rattle.tags.specs.Grammar.{AttributeList};
ghost use Rattle.tags.specs.Places.{Lies};
ghost use Rattle.tags.specs.Views.{field, found};

use crate::charset::Charset;
use crate::field::Field;
use crate::fields::{fields_from, fields_of};
use crate::value::Value;
use uri::cutting::{cut, is_named};

fn allows(charset: Charset, byte: u8) -> bool
    ensures { result ≡ stands charset byte }
{
    match charset {
        Charset::Name => matches!(byte, b'A'..=b'Z' | b'0'..=b'9' | b'-'),
        Charset::Quoted => byte != b'"' && byte != b'\r' && byte != b'\n',
        Charset::Plain => byte > b' ' && byte != b'"' && byte != b',' && byte != b'\x7f',
    }
}

// Whether each byte may stand there.
fn is_made_of(charset: Charset, text: &[u8]) -> bool
    ensures { result ≡ every (stands charset) text.now }
{
    text.iter().all(|byte| allows(charset, *byte))
}

// What stands behind an opening quote is closed by the next one, and nothing stands behind that.
fn is_closed(rest: &[u8]) -> bool
    ensures { result ≡ is_closed rest.now }
{
    match cut(b'"', rest) {
        (inner, Some([])) => is_made_of(Charset::Quoted, inner),
        _ => false,
    }
}

fn is_value(value: &[u8]) -> bool
    ensures { result ≡ is_value value.now }
{
    if let [b'"', rest @ ..] = value {
        return is_closed(rest);
    }
    !value.is_empty() && is_made_of(Charset::Plain, value)
}

// Whether a field is a name, `=` and a value.
fn is_attribute(field: &[u8]) -> bool
    ensures { result ≡ is_attribute field.now }
{
    match cut(b'=', field) {
        (name, Some(value)) => {
            !name.is_empty() && is_made_of(Charset::Name, name) && is_value(value)
        }
        (_, None) => false,
    }
}

// Whether each field is an attribute.
fn keeps_syntax(list: &[u8]) -> bool
    ensures { result ≡ is_list list.now }
{
    fields_of(list).all(|field| is_attribute(field.text))
}

// Whether `list` has the syntax of an attribute list: whether the grammar derives it.
pub fn is_list(list: &[u8]) -> bool
    ensures value { result ≡ is_list list.now }
    ensures grammar { Decides result (AttributeList list.now) }
{
    keeps_syntax(list)
}

// Whether one of the fields from `from` on has the name.
fn has_name(list: &[u8], from: usize, name: &[u8]) -> bool
    ensures { result ≡ has_name name.now (fields_at from list.now) }
{
    fields_from(list, from).any(|field| is_named(field.text, name))
}

fn is_repeated(list: &[u8], field: Field) -> bool
    ensures { result ≡ has_name (before 61 field.entry.text.now) (fields_at field.entry.next list.now) }
{
    let (name, _) = cut(b'=', field.text);
    has_name(list, field.next, name)
}

// Whether a name occurs twice in the list.
pub fn repeats_name(list: &[u8]) -> bool
    ensures { result ≡ repeats_name list.now }
{
    for field in fields_of(list) {
        if is_repeated(list, field) {
            return true;
        }
    }
    false
}

// What stands behind the name of a field and its `=`.
fn value_in<'a>(list: &[u8], field: Field<'a>) -> Value<'a>
    requires fits { field.place + length field.text.now + 1 < 2 ^ 64 }
    requires lies { Lies list.now field.place field.text.now }
    ensures value { found result ≡ found_in (record { place = field.entry.place; text = field.entry.text.now }) }
    ensures lies { Lies list.now result.place result.text.now }
    ensures within { result.place + length result.text.now ≤ field.entry.place + length field.entry.text.now + 1 }
{
    let (name, value) = cut(b'=', field.text);
    Value {
        place: field.place + name.len() + 1,
        text: value.unwrap_or(&[]),
    }
}

// The value of the first attribute that has the name.
pub fn value_of<'a>(list: &'a [u8], name: &[u8]) -> Option<Value<'a>>
    ensures value { option_map found result ≡ value_of name.now list.now }
    ensures lies { IfSome result (λ v. Lies list.now v.place v.text.now) }
    ensures within { IfSome result (λ v. v.place + length v.text.now ≤ length list.now + 1) }
{
    for attribute in fields_of(list) {
        if is_named(attribute.text, name) {
            return Some(value_in(list, attribute));
        }
    }
    None
}
