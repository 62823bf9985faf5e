// Which URIs are legal.
ghost use Rattle.std.specs.Prelude.{◌≡◌, Decides};
ghost use Rattle.std.specs.Option.{option_map};
ghost use Rattle.uri.specs.Legal.{is_scheme, is_port, is_authority, escaped, if_present, present, is_path, is_query, legal_parts, legal};
ghost use Rattle.uri.specs.Allowed.{allowed};
ghost use Rattle.uri.specs.Grammar.{Uri};
ghost use Rattle.uri.specs.Views.{texts};

use crate::component::Component;
use crate::cutting::cut;
use crate::parts::Parts;
use crate::splitting::split;
use terms::classes::{is_hex_digit, is_sub_delimiter, is_unreserved};
use terms::names::is_name;

// The most bytes that a URI may have.
pub const URI_BYTES: usize = 512;

const HOST_BYTES: usize = 128;

// Whether the byte may stand there as it is.
fn allows(component: Component, byte: u8) -> bool
    ensures { result ≡ allowed component byte }
{
    if is_unreserved(byte) || is_sub_delimiter(byte) {
        return true;
    }
    match byte {
        b':' | b'@' | b'/' => true,
        b'?' => component == Component::Query,
        _ => false,
    }
}

// Whether each byte is allowed, or is `%` with two hex digits behind it.
fn is_escaped(component: Component, text: &[u8]) -> bool
    ensures { result ≡ escaped (allowed component) 0 text.now }
{
    let mut due = 0u8;
    for byte in text {
        if due > 0 {
            if !is_hex_digit(*byte) {
                return false;
            }
            due -= 1;
        } else if *byte == b'%' {
            due = 2;
        } else if !allows(component, *byte) {
            return false;
        }
    }
    due == 0
}

fn is_scheme(text: &[u8]) -> bool
    ensures { result ≡ is_scheme text.now }
{
    text.eq_ignore_ascii_case(b"http") || text.eq_ignore_ascii_case(b"https")
}

// `parse` would take a `&str` and a sign: the loop is plainer.
fn is_port(digits: &[u8]) -> bool
    ensures { result ≡ is_port digits.now }
{
    if digits.len() < 1 || digits.len() > 5 {
        return false;
    }
    let mut port = 0u32;
    for byte in digits {
        if *byte < b'0' || *byte > b'9' {
            return false;
        }
        port = port * 10 + u32::from(*byte - b'0');
    }
    port <= 65535
}

fn is_authority(text: &[u8]) -> bool
    ensures { result ≡ is_authority text.now }
{
    let (host, port) = cut(b':', text);
    is_name(host, HOST_BYTES) && port.is_none_or(is_port)
}

fn is_query(text: &[u8]) -> bool
    ensures { result ≡ is_query text.now }
{
    is_escaped(Component::Query, text)
}

// Whether a URI's path may be so: bytes of a path, and escapes.
pub fn is_path(text: &[u8]) -> bool
    ensures { result ≡ is_path text.now }
{
    is_escaped(Component::Path, text)
}

fn are_legal(parts: Parts) -> bool
    ensures { result ≡ legal_parts (texts parts.entry) }
{
    parts.scheme.is_some_and(is_scheme)
        && parts.authority.is_some_and(is_authority)
        && is_path(parts.path)
        && parts.query.is_none_or(is_query)
        && parts.fragment.is_none_or(is_query)
}

// Short enough, and each part in its form.
fn keeps_rules(uri: &[u8]) -> bool
    ensures { result ≡ legal uri.now }
{
    uri.len() <= URI_BYTES && are_legal(split(uri))
}

// Whether `uri` is a legal URI: whether the grammar derives it.
pub fn is_legal(uri: &[u8]) -> bool
    ensures value { result ≡ legal uri.now }
    ensures grammar { Decides result (Uri uri.now) }
{
    keeps_rules(uri)
}
