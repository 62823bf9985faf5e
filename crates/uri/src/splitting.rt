// Splitting a URI or a reference into its parts.
ghost use Rattle.std.specs.Prelude.{◌≡◌};
ghost use Rattle.std.specs.Option.{option_map};
ghost use Rattle.uri.specs.Splits.{split, without_fragment, scheme, behind_scheme, authority, path};
ghost use Rattle.uri.specs.Views.{texts};

use crate::cutting::{cut, place_of};
use crate::parts::Parts;

// The scheme, if there is one, and what stands behind its colon.
fn cut_scheme(text: &[u8]) -> (Option<&[u8]>, &[u8])
    ensures scheme { option_map (λ x. x.now) result.0 ≡ scheme text.now }
    ensures rest { result.1.now ≡ behind_scheme text.now }
{
    let colon = place_of(b':', text);
    if colon == 0 || colon == text.len() {
        return (None, text);
    }
    let front = &text[0..colon];
    if place_of(b'/', front) < front.len() {
        return (None, text);
    }
    (Some(front), &text[colon + 1..])
}

// The authority, if there is one, and the path.
fn cut_authority(text: &[u8]) -> (Option<&[u8]>, &[u8])
    ensures authority { option_map (λ x. x.now) result.0 ≡ authority text.now }
    ensures path { result.1.now ≡ path text.now }
{
    let [b'/', b'/', rest @ ..] = text else {
        return (None, text);
    };
    let slash = place_of(b'/', rest);
    (Some(&rest[0..slash]), &rest[slash..])
}

pub fn split(text: &[u8]) -> Parts<'_>
    ensures { texts result ≡ split text.now }
{
    let (whole, fragment) = cut(b'#', text);
    let (front, query) = cut(b'?', whole);
    let (scheme, rest) = cut_scheme(front);
    let (authority, path) = cut_authority(rest);
    Parts {
        scheme,
        authority,
        path,
        query,
        fragment,
    }
}

// The text before its first `#`.
pub fn without_fragment(text: &[u8]) -> &[u8]
    ensures { result.now ≡ without_fragment text.now }
{
    let (whole, _) = cut(b'#', text);
    whole
}
