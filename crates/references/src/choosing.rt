// The five cases of a reference, which choose each piece of what it stands for from the reference or from its base.
ghost use Rattle.std.specs.Prelude.{◌≡◌, false, []};
ghost use Rattle.uri.specs.Views.{texts};
ghost use Rattle.references.specs.Views.{pieces, chosen, directory_for};

use crate::slashes::directory_of;
use crate::target::{Target, TargetPath};
use uri::parts::Parts;

// What stands before a relative path: the base's directory, or the root where the base has an authority and no path.
fn directory_for<'a>(base: Parts<'a>, path: &'a [u8]) -> &'a [u8]
    ensures { result.now ≡ directory_for (texts base.entry) path.now }
{
    if let [b'/', ..] = path {
        return b"";
    }
    if base.authority.is_some() && base.path.is_empty() {
        return b"/";
    }
    directory_of(base.path)
}

// A reference that stands for its own path.
fn unmerged(reference: Parts) -> Target
    ensures { pieces result ≡ record { parts = texts reference.entry; directory = []; kept = false } }
{
    Target {
        scheme: reference.scheme,
        authority: reference.authority,
        path: TargetPath::Merged {
            directory: b"",
            rest: reference.path,
        },
        query: reference.query,
        fragment: reference.fragment,
    }
}

pub(crate) fn target_of<'a>(base: Parts<'a>, reference: Parts<'a>) -> Target<'a>
    ensures { pieces result ≡ chosen (texts base.entry) (texts reference.entry) }
{
    if reference.scheme.is_some() {
        return unmerged(reference);
    }
    if reference.authority.is_some() {
        return Target {
            scheme: base.scheme,
            ..unmerged(reference)
        };
    }
    if reference.path.is_empty() {
        return Target {
            scheme: base.scheme,
            authority: base.authority,
            path: TargetPath::Kept(base.path),
            query: reference.query.or(base.query),
            fragment: reference.fragment,
        };
    }
    Target {
        scheme: base.scheme,
        authority: base.authority,
        path: TargetPath::Merged {
            directory: directory_for(base, reference.path),
            rest: reference.path,
        },
        query: reference.query,
        fragment: reference.fragment,
    }
}
