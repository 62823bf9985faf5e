// Resolving a reference against a base URI.
ghost use Rattle.std.specs.Prelude.{◌≡◌, length};
ghost use Rattle.std.specs.Option.{option_map};
ghost use Rattle.terms.specs.Texts.{content};
ghost use Rattle.uri.specs.Cuts.{before, holds};
ghost use Rattle.references.specs.Laws.{OnlyLegal, Undotted, Itself};
ghost use Rattle.references.specs.Loops.{Looped};
ghost use Rattle.references.specs.Resolution.{is_reference, if_legal, resolved};

use crate::choosing::target_of;
use crate::composing::{Composition, compose};
use terms::text::Text;
use uri::cutting::{cut, place_of};
use uri::legality::{is_legal, is_path};
use uri::splitting::split;

// The most bytes that a reference may have.
const REFERENCE_BYTES: usize = 512;

// Whether a colon stands in the first segment of the path.
fn colon_in_front(path: &[u8]) -> bool
    ensures { result ≡ holds 58 (before 47 path.now) }
{
    let (first, _) = cut(b'/', path);
    place_of(b':', first) < first.len()
}

fn is_reference(text: &[u8]) -> bool
    ensures { result ≡ is_reference text.now }
{
    let parts = split(text);
    text.len() <= REFERENCE_BYTES
        && is_path(parts.path)
        && (parts.scheme.is_some() || !colon_in_front(parts.path))
}

// The text, where it is a legal URI.
fn legal_text(text: &[u8]) -> Option<Text<512>>
    ensures { option_map content result ≡ if_legal text.now }
{
    if !is_legal(text) {
        return None;
    }
    Text::new(text)
}

#[tactic(auto, using(crate::proofs::Outcome::answered, crate::proofs::Outcome::there_found))]
fn stands_for<'a>(base: &'a [u8], reference: &'a [u8]) -> Option<Text<512>>
    ensures { option_map content result ≡ resolved base.now reference.now }
{
    if !is_legal(base) || !is_reference(reference) {
        return None;
    }
    let target = target_of(split(base), split(reference));
    if target.authority.is_none() {
        return None;
    }
    let mut uri = Composition::new();
    compose(target, &mut uri);
    legal_text(uri.as_bytes())
}

// The URI that `reference` stands for, read against `base`; none where one of them is illegal, or what it stands for is.
pub fn resolve(base: &[u8], reference: &[u8]) -> Option<Text<512>>
    ensures value { option_map content result ≡ resolved base.now reference.now }
    ensures legal { OnlyLegal (option_map content result) }
    ensures undotted { Undotted reference.now (option_map content result) }
    ensures itself { Itself base.now reference.now (option_map content result) }
    ensures looped { Looped }
{
    stands_for(base, reference)
}
