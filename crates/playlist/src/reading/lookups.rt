// Looking up a pathway and its members in the index.
ghost use Rattle.std.specs.Prelude.{◌≡◌, map};
ghost use Rattle.std.specs.Option.{option_map};
ghost use Rattle.multivariant.specs.Views.{item};
ghost use Rattle.playlist.specs.Lookups.{nth_in, count_in, uri_in};

use super::ordering::same_id;
use multivariant::entry::Entry;

// The ID of the pathway of a number.
pub(crate) fn nth_id<'a>(order: &[&'a [u8]], number: usize) -> Option<&'a [u8]>
    ensures { option_map (λ x. x.now) result ≡ nth_in (map (λ x. x.now) order.now) number }
{
    order.get(number).copied()
}

// How many streams the pathway has.
pub(crate) fn count_streams(index: &[Entry], id: &[u8]) -> usize
    ensures { result ≡ count_in id.now (map item index.now) }
{
    index.iter().filter(|entry| same_id(entry.id, id)).count()
}

// The URI line of the pathway's stream of a number.
pub(crate) fn nth_uri<'a>(index: &[Entry<'a>], id: &[u8], number: usize) -> Option<&'a [u8]>
    ensures { option_map (λ x. x.now) result ≡ uri_in id.now number (map item index.now) }
{
    index
        .iter()
        .filter(|entry| same_id(entry.id, id))
        .nth(number)
        .map(|entry| entry.uri)
}
