// A playlist that was checked. It lends the text and its own URI, and keeps an index of its streams.
ghost use Rattle.std.specs.Prelude.{◌≡◌, true, map, is_ok};
ghost use Rattle.multivariant.specs.Checks.{checked};
ghost use Rattle.multivariant.specs.Tags.{server_of};
ghost use Rattle.playlist.specs.Items.{items_of, ids_in, uris_in, order_of, steering_of, server_text};
ghost use Rattle.multivariant.specs.Views.{item};

mod indexing;
mod lookups;
mod making;
mod ordering;
mod questions;

use multivariant::entry::Entry;
use pathways::dialect::Dialect;

#[derive(Drop)]
pub struct Playlist<'a> {
    dialect: Dialect,
    own: &'a [u8],
    text: &'a [u8],
    server: &'a [u8],
    order: Vec<&'a [u8]>,
    index: Vec<Entry<'a>>,
    ghost sound: { is_ok (checked own.now text.now) ≡ true },
    ghost steers: { server.now ≡ server_text (server_of (steering_of text.now)) },
    ghost ordered: { map (λ x. x.now) order.items ≡ order_of text.now },
    ghost names: { ids_in (map item index.items) ≡ ids_in (items_of text.now) },
    ghost uris: { uris_in (map item index.items) ≡ uris_in (items_of text.now) },
}
