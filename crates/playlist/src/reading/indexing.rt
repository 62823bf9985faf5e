// Making the index of a playlist.
ghost use Rattle.std.specs.Prelude.{◌≡◌, map, IfOk};
ghost use Rattle.multivariant.specs.Views.{item};
ghost use Rattle.playlist.specs.Items.{items_of};

use multivariant::entries::entries_of;
use multivariant::entry::Entry;
use std::alloc::{AllocError, Global};

// The streams of the text.
pub(crate) fn index_of(heap: Global, text: &[u8]) -> Result<Vec<Entry<'_>>, AllocError>
    ensures { IfOk result (λ v. map item v.items ≡ items_of text.now) }
{
    entries_of(text).collect(heap)
}
