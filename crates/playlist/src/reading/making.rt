// Making a playlist of any text.
ghost use Rattle.std.specs.Prelude.{◌≡◌, true, is_ok, IfOk};
ghost use Rattle.multivariant.specs.Checks.{checked};
ghost use Rattle.playlist.specs.Sources.{read_from, stand_in, opened};
ghost use Rattle.playlist.specs.Playlists.{playlist_meaning, read_by, described};

use super::Playlist;
use super::indexing::index_of;
use super::ordering::order_of;
use crate::source::Source;
use multivariant::check::check;
use multivariant::named::Steering;
use multivariant::steering::steering_of;
use pathways::dialect::Dialect;
use std::alloc::{AllocError, Global};

// A playlist that describes what the example table does: steered by https://s.example/a, one pathway `a` with the member https://c.example/.
static OWN: [u8; 19] = *b"https://s.example/a";

static TEXT: [u8; 117] =
    *b"#EXTM3U\n#EXT-X-CONTENT-STEERING:SERVER-URI=\"https://s.example/a\"\n#EXT-X-STREAM-INF:PATHWAY-ID=\"a\"\nhttps://c.example/\n";

fn example() -> Source<'static>
    ensures { read_from result ≡ stand_in }
{
    Source {
        dialect: Dialect::Dash,
        own: &OWN,
        text: &TEXT,
    }
}

// The text where it passes the check, else the one that stands in for it.
fn sound_source<'a>(own: &'a [u8], text: &'a [u8]) -> Source<'a>
    ensures is { read_from result ≡ opened own.now text.now }
    ensures sound { is_ok (checked result.own.now result.text.now) ≡ true }
{
    match check(own, text) {
        Ok(_) => Source {
            dialect: Dialect::Hls,
            own,
            text,
        },
        Err(_) => example(),
    }
}

// The playlist of a text that passed the check.
fn open<'a>(heap: Global, source: Source<'a>) -> Result<Playlist<'a>, AllocError>
    requires { is_ok (checked source.own.now source.text.now) ≡ true }
    ensures { IfOk result (λ p. read_by p ≡ read_from source.entry) }
{
    let text = source.text;
    let Steering { server, id, .. } = steering_of(text);
    let index = index_of(heap, text)?;
    let order = order_of(heap, id, index.as_slice())?;
    Ok(Playlist {
        dialect: source.dialect,
        own: source.own,
        text,
        server,
        order,
        index,
    })
}

impl<'a> Playlist<'a> {
    // Refuses nothing: past a fault it describes what the example table does. The error is want of memory for the index.
    pub fn new(heap: Global, own: &'a [u8], text: &'a [u8]) -> Result<Playlist<'a>, AllocError>
        ensures { IfOk result (λ p. playlist_meaning p ≡ described own.now text.now) }
    {
        open(heap, sound_source(own, text))
    }
}
