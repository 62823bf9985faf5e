// The entries of the contents, one after the other.
ghost use Rattle.std.specs.Prelude.{◌≡◌, ◌<◌};
ghost use Rattle.std.specs.Iterator.{YieldsFirst, item_count};
ghost use Rattle.table.specs.Contents.{pair, count_of, spot, contents};
ghost use Rattle.table.specs.Parts.{entries_left};

use super::{Contents, Entries};
use crate::entry::Entry;
use crate::kind::Kind;

// Where the contents begin.
const CONTENTS: usize = 6;

const ENTRY_BYTES: usize = 5;

// A number of two bytes.
pub(crate) fn pair_of(high: u8, low: u8) -> u16
    ensures { result ≡ pair high low }
{
    u16::from_be_bytes([high, low])
}

// The place of entry `i` in the file.
pub(crate) fn spot_of(i: usize) -> usize
    requires { i < 65536 }
    ensures { result ≡ spot i }
{
    CONTENTS + ENTRY_BYTES * i
}

impl<'a> Iterator for Entries<'a> {
    type Item = Entry;

    ghost next_gives = { YieldsFirst entries_left };

    ghost remaining = { item_count entries_left };

    fn next(&mut self) -> Option<Entry> {
        let [kind, place_high, place_low, size_high, size_low, rest @ ..] = self.bytes else {
            return None;
        };
        self.bytes = rest;
        Some(Entry {
            kind: Kind::from(*kind),
            place: pair_of(*place_high, *place_low),
            size: pair_of(*size_high, *size_low),
        })
    }
}

impl<'a> Contents<'a> {
    // How many entries there are.
    pub(crate) fn count(&self) -> u16
        ensures { result ≡ count_of self.now.file.now }
    {
        pair_of(self.file[4], self.file[5])
    }

    // All entries, in order.
    pub(crate) fn entries(&self) -> Entries<'a>
        ensures { entries_left result ≡ contents self.now.file.now }
    {
        let end = spot_of(usize::from(self.count()));
        Entries {
            bytes: &self.file[CONTENTS..end],
        }
    }
}
