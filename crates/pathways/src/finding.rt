// Finding an ID in any set of pathways.
ghost use Rattle.std.specs.Prelude.{◌≡◌, ◌<◌, length, slice_index_or};
ghost use Rattle.std.specs.Str.{bytes_eq};
ghost use Rattle.pathways.specs.Meaning.{nowhere};
ghost use Rattle.pathways.specs.Limits.{Lawful};
ghost use Rattle.pathways.specs.Finding.{Finds};

use crate::ids::ID_BYTES;
use crate::set::Pathways;

// Whether the pathway of that number has the ID.
fn has_id<P: Pathways>(set: &P, number: usize, id: &[u8]) -> bool
    requires within { number < length (P.Pathways.pathways set.now) }
    requires lawful { Lawful (P.Pathways.pathways set.now) }
    ensures { result ≡ bytes_eq (slice_index_or (P.Pathways.pathways set.now) number nowhere).id id.now }
{
    let mut buffer = [0; ID_BYTES];
    match set.id(number, &mut buffer) {
        Ok(length) => &buffer[0..length] == id,
        Err(_) => false,
    }
}

// The number of the pathway that has the ID.
pub fn find<P: Pathways>(set: &P, id: &[u8]) -> Option<usize>
    ensures { Finds result (P.Pathways.pathways set.now) id.now }
{
    (0..set.count()).find(|number| has_id(set, *number, id))
}
