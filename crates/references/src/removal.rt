// Removing the dot segments of a path, in place: the path is read and written in one slice, so no iterator can lend its segments, and
// two places stand for what is written and what is read.
ghost use Rattle.std.specs.Prelude.{◌≡◌, ◌+◌, ◌-◌, ◌<◌, ◌≤◌, length, take, drop, slice_index};
ghost use Rattle.references.specs.Paths.{ending, moved, segment_of, without_dots, Absolute};
ghost use Rattle.references.specs.Views.{ahead};

use crate::segment::Segment;
use crate::segments::segment_of;
use crate::slashes::parent_length;
use uri::cutting::place_of;

// Ends a path so far, which has `written` bytes, behind a dot segment that goes up to `to`: a `/` stays where that was the last one.
// Answers the new length.
#[tactic(auto, using(crate::proofs::Walks::ending_first))]
fn end_at(path: &mut [u8], written: usize, to: usize) -> usize
    requires room { written < to }
    requires within { to ≤ length path.old }
    ensures value { take result path.new ≡ ending (take written path.old) (ahead (drop to path.old)) }
    ensures rest { drop to path.new ≡ drop to path.old }
    ensures bound { result ≤ to }
{
    if to < path.len() {
        return written;
    }
    path[written] = b'/';
    written + 1
}

// Moves the segment that stands, with its `/`, from `read` to `to`, behind the path so far, which has `written` bytes; a dot segment
// is not moved. Answers the new length of the path so far.
#[tactic(auto, using(crate::proofs::Walks::plain_moved, crate::proofs::Walks::plain_rest))]
fn move_segment(path: &mut [u8], written: usize, read: usize, to: usize) -> usize
    requires behind { written ≤ read }
    requires some { read < to }
    requires within { to ≤ length path.old }
    requires slash { slice_index path.old read ≡ 47 }
    ensures value { take result path.new ≡ moved (segment_of (take (to - (read + 1)) (drop (read + 1) path.old))) (take written path.old) (take (to - (read + 1)) (drop (read + 1) path.old)) (ahead (drop to path.old)) }
    ensures rest { drop to path.new ≡ drop to path.old }
    ensures bound { result ≤ to }
{
    match segment_of(&path[read + 1..to]) {
        Segment::Here => end_at(path, written, to),
        Segment::Above => {
            let above = parent_length(&path[0..written]);
            end_at(path, above, to)
        }
        Segment::Plain => {
            path.copy_within(read..to, written);
            written + (to - read)
        }
    }
}

// Removes the dot segments of a path that is empty or begins with `/`, and answers how many bytes are left, at the front.
pub(crate) fn remove_dot_segments(path: &mut [u8]) -> usize
    requires { Absolute path.old }
    ensures value { take result path.new ≡ without_dots path.old }
    ensures bound { result ≤ length path.old }
{
    let mut written = 0;
    let mut read = 0;
    while read < path.len() {
        let to = read + 1 + place_of(b'/', &path[read + 1..]);
        written = move_segment(path, written, read, to);
        read = to;
    }
    written
}
