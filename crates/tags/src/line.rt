// A line: what it is, where it begins, and its bytes without the line's end. The line behind it begins at `next`, and `waits` tells
// whether a stream tag still waits for its URI line there.
ghost use Rattle.std.specs.Prelude.{◌+◌, ◌^◌, ◌<◌, length};

use crate::kind::Kind;

#[derive(Clone, Copy, Debug, PartialEq, Eq)]
pub struct Line<'a> {
    pub kind: Kind,
    pub place: usize,
    pub text: &'a [u8],
    pub next: usize,
    pub waits: bool,
    ghost fits: { place + length text.now < 2 ^ 63 },
}
