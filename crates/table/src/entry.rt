// An entry of the contents: what its body is, where the body begins and how many bytes it has.
ghost use Rattle.std.specs.Prelude.{◌≡◌, ◌+◌};

use crate::kind::Kind;

#[derive(Clone, Copy, Debug, PartialEq, Eq)]
pub struct Entry {
    pub kind: Kind,
    pub place: u16,
    pub size: u16,
}

impl Entry {
    // Where its body begins.
    pub(crate) fn start(self) -> usize
        ensures { result ≡ self.place }
    {
        usize::from(self.place)
    }

    // Where its body ends.
    pub(crate) fn end(self) -> usize
        ensures { result ≡ self.place + self.size }
    {
        usize::from(self.place) + usize::from(self.size)
    }
}
