// What the rules ask of a part.
ghost use Rattle.std.specs.Prelude.{◌≡◌, not, ◌&&◌};
ghost use Rattle.std.specs.Str.{bytes_eq};
ghost use Rattle.uri.specs.Legal.{legal};
ghost use Rattle.pathways.specs.Limits.{legal_id};
ghost use Rattle.table.specs.Contents.{is_id, is_member};

use super::Part;
use crate::kind::Kind;
use pathways::ids::is_legal_id;
use uri::legality::is_legal;

impl<'a> Part<'a> {
    pub(crate) fn is_id(&self) -> bool
        ensures { result ≡ is_id self.now.entry.kind }
    {
        self.entry.kind == Kind::Id
    }

    pub(crate) fn is_member(&self) -> bool
        ensures { result ≡ is_member self.now.entry.kind }
    {
        self.entry.kind == Kind::Member
    }

    pub(crate) fn is_bad_id(&self) -> bool
        ensures { result ≡ (is_id self.now.entry.kind && not (legal_id self.now.body.now)) }
    {
        self.is_id() && !is_legal_id(self.body)
    }

    // Whether it is that ID.
    pub(crate) fn is_that_id(&self, id: &[u8]) -> bool
        ensures { result ≡ (is_id self.now.entry.kind && bytes_eq self.now.body.now id.now) }
    {
        self.is_id() && self.body == id
    }

    pub(crate) fn is_bad_uri(&self) -> bool
        ensures { result ≡ (not (is_id self.now.entry.kind) && not (legal self.now.body.now)) }
    {
        !self.is_id() && !is_legal(self.body)
    }
}
