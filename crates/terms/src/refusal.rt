// Why a call or a text is turned down. Each case has a number, by which it is known outside.
ghost use Rattle.std.specs.Prelude.{◌≡◌};
ghost use Rattle.terms.specs.Refusals.{number};

use std::fmt;

#[derive(Clone, Copy, Debug, PartialEq, Eq)]
pub enum Refusal {
    MomentOutOfRange,
    WrongToken,
    Ended,
    RequestOpen,
    NotDue,
    RequestsSpent,
    BufferShort,
    NoSuchNumber,
    OwnUri,
    Length,
    Header,
    Structure,
    Order,
    StreamWithoutUri,
    PathwayId,
    Uri,
    Count,
    ManifestLength,
    NotJson,
    KeyRepeated,
    VersionAbsent,
    VersionUnknown,
    Ttl,
    ReloadUri,
    Priority,
    Clones,
    CloneIdTaken,
    CloneMemberLong,
}

impl Refusal {
    pub fn number(self) -> u8
        ensures { result ≡ number self }
    {
        match self {
            Refusal::MomentOutOfRange => 1,
            Refusal::WrongToken => 2,
            Refusal::Ended => 3,
            Refusal::RequestOpen => 4,
            Refusal::NotDue => 5,
            Refusal::RequestsSpent => 6,
            Refusal::BufferShort => 7,
            Refusal::NoSuchNumber => 8,
            Refusal::OwnUri => 9,
            Refusal::Length => 10,
            Refusal::Header => 11,
            Refusal::Structure => 12,
            Refusal::Order => 13,
            Refusal::StreamWithoutUri => 14,
            Refusal::PathwayId => 15,
            Refusal::Uri => 16,
            Refusal::Count => 17,
            Refusal::ManifestLength => 30,
            Refusal::NotJson => 31,
            Refusal::KeyRepeated => 32,
            Refusal::VersionAbsent => 33,
            Refusal::VersionUnknown => 34,
            Refusal::Ttl => 35,
            Refusal::ReloadUri => 36,
            Refusal::Priority => 37,
            Refusal::Clones => 38,
            Refusal::CloneIdTaken => 39,
            Refusal::CloneMemberLong => 40,
        }
    }
}

// The reason in plain words.
impl fmt::Display for Refusal {
    fn fmt<W: fmt::Write>(&self, f: &mut fmt::Formatter<W>) -> fmt::Result {
        f.write_str(match self {
            Refusal::MomentOutOfRange => "the moment is before the latest one or above 2^53",
            Refusal::WrongToken => "the token is not the open request's",
            Refusal::Ended => "steering has ended",
            Refusal::RequestOpen => "a request is open",
            Refusal::NotDue => "the next request is not due",
            Refusal::RequestsSpent => "100,000 requests were made",
            Refusal::BufferShort => "the buffer is too short",
            Refusal::NoSuchNumber => "there is no such number",
            Refusal::OwnUri => "the playlist's own URI is illegal",
            Refusal::Length => "the length is 0 or above 65,535",
            Refusal::Header => "the first line, or the first four bytes, are wrong",
            Refusal::Structure =>
                "an attribute list, or the count, place or length of entries, is wrong",
            Refusal::Order => "the steering line, or the kind or order of an entry, is wrong",
            Refusal::StreamWithoutUri => "a stream line has no URI line",
            Refusal::PathwayId => "a pathway ID is illegal or repeated",
            Refusal::Uri => "a URI is illegal",
            Refusal::Count =>
                "a count is outside its limits, or the steering pathway is none of them",
            Refusal::ManifestLength => "the manifest's length is 0 or above 16,384",
            Refusal::NotJson => "the text is no JSON object of the kind that is read",
            Refusal::KeyRepeated => "a known key stands twice in an object",
            Refusal::VersionAbsent => "VERSION is absent or no integer",
            Refusal::VersionUnknown => "VERSION is not 1",
            Refusal::Ttl => "TTL is absent or illegal",
            Refusal::ReloadUri => "RELOAD-URI is illegal",
            Refusal::Priority => "PATHWAY-PRIORITY is absent or illegal",
            Refusal::Clones => "PATHWAY-CLONES is illegal",
            Refusal::CloneIdTaken => "a clone's ID is taken",
            Refusal::CloneMemberLong => "a clone's member has more than 512 bytes",
        })
    }
}
