// What an entry of the contents stands for.
ghost use Rattle.std.specs.Prelude.{◌≡◌};
ghost use Rattle.table.specs.Contents.{kind_of};

#[derive(Clone, Copy, Debug, PartialEq, Eq)]
pub enum Kind {
    Steering,
    Id,
    Member,
    Unknown,
}

// The kind that a byte of the contents names.
impl From<u8> for Kind {
    ghost from_gives = { λ b k. k ≡ kind_of b };

    fn from(byte: u8) -> Kind {
        match byte {
            0 => Kind::Steering,
            1 => Kind::Id,
            2 => Kind::Member,
            _ => Kind::Unknown,
        }
    }
}
