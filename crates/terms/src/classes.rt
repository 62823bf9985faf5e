// The classes of a byte, by one table.
ghost use Rattle.std.specs.Prelude.{◌≡◌, true, length};
ghost use Rattle.terms.specs.Classes.{obeys, classes, unreserved, sub_delimiter, hex_digit, name_byte};
ghost use Rattle.terms.specs.Members.{class_bit, belongs};

// The four sets of bytes that texts are judged by.
#[derive(Clone, Copy, Debug, PartialEq, Eq)]
enum Class {
    Unreserved,
    SubDelimiter,
    HexDigit,
    NameByte,
}

impl Class {
    // The class's bit in an entry of the table.
    fn bit(self) -> u8
        ensures { result ≡ class_bit self }
    {
        match self {
            Class::Unreserved => 1,
            Class::SubDelimiter => 2,
            Class::HexDigit => 4,
            Class::NameByte => 8,
        }
    }
}

// An entry holds the classes of its byte, a bit for each: as structs of four flags they would not read as a table.
const CLASSES: [u8; 256] = [
    0, 0, 0, 0, 0, 0, 0, 0, 0, 0, 0, 0, 0, 0, 0, 0, 0, 0, 0, 0, 0, 0, 0, 0, 0, 0, 0, 0, 0, 0, 0, 0,
    0, 2, 0, 0, 2, 0, 2, 2, 2, 2, 2, 2, 2, 9, 9, 0, 13, 13, 13, 13, 13, 13, 13, 13, 13, 13, 0, 2,
    0, 2, 0, 0, 0, 13, 13, 13, 13, 13, 13, 9, 9, 9, 9, 9, 9, 9, 9, 9, 9, 9, 9, 9, 9, 9, 9, 9, 9, 9,
    9, 0, 0, 0, 0, 9, 0, 13, 13, 13, 13, 13, 13, 9, 9, 9, 9, 9, 9, 9, 9, 9, 9, 9, 9, 9, 9, 9, 9, 9,
    9, 9, 9, 0, 0, 0, 1, 0, 0, 0, 0, 0, 0, 0, 0, 0, 0, 0, 0, 0, 0, 0, 0, 0, 0, 0, 0, 0, 0, 0, 0, 0,
    0, 0, 0, 0, 0, 0, 0, 0, 0, 0, 0, 0, 0, 0, 0, 0, 0, 0, 0, 0, 0, 0, 0, 0, 0, 0, 0, 0, 0, 0, 0, 0,
    0, 0, 0, 0, 0, 0, 0, 0, 0, 0, 0, 0, 0, 0, 0, 0, 0, 0, 0, 0, 0, 0, 0, 0, 0, 0, 0, 0, 0, 0, 0, 0,
    0, 0, 0, 0, 0, 0, 0, 0, 0, 0, 0, 0, 0, 0, 0, 0, 0, 0, 0, 0, 0, 0, 0, 0, 0, 0, 0, 0, 0, 0, 0, 0,
    0, 0, 0, 0, 0, 0, 0, 0,
];

// The table, with its rule: proved once, over all entries.
fn table() -> &'static [u8; 256]
    ensures rule { obeys classes 0 result.now ≡ true }
    ensures len { length result.now ≡ 256 }
{
    &CLASSES
}

// Whether a byte is of the class: its entry has the class's bit.
fn is_of(byte: u8, class: Class) -> bool
    ensures { result ≡ belongs class byte }
{
    table()[usize::from(byte)] & class.bit() != 0
}

// A letter, a digit, `-`, `.`, `_` or `~`.
pub fn is_unreserved(byte: u8) -> bool
    ensures { result ≡ unreserved byte }
{
    is_of(byte, Class::Unreserved)
}

// One of `!$&'()*+,;=`.
pub fn is_sub_delimiter(byte: u8) -> bool
    ensures { result ≡ sub_delimiter byte }
{
    is_of(byte, Class::SubDelimiter)
}

// A digit or one of A to F, in either case.
pub fn is_hex_digit(byte: u8) -> bool
    ensures { result ≡ hex_digit byte }
{
    is_of(byte, Class::HexDigit)
}

// A byte of a host or of a pathway ID: a letter, a digit, `.`, `-` or `_`.
pub fn is_name_byte(byte: u8) -> bool
    ensures { result ≡ name_byte byte }
{
    is_of(byte, Class::NameByte)
}
