// Bytes written in small hex digits.
ghost use Rattle.std.specs.Prelude.{◌≡◌, ◌⊎◌, Some, None, IfOk, IfErr};
ghost use Rattle.reports.specs.declared.hexes.Unreadable.TheVariants.{Damaged, NoMemory};
ghost use Rattle.reports.specs.Hexes.{digit_of, byte_of, bytes_of};

use hex::FromHexError;
use std::alloc::Global;
use std::io;
use std::io::ErrorKind;

// Why no bytes were read.
#[derive(Clone, Copy, Debug, PartialEq, Eq)]
pub enum Unreadable {
    Damaged,
    NoMemory,
}

impl From<FromHexError> for Unreadable {
    ghost use Rattle.std.specs.Prelude.{◌≡◌};
    ghost use Rattle.reports.specs.Hexes.{reason_of};

    ghost from_gives = { λ e r. r ≡ reason_of e };

    fn from(error: FromHexError) -> Unreadable {
        match error {
            FromHexError::OutOfMemory => Unreadable::NoMemory,
            _ => Unreadable::Damaged,
        }
    }
}

impl From<Unreadable> for io::Error {
    ghost use Rattle.std.specs.Prelude.{◌≡◌};
    ghost use Rattle.std.specs.IoError.{error_kind};
    ghost use Rattle.reports.specs.Hexes.{kind_of};

    ghost from_gives = { λ r e. error_kind e ≡ kind_of r };

    fn from(reason: Unreadable) -> io::Error {
        match reason {
            Unreadable::Damaged => ErrorKind::InvalidData.into(),
            Unreadable::NoMemory => ErrorKind::OutOfMemory.into(),
        }
    }
}

// What a small hex digit counts.
fn digit_of(digit: u8) -> Option<u8>
    ensures { result ≡ digit_of digit }
{
    match digit {
        b'0'..=b'9' => Some(digit - b'0'),
        b'a'..=b'f' => Some(digit - b'a' + 10),
        _ => None,
    }
}

// The byte that two digits stand for. No memory is asked for, so that a reader of long words can store each byte before it looks on.
pub fn byte_of(digits: &[u8]) -> Option<u8>
    ensures { result ≡ byte_of digits.now }
{
    let [high, low] = digits else {
        return None;
    };
    Some(digit_of(*high)? * 16 + digit_of(*low)?)
}

// The bytes that the digits stand for.
pub fn bytes_of(heap: Global, digits: &str) -> Result<Vec<u8>, Unreadable>
    ensures ok { IfOk result (λ v. bytes_of digits.now ≡ Some v.items) }
    ensures err { IfErr result (λ e. (e ≡ NoMemory) ⊎ ((e ≡ Damaged) × (bytes_of digits.now ≡ None))) }
{
    if digits
        .as_bytes()
        .iter()
        .any(|digit| digit.is_ascii_uppercase())
    {
        return Err(Unreadable::Damaged);
    }
    Ok(hex::decode(heap, digits)?)
}
