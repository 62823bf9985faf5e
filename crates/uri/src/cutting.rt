// A text cut at the first of a byte.
ghost use Rattle.std.specs.Prelude.{◌≡◌, ◌≤◌, length, take, ◌==◌};
ghost use Rattle.std.specs.Option.{option_map};
ghost use Rattle.std.specs.Str.{bytes_eq};
ghost use Rattle.uri.specs.Cuts.{place, before, behind_at, behind};

// How many bytes stand before the first `byte`; where there is none, all of them.
pub fn place_of(byte: u8, text: &[u8]) -> usize
    ensures value { result ≡ place byte text.now }
    ensures within { result ≤ length text.now }
{
    text.iter().position(|x| *x == byte).unwrap_or(text.len())
}

// What stands before a place, and what stands behind it, if the text goes on there.
fn cut_at(text: &[u8], at: usize) -> (&[u8], Option<&[u8]>)
    requires { at ≤ length text.now }
    ensures front { result.0.now ≡ take at text.now }
    ensures back { option_map (λ x. x.now) result.1 ≡ behind_at at text.now }
{
    if at < text.len() {
        return (&text[0..at], Some(&text[at + 1..]));
    }
    (text, None)
}

// What stands before the first `byte`, and what stands behind it, if it is there.
pub fn cut(byte: u8, text: &[u8]) -> (&[u8], Option<&[u8]>)
    ensures front { result.0.now ≡ before byte text.now }
    ensures back { option_map (λ x. x.now) result.1 ≡ behind byte text.now }
{
    cut_at(text, place_of(byte, text))
}

// Whether the part of a list of `name=value` has the name, which ends before the first `=`, or with the part.
pub fn is_named(part: &[u8], name: &[u8]) -> bool
    ensures { result ≡ bytes_eq (before 61 part.now) name.now }
{
    let (front, _) = cut(b'=', part);
    front == name
}
