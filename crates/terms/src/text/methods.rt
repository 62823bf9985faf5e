// Making a bounded text, and lending its bytes.
ghost use Rattle.std.specs.Prelude.{◌≡◌, ◌<◌, ◌≤◌, cond, length, take, Some, None, nat_le};
ghost use Rattle.std.specs.Option.{option_map};
ghost use Rattle.terms.specs.Texts.{content, bounded};

use super::Text;
use crate::draft::Draft;

impl<const N: usize> Text<N> {
    // The text, or none where it has more than N bytes.
    pub fn new(text: &[u8]) -> Option<Self>
        ensures { option_map content result ≡ bounded N text.now }
    {
        if text.len() > N {
            return None;
        }
        let mut draft = Draft::new();
        draft.push(text);
        draft.finish()
    }

    // The first `len` bytes, or none where there are not so many. The array is lent, so that it is copied only where a text is made of it.
    pub(crate) fn front(bytes: &[u8; N], len: usize) -> Option<Self>
        ensures { option_map content result ≡ cond (nat_le len N) (Some (take len bytes.now)) None }
    {
        if len > N {
            return None;
        }
        Some(Text { bytes: *bytes, len })
    }

    pub fn as_bytes(&self) -> &[u8]
        ensures { result.now ≡ content self.now }
    {
        let all = &self.bytes[..];
        &all[0..self.len]
    }
}
