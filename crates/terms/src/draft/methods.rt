// Writing a text part by part.
ghost use Rattle.std.specs.Prelude.{◌≡◌, [], Some};
ghost use Rattle.std.specs.Option.{option_map};
ghost use Rattle.terms.specs.Texts.{content};
ghost use Rattle.terms.specs.Drafts.{drafted, extended};

use super::Draft;
use crate::text::Text;

impl<const N: usize> Draft<N> {
    // Nothing is written yet.
    pub fn new() -> Self
        ensures { drafted result ≡ Some [] }
    {
        Draft {
            bytes: [0; N],
            len: 0,
        }
    }

    // Writes `part` behind what was written.
    pub fn push(&mut self, part: &[u8])
        ensures { drafted self.new ≡ extended N (drafted self.old) part.now }
    {
        let start = self.len;
        self.len = start.saturating_add(part.len());
        if self.len <= N {
            let all = &mut self.bytes[..];
            all[start..self.len].copy_from_slice(part);
        }
    }

    // The text, or none where more than N bytes were written.
    pub fn finish(&self) -> Option<Text<N>>
        ensures { option_map content result ≡ drafted self.now }
    {
        Text::front(&self.bytes, self.len)
    }
}
