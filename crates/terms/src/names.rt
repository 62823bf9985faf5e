// Texts of name bytes: hosts and pathway IDs.
ghost use Rattle.std.specs.Prelude.{◌≡◌};
ghost use Rattle.terms.specs.Classes.{is_name};

use crate::classes::is_name_byte;

// Whether `text` has 1 to `most` bytes, all of them name bytes.
pub fn is_name(text: &[u8], most: usize) -> bool
    ensures { result ≡ is_name most text.now }
{
    if text.len() < 1 || text.len() > most {
        return false;
    }
    text.iter().all(|byte| is_name_byte(*byte))
}
