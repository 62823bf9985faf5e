// Text copied out to a buffer that the caller lends.
ghost use Rattle.std.specs.Prelude.{◌≡◌};
ghost use Rattle.terms.specs.Faults.{outcome};
ghost use Rattle.terms.specs.Replies.{copied};

use crate::fault::Fault;
use crate::layer::Layer;
use crate::refusal::Refusal;

// Copies `text` to the front of `buffer` and answers its length.
pub fn copy_out(text: &[u8], layer: Layer, buffer: &mut [u8]) -> Result<usize, Fault>
    ensures { record { result = outcome result; buffer = buffer.new } ≡ copied text.now layer buffer.old }
{
    let length = text.len();
    if length > buffer.len() {
        return Err(Fault {
            refusal: Refusal::BufferShort,
            place: 0,
            layer,
        });
    }
    let front = &mut buffer[0..length];
    front.copy_from_slice(text);
    Ok(length)
}
