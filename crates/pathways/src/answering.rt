// What readers of descriptions answer with: the fault of a text, and a text that was looked up.
ghost use Rattle.std.specs.Prelude.{◌≡◌};
ghost use Rattle.std.specs.Option.{option_map};
ghost use Rattle.terms.specs.declared.layer.Layer.TheVariants.{Description, Set};
ghost use Rattle.terms.specs.Faults.{told, outcome};
ghost use Rattle.terms.specs.Refusals.{number};
ghost use Rattle.pathways.specs.Questions.{handed_out};
ghost use Rattle.pathways.specs.Rules.{verdict, done, bad_length};

use crate::limits::TEXT_BYTES;
use terms::copying::copy_out;
use terms::fault::Fault;
use terms::layer::Layer;
use terms::refusal::Refusal;

// The fault of a description's text at a place.
pub fn refuse(refusal: Refusal, place: usize) -> Fault
    ensures { told result ≡ record { number = number refusal; place = place; layer = Description } }
{
    Fault {
        refusal,
        place,
        layer: Layer::Description,
    }
}

// Refuses the text where an offence was found: at its place.
pub fn hold(refusal: Refusal, offence: Option<usize>) -> Result<(), Fault>
    ensures { done result ≡ verdict (number refusal) offence }
{
    match offence {
        Some(place) => Err(refuse(refusal, place)),
        None => Ok(()),
    }
}

// Refuses a text that is empty or too long.
pub fn check_length(text: &[u8]) -> Result<(), Fault>
    ensures { done result ≡ verdict 10 (bad_length text.now) }
{
    if text.is_empty() || text.len() > TEXT_BYTES {
        return Err(refuse(Refusal::Length, 0));
    }
    Ok(())
}

// The fault of a question for a pathway or a member that is not there.
pub fn no_such_number() -> Fault
    ensures { told result ≡ record { number = 8; place = 0; layer = Set } }
{
    Fault {
        refusal: Refusal::NoSuchNumber,
        place: 0,
        layer: Layer::Set,
    }
}

// Copies the text that was looked up, where there is one.
pub fn hand_out(text: Option<&[u8]>, buffer: &mut [u8]) -> Result<usize, Fault>
    ensures { record { result = outcome result; buffer = buffer.new } ≡ handed_out (option_map (λ x. x.now) text.entry) buffer.old }
{
    let text = text.ok_or(no_such_number())?;
    copy_out(text, Layer::Set, buffer)
}
