// A refusal with the place of the offence in the text and the layer that found it.
use crate::layer::Layer;
use crate::refusal::Refusal;
use std::fmt;

#[derive(Clone, Copy, Debug, PartialEq, Eq)]
pub struct Fault {
    pub refusal: Refusal,
    pub place: usize,
    pub layer: Layer,
}

// Number, place and layer, and then the reason in plain words.
impl fmt::Display for Fault {
    fn fmt<W: fmt::Write>(&self, f: &mut fmt::Formatter<W>) -> fmt::Result {
        let Fault {
            refusal,
            place,
            layer,
        } = *self;
        let number = refusal.number();
        write!(f, "{number} {place} {layer} {refusal}")
    }
}
