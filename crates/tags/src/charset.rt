// The bytes that may stand in a part of an attribute: in its name, between quotes, and in a value without them. An enum and no
// closure: it says which part is meant, and the bytes of each stand in one place.
#[derive(Clone, Copy, Debug, PartialEq, Eq)]
pub enum Charset {
    Name,
    Quoted,
    Plain,
}
