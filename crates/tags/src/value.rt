// The value of an attribute: where it begins in its list, and its bytes, quotes included.
#[derive(Clone, Copy, Debug, PartialEq, Eq)]
pub struct Value<'a> {
    pub place: usize,
    pub text: &'a [u8],
}
