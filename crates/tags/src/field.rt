// A field of an attribute list: where it begins, its bytes, and where the next one begins.
#[derive(Clone, Copy, Debug, PartialEq, Eq)]
pub struct Field<'a> {
    pub place: usize,
    pub text: &'a [u8],
    pub next: usize,
}
