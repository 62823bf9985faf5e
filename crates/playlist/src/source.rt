// What a playlist is read from: its dialect, its own URI and its text.
use pathways::dialect::Dialect;

#[derive(Clone, Copy)]
pub struct Source<'a> {
    pub dialect: Dialect,
    pub own: &'a [u8],
    pub text: &'a [u8],
}
