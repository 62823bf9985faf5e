// A stream by where it stands: the ID of its pathway, if it is given, and its URI line. The next one is to be looked for at `next`.
use crate::span::Span;

#[derive(Clone, Copy, Debug, PartialEq, Eq)]
pub struct Placed {
    pub id: Option<Span>,
    pub uri: Span,
    pub next: usize,
}
