// Where a steering tag leads: its server's reference, and its pathway if it names one, each lent from the playlist, and where the two stand there.
use crate::span::Span;

#[derive(Clone, Copy, Debug, PartialEq, Eq)]
pub struct Steering<'a> {
    pub server: &'a [u8],
    pub id: Option<&'a [u8]>,
    pub server_span: Span,
    pub id_span: Option<Span>,
}
