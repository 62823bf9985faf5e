// What a line of a playlist is: the steering tag, a stream's tag, the URI line of the stream tag before it, or one that is skipped.
#[derive(Clone, Copy, Debug, PartialEq, Eq)]
pub enum Kind {
    Steering,
    Stream,
    Uri,
    Other,
}
