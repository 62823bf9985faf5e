// What a segment of a path is: `.`, the place where it stands; `..`, the one above it; or any other.
#[derive(Clone, Copy, Debug, PartialEq, Eq)]
pub enum Segment {
    Here,
    Above,
    Plain,
}
