// A stream: its tag, and its URI line. A URI line always stands behind a tag; the type doesn't say so.
use tags::line::Line;

#[derive(Clone, Copy, Debug, PartialEq, Eq)]
pub struct Stream<'a> {
    pub tag: Option<Line<'a>>,
    pub uri: Line<'a>,
}
