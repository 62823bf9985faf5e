// What becomes of a part of a query where a parameter is set.
#[derive(Clone, Copy, Debug, PartialEq, Eq)]
pub enum Change {
    Kept,
    Set,
    Removed,
}
