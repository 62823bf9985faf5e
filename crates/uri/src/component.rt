// The parts of a URI that are told apart by the bytes that may stand in them; a fragment has a query's. An enum and no closure: it
// says which part is meant, and the bytes of each stand in one place.
#[derive(Clone, Copy, Debug, PartialEq, Eq)]
pub enum Component {
    Path,
    Query,
}
