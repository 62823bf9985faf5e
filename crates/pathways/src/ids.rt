// Pathway IDs.
ghost use Rattle.std.specs.Prelude.{◌≡◌};
ghost use Rattle.pathways.specs.Limits.{legal_id};

use terms::names::is_name;

// The most bytes that a pathway ID may have.
pub const ID_BYTES: usize = 32;

// Whether `id` is a legal pathway ID.
pub fn is_legal_id(id: &[u8]) -> bool
    ensures { result ≡ legal_id id.now }
{
    is_name(id, ID_BYTES)
}
