// The entries of a file with the bodies that they name, one after the other.
ghost use Rattle.std.specs.Prelude.{◌+◌, ◌≤◌, length};
ghost use Rattle.std.proofs.Props.{props};
ghost use Rattle.std.specs.List.{AllByRecursion};
ghost use Rattle.table.specs.Contents.{entries_in};

use crate::contents::Entries;
use crate::entry::Entry;

mod rules;
mod walk;

// An entry, and the body that it names.
#[derive(Clone, Copy, Drop)]
pub(crate) struct Part<'a> {
    pub(crate) entry: Entry,
    pub(crate) body: &'a [u8],
}

// The entries that are left. Their bodies lie in the file.
#[derive(Clone, Copy, Drop)]
pub(crate) struct Parts<'a> {
    file: &'a [u8],
    entries: Entries<'a>,
    ghost within: { AllByRecursion (λ e. e.place + e.size ≤ length file.now) (entries_in entries.bytes.now) } by { Prim.hlevel props },
}
