// A file whose count is there, and as many entries.
ghost use Rattle.std.specs.Prelude.{◌<◌, ◌≤◌, length};
ghost use Rattle.table.specs.Contents.{count_of, spot, entries_in};

pub(crate) mod walk;

#[derive(Clone, Copy)]
pub(crate) struct Contents<'a> {
    pub(crate) file: &'a [u8],
    ghost fits: { spot (count_of file.now) ≤ length file.now },
}

// The bytes of entries that are left, five for each.
#[derive(Clone, Copy, Drop)]
pub(crate) struct Entries<'a> {
    bytes: &'a [u8],
    ghost few: { length (entries_in bytes.now) < 65536 },
}
