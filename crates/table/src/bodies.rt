// A file in which contents and bodies lie.
ghost use Rattle.std.proofs.Props.{props};
ghost use Rattle.table.specs.Contents.{Within};

use crate::contents::Contents;

pub(crate) mod parts;

#[derive(Clone, Copy)]
pub(crate) struct Bodies<'a> {
    pub(crate) contents: Contents<'a>,
    ghost within: { Within contents.file.now } by { Prim.hlevel props },
}
