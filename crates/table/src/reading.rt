// A service table that was checked. It lends the file's bytes and finds its answers in them.
ghost use Rattle.std.specs.Prelude.{◌≡◌, true, is_ok};
ghost use Rattle.table.specs.Checks.{checked};

use crate::bodies::Bodies;

mod making;
mod questions;
mod walking;

#[derive(Drop)]
pub struct ServiceTable<'a> {
    bodies: Bodies<'a>,
    ghost sound: { is_ok (checked bodies.contents.file.now) ≡ true },
}
