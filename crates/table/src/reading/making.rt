// Making a service table of any bytes.
ghost use Rattle.std.specs.Prelude.{◌≡◌, true, is_ok};
ghost use Rattle.table.specs.Checks.{checked};
ghost use Rattle.table.specs.Format.{Table, meant};
ghost use Rattle.table.specs.Tables.{example, opened, described, table_meaning};

use super::ServiceTable;
use crate::bodies::Bodies;
use crate::check::check_all;
use crate::contents::Contents;

// A table with an entry of each kind: DASH, steered by https://s.example/a, one pathway `a` with the member https://c.example/.
static EXAMPLE: [u8; 59] =
    *b"ST\x01\x01\x00\x03\x00\x00\x15\x00\x13\x01\x00\x28\x00\x01\x02\x00\x29\x00\x12https://s.example/aahttps://c.example/";

fn example_file() -> &'static [u8]
    ensures { result.now ≡ example }
{
    &EXAMPLE
}

// The example: that contents and bodies lie in it is computed.
fn example_bodies() -> Bodies<'static>
    ensures { result.contents.file.now ≡ example }
{
    let file = example_file();
    Bodies {
        contents: Contents { file },
    }
}

// The file where it passes the check, else the example's.
fn sound_bodies(file: &[u8]) -> Bodies<'_>
    ensures is { result.contents.file.now ≡ opened file.now }
    ensures sound { is_ok (checked result.contents.file.now) ≡ true }
{
    // `unwrap_or_else` was tried: the check covers no closure whose result has a lifetime that it does not capture.
    match check_all(file) {
        Ok(bodies) => bodies,
        Err(_) => example_bodies(),
    }
}

impl<'a> ServiceTable<'a> {
    // Refuses nothing: past a fault it is the example's table. A service table means what was written.
    pub fn new(file: &'a [u8]) -> ServiceTable<'a>
        ensures value { table_meaning result ≡ described file.now }
        ensures written { (t : Table file.now) → table_meaning result ≡ meant t }
    {
        let bodies = sound_bodies(file);
        ServiceTable { bodies }
    }
}
