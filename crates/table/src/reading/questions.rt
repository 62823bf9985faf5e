// What a service table answers.
ghost use Rattle.std.specs.Prelude.{◌≡◌, ◌<◌, length};
ghost use Rattle.std.specs.Option.{option_map};
ghost use Rattle.pathways.specs.Limits.{Lawful, Described};
ghost use Rattle.pathways.specs.Questions.{numbered};
ghost use Rattle.table.specs.Contents.{dialect_by, contents};
ghost use Rattle.table.specs.Tables.{table_pathways, table_meaning};
ghost use Rattle.table.specs.Walks.{pathway_of};

use super::ServiceTable;
use super::walking::{Group, pathways};
use crate::bodies::Bodies;
use pathways::answering::{hand_out, no_such_number};
use pathways::description::Description;
use pathways::dialect::Dialect;
use pathways::set::Pathways;
use terms::copying::copy_out;
use terms::fault::Fault;
use terms::layer::Layer;
use uri::splitting::without_fragment;

// The dialect that the fourth byte names. No `From`: the byte is this format's alone, and `Dialect` another crate's.
fn dialect_by(byte: u8) -> Dialect
    ensures { result ≡ dialect_by byte }
{
    match byte {
        0 => Dialect::Hls,
        _ => Dialect::Dash,
    }
}

impl<'a> ServiceTable<'a> {
    // The file, with all that follows from its having passed the check.
    fn checked(&self) -> Bodies<'a>
        ensures is { result.contents.file.now ≡ self.now.bodies.contents.file.now }
        ensures lawful { Lawful (table_pathways self.now) }
        ensures some { 0 < length (contents result.contents.file.now) }
        ensures described { Described (table_meaning self.now) (table_pathways self.now) }
    {
        self.bodies
    }

    // The pathway of a number, where there is one.
    fn pathway(&self, number: usize) -> Option<Group<'a>>
        ensures { option_map pathway_of result ≡ numbered (table_pathways self.now) number }
    {
        pathways(&self.bodies).nth(number)
    }
}

impl<'a> Pathways for ServiceTable<'a> {
    ghost pathways = { table_pathways };

    fn count(&self) -> usize {
        pathways(&self.checked()).count()
    }

    fn id(&self, number: usize, buffer: &mut [u8]) -> Result<usize, Fault> {
        let id = self.pathway(number).map(|group| group.id);
        hand_out(id, buffer)
    }

    fn members(&self, number: usize) -> Result<usize, Fault> {
        let group = self.pathway(number).ok_or(no_such_number())?;
        Ok(group.count_members())
    }

    fn member(&self, number: usize, member: usize, buffer: &mut [u8]) -> Result<usize, Fault> {
        let uri = self.pathway(number).and_then(|group| group.member(member));
        hand_out(uri, buffer)
    }
}

impl<'a> Description for ServiceTable<'a> {
    ghost meaning = { table_meaning };

    fn dialect(&self) -> Dialect {
        let file = self.checked().contents.file;
        dialect_by(file[3])
    }

    fn steering(&self, buffer: &mut [u8]) -> Result<usize, Fault> {
        // The first body, up to its fragment. A file that passed the check has one.
        let first = self.checked().parts().next().unwrap();
        copy_out(without_fragment(first.body), Layer::Set, buffer)
    }
}
