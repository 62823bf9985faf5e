// Going over the parts of a file.
ghost use Rattle.std.specs.Prelude.{◌≡◌};
ghost use Rattle.std.specs.Iterator.{YieldsFirstBy, item_count};
ghost use Rattle.table.specs.Contents.{contents};
ghost use Rattle.table.specs.Parts.{shown, with_bodies, parts_left};

use super::{Part, Parts};
use crate::bodies::Bodies;

impl<'a> Iterator for Parts<'a> {
    type Item = Part<'a>;

    ghost next_gives = { YieldsFirstBy shown parts_left };

    ghost remaining = { item_count parts_left };

    fn next(&mut self) -> Option<Part<'a>> {
        let entry = self.entries.next()?;
        Some(Part {
            entry,
            body: &self.file[entry.start()..entry.end()],
        })
    }
}

impl<'a> Bodies<'a> {
    // All parts, in order.
    pub(crate) fn parts(&self) -> Parts<'a>
        ensures { parts_left result ≡ with_bodies self.now.contents.file.now (contents self.now.contents.file.now) }
    {
        Parts {
            file: self.contents.file,
            entries: self.contents.entries(),
        }
    }
}
