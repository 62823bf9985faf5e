// Walking the parts of a checked file from pathway to pathway.
ghost use Rattle.std.specs.Prelude.{◌≡◌, length, slice_get};
ghost use Rattle.std.specs.Iterator.{YieldsFirstBy, item_count};
ghost use Rattle.std.specs.Option.{option_map};
ghost use Rattle.table.specs.Contents.{contents};
ghost use Rattle.table.specs.Reading.{pathways_in};
ghost use Rattle.table.specs.Walks.{pathway_of, pathways_left};

use crate::bodies::Bodies;
use crate::bodies::parts::Parts;

// A pathway: its ID, and the parts behind it, which begin with its members.
#[derive(Clone, Copy, Drop)]
pub(crate) struct Group<'a> {
    pub(crate) id: &'a [u8],
    behind: Parts<'a>,
}

impl<'a> Group<'a> {
    // How many members it has.
    pub(crate) fn count_members(self) -> usize
        ensures { result ≡ length (pathway_of self.entry).members }
    {
        self.behind.take_while(|part| part.is_member()).count()
    }

    // The URI of a member, where it is there.
    pub(crate) fn member(self, number: usize) -> Option<&'a [u8]>
        ensures { option_map (λ x. x.now) result ≡ slice_get (pathway_of self.entry).members number }
    {
        let part = self.behind.take_while(|part| part.is_member()).nth(number);
        part.map(|part| part.body)
    }
}

// The pathways that are left.
#[derive(Drop)]
pub(crate) struct Groups<'a> {
    parts: Parts<'a>,
}

impl<'a> Iterator for Groups<'a> {
    type Item = Group<'a>;

    ghost next_gives = { YieldsFirstBy pathway_of pathways_left };

    ghost remaining = { item_count pathways_left };

    fn next(&mut self) -> Option<Group<'a>> {
        let part = self.parts.find(|part| part.is_id())?;
        Some(Group {
            id: part.body,
            behind: self.parts,
        })
    }
}

// All pathways, in order.
pub(crate) fn pathways<'a>(bodies: &Bodies<'a>) -> Groups<'a>
    ensures { pathways_left result ≡ pathways_in bodies.now.contents.file.now (contents bodies.now.contents.file.now) }
{
    Groups {
        parts: bodies.parts(),
    }
}
