// A set of pathways, which answers four questions by what it means.
ghost use Rattle.std.specs.Prelude.{◌≡◌, List, length};
ghost use Rattle.terms.specs.Faults.{outcome};
ghost use Rattle.pathways.specs.Meaning.{Pathway};
ghost use Rattle.pathways.specs.Limits.{Lawful};
ghost use Rattle.pathways.specs.Questions.{id_reply, members_reply, member_reply};

use terms::fault::Fault;

// Pathways and their members are numbered from 0. A question changes nothing but the buffer that it is lent.
pub trait Pathways {
    ghost pathways: { Self → List Pathway };

    // How many pathways there are. What they are keeps the limits.
    fn count(&self) -> usize
        ensures value { result ≡ length (pathways self.now) }
        ensures lawful { Lawful (pathways self.now) };

    // The ID of a pathway, copied to the front of `buffer`: its length.
    fn id(&self, number: usize, buffer: &mut [u8]) -> Result<usize, Fault>
        ensures { record { result = outcome result; buffer = buffer.new } ≡ id_reply (pathways self.now) number buffer.old };

    // How many members a pathway has.
    fn members(&self, number: usize) -> Result<usize, Fault>
        ensures { outcome result ≡ members_reply (pathways self.now) number };

    // The URI of a member, copied to the front of `buffer`: its length.
    fn member(&self, number: usize, member: usize, buffer: &mut [u8]) -> Result<usize, Fault>
        ensures { record { result = outcome result; buffer = buffer.new } ≡ member_reply (pathways self.now) number member buffer.old };
}
