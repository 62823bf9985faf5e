// Printing any description, by the questions that it answers.
ghost use Rattle.std.specs.Prelude.{◌≡◌, take, IfOk};

use crate::failure::Failure;
use pathways::description::Description;
use pathways::set::Pathways;
use uri::legality::URI_BYTES;

// An answer of that length at the front of the buffer, as text.
fn text(buffer: &[u8], length: usize) -> Result<&str, Failure>
    ensures { IfOk result (λ x. x.now ≡ take length buffer.now) }
{
    let bytes = buffer.get(0..length).ok_or(Failure::NoText)?;
    std::str::from_utf8(bytes).map_err(|_| Failure::NoText)
}

fn show_member<P: Pathways>(
    rt: &impl Print,
    set: &P,
    number: usize,
    member: usize,
) -> Result<(), Failure> {
    let mut buffer = [0; URI_BYTES];
    let length = set.member(number, member, &mut buffer)?;
    let uri = text(&buffer, length)?;
    Ok(println!(rt; "member {member} {uri}")?)
}

fn show_pathway<P: Pathways>(rt: &impl Print, set: &P, number: usize) -> Result<(), Failure> {
    let mut buffer = [0; URI_BYTES];
    let length = set.id(number, &mut buffer)?;
    let id = text(&buffer, length)?;
    let members = set.members(number)?;
    println!(rt; "pathway {number} {id} {members}")?;
    // Questions are asked by number: a set lends no list of its pathways or members.
    for member in 0..members {
        show_member(rt, set, number, member)?;
    }
    Ok(())
}

// Dialect and steering URI in one line, and below it each pathway with its members.
pub(crate) fn show<D: Description>(rt: &impl Print, description: &D) -> Result<(), Failure> {
    let mut buffer = [0; URI_BYTES];
    let dialect = description.dialect();
    let length = description.steering(&mut buffer)?;
    let uri = text(&buffer, length)?;
    println!(rt; "{dialect} {uri}")?;
    // By number, as above.
    for number in 0..description.count() {
        show_pathway(rt, description, number)?;
    }
    Ok(())
}
