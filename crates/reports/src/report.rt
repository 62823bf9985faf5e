// What is said of a text: the verdict of the check, and what the reader then tells.
use pathways::description::Description;
use pathways::dialect::Dialect;
use std::fmt;
use terms::fault::Fault;
use terms::refusal::Refusal;
use uri::legality::URI_BYTES;

// Up to so many members are listed, more are told by a digest.
const LISTED: usize = 4;

// A case by its name, with the verdict of the check and the description that the reader makes. It is printed in lines of its own.
#[derive(Clone, Copy)]
pub struct Report<'a, D> {
    pub name: &'a str,
    pub verdict: Result<(), Fault>,
    pub description: &'a D,
}

// An answer at the front of the buffer, as text.
fn text(answer: Result<usize, Fault>, buffer: &[u8]) -> &str {
    let Ok(length) = answer else {
        return "(refused)";
    };
    let Some(bytes) = buffer.get(0..length) else {
        return "(too long)";
    };
    std::str::from_utf8(bytes).unwrap_or("(no text)")
}

// Whether this is the description of the table `example`.
fn is_example<D: Description>(description: &D) -> bool {
    let mut buffer = [0; URI_BYTES];
    description.dialect() == Dialect::Dash
        && text(description.steering(&mut buffer), &buffer) == "https://s.example/a"
        && description.count() == 1
        && text(description.id(0, &mut buffer), &buffer) == "a"
        && description.members(0) == Ok(1)
        && text(description.member(0, 0, &mut buffer), &buffer) == "https://c.example/"
}

// How many members a pathway has, 0 where the reader knows no such pathway.
fn members<D: Description>(description: &D, number: usize) -> usize {
    description.members(number).unwrap_or(0)
}

// Dialect, steering URI and pathways in one line; and how many members there are.
fn write_description<D: Description, W: fmt::Write>(
    f: &mut fmt::Formatter<W>,
    description: &D,
) -> Result<usize, fmt::Error> {
    let mut buffer = [0; URI_BYTES];
    let dialect = description.dialect();
    let uri = text(description.steering(&mut buffer), &buffer);
    write!(f, "{dialect} {uri}")?;
    let mut all = 0usize;
    // Questions are asked by number: a description lends no list of its pathways or members.
    for number in 0..description.count() {
        let mut buffer = [0; URI_BYTES];
        let id = text(description.id(number, &mut buffer), &buffer);
        let count = members(description, number);
        write!(f, " {id}:{count}")?;
        all = all.saturating_add(count);
    }
    writeln!(f)?;
    Ok(all)
}

fn digested(sum: u32, byte: u8) -> u32 {
    sum.wrapping_mul(31).wrapping_add(u32::from(byte))
}

// A line for each member, in order, where they are listed; and their digest, which is the bytes of all, each member behind
// a line feed, as digits to base 31, in 32 bits.
fn write_members<D: Description, W: fmt::Write>(
    f: &mut fmt::Formatter<W>,
    description: &D,
    listed: bool,
) -> Result<u32, fmt::Error> {
    let mut sum = 0;
    // By number, as above.
    for number in 0..description.count() {
        for member in 0..members(description, number) {
            let mut buffer = [0; URI_BYTES];
            let uri = text(description.member(number, member, &mut buffer), &buffer);
            if listed {
                writeln!(f, "  {uri}")?;
            }
            sum = uri.bytes().fold(digested(sum, b'\n'), digested);
        }
    }
    Ok(sum)
}

fn write_accepted<D: Description, W: fmt::Write>(
    f: &mut fmt::Formatter<W>,
    description: &D,
) -> fmt::Result {
    let all = write_description(f, description)?;
    let listed = all <= LISTED;
    let digest = write_members(f, description, listed)?;
    if listed {
        return Ok(());
    }
    writeln!(f, "  {all} members, digest {digest}")
}

fn is_refused(answer: Result<usize, Fault>, refusal: Refusal) -> bool {
    answer.is_err_and(|fault| fault.refusal == refusal)
}

// A line for each question past the end or with an empty buffer that is not refused as it has to be.
fn write_wrong<D: Description, W: fmt::Write>(
    f: &mut fmt::Formatter<W>,
    description: &D,
) -> fmt::Result {
    let mut buffer = [0; URI_BYTES];
    let past = description.id(description.count(), &mut buffer);
    if !is_refused(past, Refusal::NoSuchNumber) {
        writeln!(f, "  wrong past the end")?;
    }
    if !is_refused(description.steering(&mut []), Refusal::BufferShort) {
        writeln!(f, "  wrong with an empty buffer")?;
    }
    Ok(())
}

impl<'a, D: Description> fmt::Display for Report<'a, D> {
    fn fmt<W: fmt::Write>(&self, f: &mut fmt::Formatter<W>) -> fmt::Result {
        let name = self.name;
        match self.verdict {
            Ok(()) => {
                write!(f, "{name} accepted ")?;
                write_accepted(f, self.description)?;
            }
            Err(fault) => {
                let number = fault.refusal.number();
                let place = fault.place;
                let layer = fault.layer;
                let given = if is_example(self.description) {
                    "example"
                } else {
                    "other"
                };
                writeln!(f, "{name} refused {number} {place} {layer} {given}")?;
            }
        }
        write_wrong(f, self.description)
    }
}
