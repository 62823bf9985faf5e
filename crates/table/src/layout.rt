// The first rules of a service table: its length, its header, and how contents and bodies lie in the file.
ghost use Rattle.std.specs.Prelude.{◌≡◌, ◌*◌, ◌<◌, ◌≤◌, length, drop, IfOk, OnOk, nat_lt};
ghost use Rattle.pathways.specs.Rules.{placed, verdict, done, judged};
ghost use Rattle.table.specs.Contents.{count_of, spot, contents};
ghost use Rattle.table.specs.Offences.{bad_header, count_missing, contents_long, misplaced, overlong, end_of};
ghost use Rattle.table.specs.Checks.{layout};

use crate::bodies::Bodies;
use crate::contents::Contents;
use crate::contents::walk::{pair_of, spot_of};
use pathways::answering::{check_length, hold, refuse};
use terms::fault::Fault;
use terms::refusal::Refusal;

// Where the count stands.
pub(crate) const COUNT: usize = 4;

// What follows the header: count, contents and bodies.
fn check_header(file: &[u8]) -> Result<&[u8], Fault>
    ensures answer { done result ≡ verdict 11 (bad_header file.now) }
    ensures long { OnOk result (4 ≤ length file.now) }
    ensures rest { IfOk result (λ x. x.now ≡ drop 4 file.now) }
{
    let [b'S', b'T', 1, 0 | 1, rest @ ..] = file else {
        return Err(refuse(Refusal::Header, 0));
    };
    Ok(rest)
}

// The count, which stands first behind the header.
fn check_count(file: &[u8], rest: &[u8]) -> Result<u16, Fault>
    requires long { 4 ≤ length file.now }
    requires rest { rest.now ≡ drop 4 file.now }
    ensures answer { done result ≡ verdict 12 (count_missing file.now) }
    ensures count { IfOk result (λ n. n ≡ count_of file.now) }
{
    let [high, low, ..] = rest else {
        return Err(refuse(Refusal::Structure, file.len()));
    };
    Ok(pair_of(*high, *low))
}

// As many entries are there.
fn check_contents(file: &[u8], count: u16) -> Result<Contents<'_>, Fault>
    requires { count ≡ count_of file.now }
    ensures answer { done result ≡ verdict 12 (contents_long file.now) }
    ensures same { IfOk result (λ x. x.file.now ≡ file.now) }
{
    if file.len() < spot_of(usize::from(count)) {
        return Err(refuse(Refusal::Structure, COUNT));
    }
    Ok(Contents { file })
}

// Each body begins where the one before it ends: where the last one ends.
fn check_places(table: &Contents) -> Result<usize, Fault>
    ensures answer { done result ≡ verdict 12 (misplaced 0 (spot (count_of table.now.file.now)) (contents table.now.file.now)) }
    ensures end { IfOk result (λ n. n ≡ end_of (spot (count_of table.now.file.now)) (contents table.now.file.now)) }
{
    let mut due = spot_of(usize::from(table.count()));
    for (i, entry) in table.entries().enumerate() {
        if entry.start() != due {
            return Err(refuse(Refusal::Structure, spot_of(i)));
        }
        due = entry.end();
    }
    Ok(due)
}

// Where an entry stands whose body passes the file's end.
fn find_overlong(table: &Contents) -> Option<usize>
    ensures { result ≡ overlong (length table.now.file.now) 0 (contents table.now.file.now) }
{
    let end = table.file.len();
    let offence = table.entries().position(|entry| entry.end() > end);
    offence.map(spot_of)
}

// No body passes the file's end.
fn check_lengths(table: Contents<'_>) -> Result<Bodies<'_>, Fault>
    ensures answer { done result ≡ verdict 12 (overlong (length table.entry.file.now) 0 (contents table.entry.file.now)) }
    ensures same { IfOk result (λ x. x.contents.file.now ≡ table.entry.file.now) }
{
    hold(Refusal::Structure, find_overlong(&table))?;
    Ok(Bodies { contents: table })
}

// No byte stands behind the last body.
fn check_end(file: &[u8], end: usize) -> Result<(), Fault>
    ensures { done result ≡ verdict 12 (placed (nat_lt end (length file.now)) 4) }
{
    if end < file.len() {
        return Err(refuse(Refusal::Structure, COUNT));
    }
    Ok(())
}

// The file, with what its layout keeps.
pub(crate) fn check_layout(file: &[u8]) -> Result<Bodies<'_>, Fault>
    ensures answer { done result ≡ judged (layout file.now) }
    ensures same { IfOk result (λ x. x.contents.file.now ≡ file.now) }
{
    check_length(file)?;
    let rest = check_header(file)?;
    let count = check_count(file, rest)?;
    let contents = check_contents(file, count)?;
    let end = check_places(&contents)?;
    let bodies = check_lengths(contents)?;
    check_end(file, end)?;
    Ok(bodies)
}
