// The later rules of a service table: kinds and their order, IDs, URIs and counts.
ghost use Rattle.std.specs.Prelude.{◌≡◌, ◌<◌, not, ◌&&◌, ◌==◌, [], length, take};
ghost use Rattle.std.specs.Option.{option_to_list};
ghost use Rattle.pathways.specs.Rules.{verdict, done, judged};
ghost use Rattle.table.specs.Contents.{contents, is_id};
ghost use Rattle.table.specs.Reading.{pathways_in};
ghost use Rattle.table.specs.Offences.{unknown_kind, follows, out_of_order, bad_id, has_id, repeated, bad_uri, excess, ids_now, members_now, bad_count};
ghost use Rattle.table.specs.Checks.{sense};

use crate::bodies::Bodies;
use crate::bodies::parts::Part;
use crate::contents::Contents;
use crate::contents::walk::spot_of;
use crate::entry::Entry;
use crate::kind::Kind;
use crate::layout::COUNT;
use pathways::answering::{hold, refuse};
use pathways::limits::{MEMBERS, PATHWAYS};
use terms::fault::Fault;
use terms::refusal::Refusal;

// No entry is of an unknown kind.
fn check_kinds(table: &Contents) -> Result<(), Fault>
    ensures { done result ≡ verdict 13 (unknown_kind 0 (contents table.now.file.now)) }
{
    let offence = table
        .entries()
        .position(|entry| entry.kind == Kind::Unknown);
    hold(Refusal::Order, offence.map(spot_of))
}

// Whether an entry may stand behind the one before it.
fn may_follow(before: Option<Kind>, kind: Kind) -> bool
    ensures { result ≡ follows before kind }
{
    matches!(
        (before, kind),
        (None, Kind::Steering)
            | (Some(Kind::Steering), Kind::Id)
            | (Some(Kind::Id | Kind::Member), Kind::Id | Kind::Member)
    )
}

// There are entries, and each may stand behind the one before it.
fn check_order(table: &Contents) -> Result<(), Fault>
    ensures { done result ≡ verdict 13 (out_of_order (contents table.now.file.now)) }
{
    if table.count() == 0 {
        return Err(refuse(Refusal::Order, COUNT));
    }
    let mut before = None;
    for (i, entry) in table.entries().enumerate() {
        if !may_follow(before, entry.kind) {
            return Err(refuse(Refusal::Order, spot_of(i)));
        }
        before = Some(entry.kind);
    }
    Ok(())
}

// Each ID is legal.
fn check_ids(table: &Bodies) -> Result<(), Fault>
    ensures { done result ≡ verdict 15 (bad_id table.now.contents.file.now (contents table.now.contents.file.now)) }
{
    let offence = table.parts().find(|part| part.is_bad_id());
    hold(Refusal::PathwayId, offence.map(|part| part.entry.start()))
}

// Whether the ID stands among the first `end` entries.
fn stands_before(table: &Bodies, end: usize, id: &[u8]) -> bool
    ensures { result ≡ has_id table.now.contents.file.now id.now (take end (contents table.now.contents.file.now)) }
{
    table.parts().take(end).any(|part| part.is_that_id(id))
}

// Whether part `i` is an ID that stands before it already.
fn is_repeat(table: &Bodies, i: usize, part: &Part) -> bool
    ensures { result ≡ (is_id part.now.entry.kind && has_id table.now.contents.file.now part.now.body.now (take i (contents table.now.contents.file.now))) }
{
    part.is_id() && stands_before(table, i, part.body)
}

// No ID stands twice.
fn check_repeats(table: &Bodies) -> Result<(), Fault>
    ensures { done result ≡ verdict 15 (repeated table.now.contents.file.now [] (contents table.now.contents.file.now)) }
{
    let offence = table
        .parts()
        .enumerate()
        .find(|(i, part)| is_repeat(table, *i, part));
    hold(
        Refusal::PathwayId,
        offence.map(|(_, part)| part.entry.start()),
    )
}

// Each body that is no ID is a legal URI.
fn check_uris(table: &Bodies) -> Result<(), Fault>
    ensures { done result ≡ verdict 16 (bad_uri table.now.contents.file.now (contents table.now.contents.file.now)) }
{
    let offence = table.parts().find(|part| part.is_bad_uri());
    hold(Refusal::Uri, offence.map(|part| part.entry.start()))
}

// How many IDs stood so far, and how many members of the latest.
#[derive(Clone, Copy)]
struct Tally {
    ids: usize,
    members: usize,
}

impl Tally {
    // Whether an entry with such a one behind it is one too many, or an ID that no member follows.
    fn is_passed(self, kind: Kind, next: Option<Entry>) -> bool
        ensures { result ≡ excess self.ids self.members kind (option_to_list next) }
    {
        match kind {
            Kind::Id => self.ids >= PATHWAYS
                || !next.is_some_and(|entry| entry.kind == Kind::Member),
            Kind::Member => self.members >= MEMBERS,
            Kind::Steering | Kind::Unknown => false,
        }
    }

    // The tally behind an entry.
    fn behind(self, kind: Kind) -> Tally
        requires ids { self.ids < 65536 }
        requires members { self.members < 65536 }
        ensures ids { result.ids ≡ ids_now self.ids kind }
        ensures members { result.members ≡ members_now self.members kind }
    {
        match kind {
            Kind::Id => Tally {
                ids: self.ids + 1,
                members: 0,
            },
            Kind::Member => Tally {
                members: self.members + 1,
                ..self
            },
            Kind::Steering | Kind::Unknown => Tally { members: 0, ..self },
        }
    }
}

// Whether there is a pathway.
fn has_pathway(table: &Contents) -> bool
    ensures { result ≡ not (length (pathways_in table.now.file.now (contents table.now.file.now)) == 0) }
{
    table.entries().any(|entry| entry.kind == Kind::Id)
}

// There are 1 to 16 pathways, each with 1 to 32 members.
fn check_counts(table: &Contents) -> Result<(), Fault>
    ensures { done result ≡ verdict 17 (bad_count table.now.file.now (contents table.now.file.now)) }
{
    if !has_pathway(table) {
        return Err(refuse(Refusal::Count, COUNT));
    }
    let mut tally = Tally { ids: 0, members: 0 };
    // Goes one entry ahead.
    let mut ahead = table.entries();
    ahead.next();
    for (i, entry) in table.entries().enumerate() {
        if tally.is_passed(entry.kind, ahead.next()) {
            return Err(refuse(Refusal::Count, spot_of(i)));
        }
        tally = tally.behind(entry.kind);
    }
    Ok(())
}

// The rules of kinds, IDs, URIs and counts.
pub(crate) fn check_sense(table: &Bodies) -> Result<(), Fault>
    ensures { done result ≡ judged (sense table.now.contents.file.now) }
{
    check_kinds(&table.contents)?;
    check_order(&table.contents)?;
    check_ids(table)?;
    check_repeats(table)?;
    check_uris(table)?;
    check_counts(&table.contents)
}
