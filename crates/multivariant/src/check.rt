// Whether a text is a legal multivariant playlist with steering.
ghost use Rattle.std.specs.Prelude.{◌≡◌, ℕ, false, List, length, codes};
ghost use Rattle.std.specs.Str.{bytes_eq};
ghost use Rattle.terms.specs.Faults.{outcome};
ghost use Rattle.terms.specs.Refusals.{number};
ghost use Rattle.pathways.specs.Rules.{verdict, done, judged};
ghost use Rattle.tags.specs.Lines.{rows_of};
ghost use Rattle.multivariant.specs.Rules.{Rule, ListThere, ListSound, NamesApart, ServerQuoted, UriLine, IdLegal, IdQuoted, UriLegal, IdKnown};
ghost use Rattle.multivariant.specs.Streams.{streams_of};
ghost use Rattle.multivariant.specs.Offences.{bad_own, bad_length, is_first, bad_header, first, bad_steering, bad_count};
ghost use Rattle.multivariant.specs.Views.{Tells};
ghost use Rattle.multivariant.specs.Checks.{outer, form, sense, checked};

use crate::counting::bad_count;
use crate::kinds::is_tag;
use crate::offences::{bad_id, bad_uri, bare_id, has_quoted_server, is_known, is_served};
use crate::steering::bad_steering;
use crate::tag::list_of;
use pathways::answering::{check_length, hold, refuse};
use tags::attributes::{is_list, repeats_name};
use tags::kind::Kind;
use tags::line::Line;
use tags::lines::lines_of;
use terms::fault::Fault;
use terms::refusal::Refusal;
use uri::legality::is_legal;

fn check_own(own: &[u8]) -> Result<(), Fault>
    ensures { done result ≡ verdict 9 (bad_own own.now) }
{
    if is_legal(own) {
        return Ok(());
    }
    Err(refuse(Refusal::OwnUri, 0))
}

// Whether the first line is `#EXTM3U`.
fn is_headed(text: &[u8]) -> bool
    ensures { result ≡ is_first (rows_of text.now) }
{
    lines_of(text)
        .next()
        .is_some_and(|line| line.text == b"#EXTM3U".as_slice())
}

fn check_header(text: &[u8]) -> Result<(), Fault>
    ensures { done result ≡ verdict 11 (bad_header (rows_of text.now)) }
{
    if is_headed(text) {
        return Ok(());
    }
    Err(refuse(Refusal::Header, 0))
}

// Refuses the text at the first of its lines of which `offence` tells a place.
fn check_lines<F: Fn(Line) -> Option<usize>>(
    text: &[u8],
    refusal: Refusal,
    offence: F,
) -> Result<(), Fault>
    requires { F.IsAlwaysCallable offence }
    ensures { (own : List ℕ) (rule : Rule) → Tells (F.post offence) own text.now rule → done result ≡ verdict (number refusal) (first own text.now rule (rows_of text.now)) }
{
    for line in lines_of(text) {
        if let Some(place) = offence(line) {
            return Err(refuse(refusal, place));
        }
    }
    Ok(())
}

// The own URI and the text are two arguments, as in the public check: a struct of both would be made there only to be taken apart here.
fn check_outer(own: &[u8], text: &[u8]) -> Result<(), Fault>
    ensures { done result ≡ judged (outer own.now text.now) }
{
    check_own(own)?;
    check_length(text)?;
    check_header(text)
}

fn check_steering(text: &[u8]) -> Result<(), Fault>
    ensures { done result ≡ verdict 13 (bad_steering (length text.now) false (rows_of text.now)) }
{
    hold(Refusal::Order, bad_steering(text))
}

// A tag has an attribute list.
fn check_lists_there(text: &[u8]) -> Result<(), Fault>
    ensures { (own : List ℕ) → done result ≡ verdict 12 (first own text.now ListThere (rows_of text.now)) }
{
    check_lines(text, Refusal::Structure, |line| {
        (is_tag(line.kind) && list_of(line).is_empty()).then_some(line.place)
    })
}

// The list has the syntax.
fn check_lists(text: &[u8]) -> Result<(), Fault>
    ensures { (own : List ℕ) → done result ≡ verdict 12 (first own text.now ListSound (rows_of text.now)) }
{
    check_lines(text, Refusal::Structure, |line| {
        (is_tag(line.kind) && !is_list(list_of(line))).then_some(line.place)
    })
}

// No name occurs twice in a list.
fn check_names(text: &[u8]) -> Result<(), Fault>
    ensures { (own : List ℕ) → done result ≡ verdict 12 (first own text.now NamesApart (rows_of text.now)) }
{
    check_lines(text, Refusal::Structure, |line| {
        (is_tag(line.kind) && repeats_name(list_of(line))).then_some(line.place)
    })
}

// A steering tag has a quoted SERVER-URI.
fn check_servers(text: &[u8]) -> Result<(), Fault>
    ensures { (own : List ℕ) → done result ≡ verdict 13 (first own text.now ServerQuoted (rows_of text.now)) }
{
    check_lines(text, Refusal::Order, |line| {
        (line.kind == Kind::Steering && !has_quoted_server(line)).then_some(line.place)
    })
}

// A stream tag has a URI line.
fn check_uri_lines(text: &[u8]) -> Result<(), Fault>
    ensures { (own : List ℕ) → done result ≡ verdict 14 (first own text.now UriLine (rows_of text.now)) }
{
    check_lines(text, Refusal::StreamWithoutUri, |line| {
        (line.kind == Kind::Stream && !is_served(text, line)).then_some(line.place)
    })
}

fn check_form(text: &[u8]) -> Result<(), Fault>
    ensures { (own : List ℕ) → done result ≡ judged (form own text.now) }
{
    check_lists_there(text)?;
    check_lists(text)?;
    check_names(text)?;
    check_steering(text)?;
    check_servers(text)?;
    check_uri_lines(text)
}

fn check_counts(text: &[u8]) -> Result<(), Fault>
    ensures { done result ≡ verdict 17 (bad_count (length text.now) (streams_of text.now)) }
{
    hold(Refusal::Count, bad_count(text))
}

// A quoted PATHWAY-ID is a legal ID.
fn check_ids(text: &[u8]) -> Result<(), Fault>
    ensures { (own : List ℕ) → done result ≡ verdict 15 (first own text.now IdLegal (rows_of text.now)) }
{
    check_lines(text, Refusal::PathwayId, |line| {
        if is_tag(line.kind) {
            bad_id(line)
        } else {
            None
        }
    })
}

// A PATHWAY-ID is quoted.
fn check_quotes(text: &[u8]) -> Result<(), Fault>
    ensures { (own : List ℕ) → done result ≡ verdict 15 (first own text.now IdQuoted (rows_of text.now)) }
{
    check_lines(text, Refusal::PathwayId, |line| {
        if is_tag(line.kind) {
            bare_id(line)
        } else {
            None
        }
    })
}

// References stand for URIs.
fn check_uris(own: &[u8], text: &[u8]) -> Result<(), Fault>
    ensures { done result ≡ verdict 16 (first own.now text.now UriLegal (rows_of text.now)) }
{
    check_lines(text, Refusal::Uri, |line| bad_uri(own, line))
}

// The pathway that the steering tag names has a stream.
fn check_known(text: &[u8]) -> Result<(), Fault>
    ensures { (own : List ℕ) → done result ≡ verdict 17 (first own text.now IdKnown (rows_of text.now)) }
{
    check_lines(text, Refusal::Count, |line| {
        (line.kind == Kind::Steering && !is_known(text, line)).then_some(line.place)
    })
}

fn check_sense(own: &[u8], text: &[u8]) -> Result<(), Fault>
    ensures { done result ≡ judged (sense own.now text.now) }
{
    check_ids(text)?;
    check_quotes(text)?;
    check_uris(own, text)?;
    check_counts(text)?;
    check_known(text)
}

// The first fault of a playlist, whose own URI is `own`. The rules are gone through one by one, each over the whole text.
pub fn check(own: &[u8], text: &[u8]) -> Result<(), Fault>
    ensures { outcome result ≡ checked own.now text.now }
{
    check_outer(own, text)?;
    check_form(text)?;
    check_sense(own, text)
}
