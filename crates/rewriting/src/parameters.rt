// Setting a parameter of a URI's query.
ghost use Rattle.std.specs.Prelude.{◌≡◌, ◌∷◌};
ghost use Rattle.std.specs.Option.{option_map};
ghost use Rattle.terms.specs.Drafts.{drafted, extended};
ghost use Rattle.terms.specs.Texts.{content, bounded};
ghost use Rattle.uri.specs.Cuts.{joined_by};
ghost use Rattle.rewriting.specs.Laws.{Once, Others, Elsewhere, Again, StaysLegal};
ghost use Rattle.rewriting.specs.Parameters.{pieces, named, assigned, change_of, set_in, set_to};

use crate::change::Change;
use crate::query_parts::QueryParts;
use crate::writing::{write_marked, write_part};
use terms::draft::Draft;
use terms::text::Text;
use uri::cutting::{cut, is_named};

// A parameter that is set: its name, and the value that it is given.
#[derive(Clone, Copy)]
struct Parameter<'a> {
    name: &'a [u8],
    value: &'a [u8],
}

// What becomes of a part, by whether the parameter was set before it.
fn change_of(part: &[u8], name: &[u8], set: bool) -> Change
    ensures { result ≡ change_of (named name.now part.now) set }
{
    match (is_named(part, name), set) {
        (false, _) => Change::Kept,
        (true, false) => Change::Set,
        (true, true) => Change::Removed,
    }
}

// Writes the part that gives the name the value.
fn write_assigned<const N: usize>(draft: &mut Draft<N>, mark: u8, parameter: Parameter)
    ensures { drafted draft.new ≡ extended N (drafted draft.old) (mark ∷ assigned parameter.entry.name.now parameter.entry.value.now) }
{
    write_part(draft, mark, parameter.name);
    write_part(draft, b'=', parameter.value);
}

// Writes the new query with its `?`.
#[tactic(auto, using(crate::proofs::Steps::part_then))]
fn write_query<const N: usize>(draft: &mut Draft<N>, query: Option<&[u8]>, parameter: Parameter)
    ensures { drafted draft.new ≡ extended N (drafted draft.old) (63 ∷ joined_by 38 (set_in parameter.entry.name.now parameter.entry.value.now (pieces (option_map (λ x. x.now) query.entry)))) }
{
    let mut mark = b'?';
    let mut set = false;
    for part in QueryParts::new(query) {
        match change_of(part, parameter.name, set) {
            Change::Kept => {
                write_part(draft, mark, part);
                mark = b'&';
            }
            Change::Set => {
                write_assigned(draft, mark, parameter);
                mark = b'&';
                set = true;
            }
            Change::Removed => {}
        }
    }
    if !set {
        write_assigned(draft, mark, parameter);
    }
}

// The URI with the parameter set, in at most N bytes.
fn written<const N: usize>(uri: &[u8], parameter: Parameter) -> Option<Text<N>>
    ensures { option_map content result ≡ bounded N (set_to parameter.entry.name.now parameter.entry.value.now uri.now) }
{
    let (whole, fragment) = cut(b'#', uri);
    let (front, query) = cut(b'?', whole);
    let mut draft = Draft::new();
    draft.push(front);
    write_query(&mut draft, query, parameter);
    write_marked(&mut draft, b'#', fragment);
    draft.finish()
}

// The URI with the parameter set to the value, or none where it has more than N bytes.
pub fn set_parameter<const N: usize>(uri: &[u8], name: &[u8], value: &[u8]) -> Option<Text<N>>
    ensures value { option_map content result ≡ bounded N (set_to name.now value.now uri.now) }
    ensures once { Once name.now value.now (option_map content result) }
    ensures others { Others name.now value.now uri.now (option_map content result) }
    ensures elsewhere { Elsewhere name.now value.now uri.now (option_map content result) }
    ensures again { Again name.now value.now (option_map content result) }
    ensures legal { StaysLegal name.now value.now uri.now (option_map content result) }
{
    written(uri, Parameter { name, value })
}
