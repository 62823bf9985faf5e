// Reading a playlist line by line.
ghost use Rattle.std.specs.Prelude.{◌≡◌, ◌+◌, ◌<◌, ◌≤◌, true, [], ◌∷◌, length, drop, MatchOption};
ghost use Rattle.std.specs.Option.{option_map};
ghost use Rattle.tags.specs.Lines.{begins, is_written, kind_of, now_waits, ends_in_return, trimmed, line_at, rows_at, rows_of};
ghost use Rattle.tags.specs.Places.{Lies};
ghost use Rattle.tags.specs.Views.{row, shown, lines_left, whole, place_of};

use crate::kind::Kind;
use crate::line::Line;
use uri::cutting::place_of;

// Whether a line is neither a tag nor a comment nor empty.
fn is_written(line: &[u8]) -> bool
    ensures { result ≡ is_written line.now }
{
    !matches!(line, [] | [b'#', ..])
}

// What a line is, where a stream tag waits for its URI line or does not.
fn kind_of(waits: bool, line: &[u8]) -> Kind
    ensures { result ≡ kind_of waits line.now }
{
    if line.starts_with(b"#EXT-X-CONTENT-STEERING:") {
        return Kind::Steering;
    }
    if line.starts_with(b"#EXT-X-STREAM-INF:") {
        return Kind::Stream;
    }
    if waits && is_written(line) {
        return Kind::Uri;
    }
    Kind::Other
}

// Whether a stream tag waits for its URI line behind a line of that kind.
fn now_waits(waits: bool, kind: Kind) -> bool
    ensures { result ≡ now_waits waits kind }
{
    match kind {
        Kind::Stream => true,
        Kind::Uri => false,
        Kind::Steering | Kind::Other => waits,
    }
}

// A line as it is read: a CR goes where an LF stands behind it.
fn trim(ended: bool, line: &[u8]) -> &[u8]
    ensures { result.now ≡ trimmed ended line.now }
{
    match line {
        [front @ .., b'\r'] if ended => front,
        _ => line,
    }
}

pub(crate) fn rest_from(text: &[u8], at: usize) -> &[u8]
    requires { at ≤ length text.now }
    ensures { result.now ≡ drop at text.now }
{
    &text[at..]
}

// The line that begins at `at`, where the text is that long.
#[inline]
pub fn line_at(text: &[u8], at: usize, waits: bool) -> Option<Line<'_>>
    ensures value { option_map shown result ≡ line_at at waits text.now }
    ensures step { MatchOption result (rows_at at waits text.now ≡ [])
        (λ l. rows_at at waits text.now ≡ row l ∷ rows_at l.next l.waits text.now) }
    ensures forth { MatchOption result (length text.now < at) (λ l. (at < l.next) × (l.next ≤ length text.now + 1)) }
    ensures within { MatchOption result (length text.now < at) (λ l. l.place + length l.text.now ≤ length text.now) }
    ensures lies { MatchOption result (length text.now < at) (λ l. Lies text.now l.place l.text.now) }
    ensures waits { MatchOption result (length text.now < at) (λ l. l.waits ≡ now_waits waits l.kind) }
{
    if at > text.len() {
        return None;
    }
    let rest = rest_from(text, at);
    let length = place_of(b'\n', rest);
    let line = trim(length < rest.len(), &rest[0..length]);
    let kind = kind_of(waits, line);
    Some(Line {
        kind,
        place: at,
        text: line,
        next: at + length + 1,
        waits: now_waits(waits, kind),
    })
}

// The lines of a playlist from some line on, one by one.
#[derive(Clone, Copy)]
pub struct Lines<'a> {
    text: &'a [u8],
    at: usize,
    waits: bool,
}

// The lines from the one that begins at `at`, where a stream tag waits for its URI line or does not.
pub fn lines_from(text: &[u8], at: usize, waits: bool) -> Lines<'_>
    ensures left { lines_left result ≡ rows_at at waits text.now }
    ensures text { whole result ≡ text.now }
    ensures place { place_of result ≡ at }
{
    Lines { text, at, waits }
}

// All lines of a playlist.
pub fn lines_of(text: &[u8]) -> Lines<'_>
    ensures left { lines_left result ≡ rows_of text.now }
    ensures text { whole result ≡ text.now }
{
    lines_from(text, 0, false)
}

impl<'a> Iterator for Lines<'a> {
    type Item = Line<'a>;

    ghost use Rattle.std.specs.Iterator.{item_count};
    ghost use Rattle.tags.specs.Views.{lines_left, LineStep};

    ghost next_gives = { LineStep };

    ghost remaining = { item_count lines_left };

    // Inlined: the loops above go over each line a dozen times, and a call that hands a line over in memory costs more than the line does.
    #[inline(always)]
    fn next(&mut self) -> Option<Line<'a>> {
        let line = line_at(self.text, self.at, self.waits)?;
        self.at = line.next;
        self.waits = line.waits;
        Some(line)
    }
}
