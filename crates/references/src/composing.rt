// Writing the text of what a reference stands for.
ghost use Rattle.std.specs.Prelude.{◌≡◌, ◌+◌, ◌≤◌, [], ◌++◌, false, length, take, drop};
ghost use Rattle.std.specs.Option.{option_map};
ghost use Rattle.references.specs.Paths.{without_dots, Absolute};
ghost use Rattle.references.specs.Resolution.{scheme_text, recomposed};
ghost use Rattle.references.specs.Views.{introduced, undotted, path_text, pieces, meant, extent, is_kept};

use crate::removal::remove_dot_segments;
use crate::target::{Target, TargetPath};
use std::marker::Model;

// The text of a URI, as it is put together: an array and a length, since there is to be no heap. There is room for the parts of two
// texts of 512 bytes, and their marks.
#[derive(Drop)]
pub(crate) struct Composition {
    bytes: [u8; 4096],
    len: usize,
}

impl Model for Composition {
    ghost use Rattle.std.specs.Prelude.{ℕ, ◌≤◌, List, take};

    ghost Value = { List ℕ };

    ghost view = { λ c. take c.len c.bytes };

    ghost invariant = { λ c. c.len ≤ 4096 };
}

impl Composition {
    pub(crate) fn new() -> Self
        ensures { result ≡ [] }
    {
        Composition {
            bytes: [0; 4096],
            len: 0,
        }
    }

    pub(crate) fn as_bytes(&self) -> &[u8]
        ensures { result.now ≡ self.now }
    {
        &self.bytes[..self.len]
    }

    // Writes `part` behind the text.
    fn push(&mut self, part: &[u8])
        requires { length self.old + length part.now ≤ 4096 }
        ensures { self.new ≡ self.old ++ part.now }
    {
        let end = self.len + part.len();
        self.bytes[self.len..end].copy_from_slice(part);
        self.len = end;
    }

    // Writes a part that may be absent, with `mark` in front of it. `rewriting` writes such parts to a draft, which may overrun, where
    // this text is known to have room: one function for both would take a trait with laws in place of these three lines.
    fn push_marked(&mut self, mark: &[u8], part: Option<&[u8]>)
        requires { length self.old + length (introduced mark.now (option_map (λ x. x.now) part)) ≤ 4096 }
        ensures { self.new ≡ self.old ++ introduced mark.now (option_map (λ x. x.now) part.entry) }
    {
        if let Some(text) = part {
            self.push(mark);
            self.push(text);
        }
    }

    // Writes a scheme and its colon, if it is there.
    fn push_scheme(&mut self, scheme: Option<&[u8]>)
        requires { length self.old + length (scheme_text (option_map (λ x. x.now) scheme)) ≤ 4096 }
        ensures { self.new ≡ self.old ++ scheme_text (option_map (λ x. x.now) scheme.entry) }
    {
        if let Some(text) = scheme {
            self.push(text);
            self.push(b":");
        }
    }

    // Removes the dot segments of the path that begins at `from` and ends the text.
    #[tactic(auto, using(crate::proofs::Writes::removed, std::proofs::lemmas::Slice::between_is))]
    fn remove_dots(&mut self, from: usize)
        requires inside { from ≤ length self.old }
        requires rooted { Absolute (drop from self.old) }
        ensures text { self.new ≡ take from self.old ++ without_dots (drop from self.old) }
        ensures bound { length self.new ≤ length self.old }
    {
        let length = remove_dot_segments(&mut self.bytes[from..self.len]);
        self.len = from + length;
    }

    // Writes the path, and removes its dot segments unless it is kept.
    fn push_path(&mut self, path: TargetPath)
        requires room { length self.old + length (path_text path) ≤ 4096 }
        requires rooted { is_kept path ≡ false → Absolute (path_text path) }
        ensures text { self.new ≡ self.old ++ undotted (is_kept path.entry) (path_text path.entry) }
        ensures bound { length self.new ≤ length self.old + length (path_text path.entry) }
    {
        match path {
            TargetPath::Kept(whole) => self.push(whole),
            TargetPath::Merged { directory, rest } => {
                let from = self.len;
                self.push(directory);
                self.push(rest);
                self.remove_dots(from);
            }
        }
    }
}

// Writes the text of the target. The caller lends the room: a composition that is handed out would be moved, and its bytes with it.
pub(crate) fn compose(target: Target, uri: &mut Composition)
    requires empty { uri.old ≡ [] }
    requires room { extent (pieces target) ≤ 4096 }
    requires rooted { (pieces target).kept ≡ false → Absolute ((pieces target).directory ++ (pieces target).parts.path) }
    ensures { uri.new ≡ recomposed (meant (pieces target.entry)) }
{
    uri.push_scheme(target.scheme);
    uri.push_marked(b"//", target.authority);
    uri.push_path(target.path);
    uri.push_marked(b"?", target.query);
    uri.push_marked(b"#", target.fragment);
}
