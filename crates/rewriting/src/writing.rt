// Parts of a URI written with the marks before them.
ghost use Rattle.std.specs.Prelude.{◌≡◌, ◌∷◌};
ghost use Rattle.std.specs.Option.{option_map};
ghost use Rattle.terms.specs.Drafts.{drafted, extended};
ghost use Rattle.uri.specs.Cuts.{marked};

use terms::draft::Draft;

// Writes a part behind its mark.
pub(crate) fn write_part<const N: usize>(draft: &mut Draft<N>, mark: u8, part: &[u8])
    ensures { drafted draft.new ≡ extended N (drafted draft.old) (mark ∷ part.now) }
{
    draft.push(&[mark]);
    draft.push(part);
}

// Writes a part behind its mark, if it is there. As of `write_scheme`, `references` has its own of this.
pub(crate) fn write_marked<const N: usize>(draft: &mut Draft<N>, mark: u8, part: Option<&[u8]>)
    ensures { drafted draft.new ≡ extended N (drafted draft.old) (marked mark (option_map (λ x. x.now) part.entry)) }
{
    if let Some(text) = part {
        write_part(draft, mark, text);
    }
}
