// The parts of a query, one by one.
ghost use Rattle.std.specs.Prelude.{◌≡◌};
ghost use Rattle.std.specs.Option.{option_map};
ghost use Rattle.std.specs.Iterator.{YieldsFirstRef, item_count};
ghost use Rattle.rewriting.specs.Parameters.{pieces};

use std::marker::Model;
use uri::cutting::cut;

// The parts that are left, as the text that they stand in, cut at each `&`.
#[derive(Drop)]
pub(crate) struct QueryParts<'a> {
    rest: Option<&'a [u8]>,
}

impl<'a> Model for QueryParts<'a> {
    ghost use Rattle.std.specs.Prelude.{ℕ, List};
    ghost use Rattle.std.specs.Option.{option_map};
    ghost use Rattle.uri.specs.Cuts.{further};

    ghost Value = { List (List ℕ) };

    ghost view = { λ p. further 38 (option_map (λ x. x.now) p.rest) };
}

impl<'a> QueryParts<'a> {
    // The parts of the query; there are none where it is absent or empty.
    pub(crate) fn new(query: Option<&'a [u8]>) -> Self
        ensures { result ≡ pieces (option_map (λ x. x.now) query.entry) }
    {
        QueryParts {
            rest: query.filter(|text| !text.is_empty()),
        }
    }
}

impl<'a> Iterator for QueryParts<'a> {
    type Item = &'a [u8];

    ghost next_gives = { YieldsFirstRef (λ p. p) };

    ghost remaining = { item_count (λ p. p) };

    #[tactic(auto, using(uri::proofs::Pieces::parts_are))]
    fn next(&mut self) -> Option<&'a [u8]> {
        let (part, rest) = cut(b'&', self.rest?);
        self.rest = rest;
        Some(part)
    }
}
