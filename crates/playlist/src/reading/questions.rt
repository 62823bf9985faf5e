// What a playlist answers.
ghost use Rattle.std.specs.Prelude.{◌≡◌, map, length};
ghost use Rattle.std.specs.Option.{option_map};
ghost use Rattle.terms.specs.Texts.{content};
ghost use Rattle.terms.specs.Faults.{outcome};
ghost use Rattle.terms.specs.Replies.{copied};
ghost use Rattle.terms.specs.declared.layer.Layer.TheVariants.{Set};
ghost use Rattle.uri.specs.Splits.{without_fragment};
ghost use Rattle.pathways.specs.Limits.{Lawful, Described};
ghost use Rattle.pathways.specs.Questions.{numbered, id_of, members_of, member_of};
ghost use Rattle.tags.specs.Attributes.{or_nothing};
ghost use Rattle.playlist.specs.Items.{items_of, order_of};
ghost use Rattle.multivariant.specs.Views.{item};
ghost use Rattle.playlist.specs.Lookups.{nth_in};
ghost use Rattle.playlist.specs.Playlists.{playlist_pathways, playlist_meaning};

use super::Playlist;
use super::lookups::{count_streams, nth_id, nth_uri};
use multivariant::entry::Entry;
use pathways::answering::{hand_out, no_such_number};
use pathways::description::Description;
use pathways::dialect::Dialect;
use pathways::set::Pathways;
use references::resolution::resolve;
use terms::copying::copy_out;
use terms::fault::Fault;
use terms::layer::Layer;
use terms::text::Text;
use uri::splitting::without_fragment;

impl<'a> Playlist<'a> {
    // The IDs of the pathways in their order, with what follows from the check by a lemma on `sound`: `count_ids` and `numbered` hand that on
    // too, since their callers need it.
    fn ids(&self) -> &[&[u8]]
        ensures order { map (λ x. x.now) result.now ≡ order_of self.now.text.now }
        ensures lawful { Lawful (playlist_pathways self.now) }
    {
        self.order.as_slice()
    }

    fn count_ids(&self) -> usize
        ensures value { result ≡ length (playlist_pathways self.now) }
        ensures lawful { Lawful (playlist_pathways self.now) }
    {
        self.ids().len()
    }

    // The index.
    fn streams(&self) -> &[Entry<'_>]
        ensures { map item result.now ≡ items_of self.now.text.now }
    {
        self.index.as_slice()
    }

    // The ID of the pathway of a number, where there is one.
    fn numbered(&self, number: usize) -> Option<&[u8]>
        ensures id { option_map (λ x. x.now) result ≡ nth_in (order_of self.now.text.now) number }
        ensures lawful { Lawful (playlist_pathways self.now) }
    {
        nth_id(self.ids(), number)
    }

    fn id_at(&self, number: usize) -> Option<&[u8]>
        ensures { option_map (λ x. x.now) result ≡ id_of (numbered (playlist_pathways self.now) number) }
    {
        self.numbered(number)
    }

    fn members_at(&self, number: usize) -> Option<usize>
        ensures { result ≡ members_of (numbered (playlist_pathways self.now) number) }
    {
        let id = self.numbered(number)?;
        Some(count_streams(self.streams(), id))
    }

    // The dialect, with what follows from the check.
    fn own_dialect(&self) -> Dialect
        ensures value { result ≡ (playlist_meaning self.now).dialect }
        ensures described { Described (playlist_meaning self.now) (playlist_pathways self.now) }
    {
        self.dialect
    }

    // The steering server's URI, with what follows from the check.
    fn server_uri(&self) -> Option<Text<512>>
        ensures value { without_fragment (or_nothing (option_map content result)) ≡ (playlist_meaning self.now).steering }
        ensures described { Described (playlist_meaning self.now) (playlist_pathways self.now) }
    {
        resolve(self.own, self.server)
    }

    fn member_at(&self, number: usize, member: usize) -> Option<Text<512>>
        ensures { option_map content result ≡ member_of (numbered (playlist_pathways self.now) number) member }
    {
        let id = self.numbered(number)?;
        resolve(self.own, nth_uri(self.streams(), id, member)?)
    }
}

// Copies a URI without its fragment, where there is one.
fn copy_whole(uri: Option<Text<512>>, buffer: &mut [u8]) -> Result<usize, Fault>
    ensures { record { result = outcome result; buffer = buffer.new } ≡ copied (without_fragment (or_nothing (option_map content uri))) Set buffer.old }
{
    match uri {
        Some(uri) => copy_out(without_fragment(uri.as_bytes()), Layer::Set, buffer),
        None => copy_out(&[], Layer::Set, buffer),
    }
}

impl<'a> Pathways for Playlist<'a> {
    ghost pathways = { playlist_pathways };

    fn count(&self) -> usize {
        self.count_ids()
    }

    fn id(&self, number: usize, buffer: &mut [u8]) -> Result<usize, Fault> {
        hand_out(self.id_at(number), buffer)
    }

    fn members(&self, number: usize) -> Result<usize, Fault> {
        self.members_at(number).ok_or(no_such_number())
    }

    fn member(&self, number: usize, member: usize, buffer: &mut [u8]) -> Result<usize, Fault> {
        let uri = self.member_at(number, member).ok_or(no_such_number())?;
        copy_out(uri.as_bytes(), Layer::Set, buffer)
    }
}

impl<'a> Description for Playlist<'a> {
    ghost meaning = { playlist_meaning };

    fn dialect(&self) -> Dialect {
        self.own_dialect()
    }

    fn steering(&self, buffer: &mut [u8]) -> Result<usize, Fault> {
        copy_whole(self.server_uri(), buffer)
    }
}
