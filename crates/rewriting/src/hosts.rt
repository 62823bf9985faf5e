// Replacing a URI's host.
ghost use Rattle.std.specs.Prelude.{◌≡◌, ◌∷◌};
ghost use Rattle.std.specs.Option.{option_map};
ghost use Rattle.terms.specs.Drafts.{drafted, extended};
ghost use Rattle.terms.specs.Texts.{content, bounded};
ghost use Rattle.rewriting.specs.Hosts.{schemed, rehosted, with_host};
ghost use Rattle.rewriting.specs.Laws.{NewHost, HostAlone, HostLegal};

use crate::writing::write_marked;
use terms::draft::Draft;
use terms::text::Text;
use uri::cutting::cut;
use uri::splitting::split;

// Writes the scheme, if there is one, with its colon. (`references` writes such parts to a text that is known to have room, and says there
// why the two stay apart.)
fn write_scheme<const N: usize>(draft: &mut Draft<N>, scheme: Option<&[u8]>)
    ensures { drafted draft.new ≡ extended N (drafted draft.old) (schemed (option_map (λ x. x.now) scheme.entry)) }
{
    if let Some(text) = scheme {
        draft.push(text);
        draft.push(b":");
    }
}

// Writes the authority with its `//`: the host, and behind it the port of the old authority.
fn write_authority<const N: usize>(draft: &mut Draft<N>, host: &[u8], authority: &[u8])
    ensures { drafted draft.new ≡ extended N (drafted draft.old) (47 ∷ 47 ∷ rehosted host.now authority.now) }
{
    let (_, port) = cut(b':', authority);
    draft.push(b"//");
    draft.push(host);
    write_marked(draft, b':', port);
}

// The URI with the host, in at most N bytes.
#[tactic(auto, using(crate::proofs::Written::five_written, crate::proofs::Written::host_written))]
fn written<const N: usize>(uri: &[u8], host: &[u8]) -> Option<Text<N>>
    ensures { option_map content result ≡ bounded N (with_host host.now uri.now) }
{
    let parts = split(uri);
    let Some(authority) = parts.authority else {
        return Text::new(uri);
    };
    let mut draft = Draft::new();
    write_scheme(&mut draft, parts.scheme);
    write_authority(&mut draft, host, authority);
    draft.push(parts.path);
    write_marked(&mut draft, b'?', parts.query);
    write_marked(&mut draft, b'#', parts.fragment);
    draft.finish()
}

// The URI with another host, or none where it has more than N bytes. A text without an authority stays as it is.
pub fn replace_host<const N: usize>(uri: &[u8], host: &[u8]) -> Option<Text<N>>
    ensures value { option_map content result ≡ bounded N (with_host host.now uri.now) }
    ensures host { NewHost host.now uri.now (option_map content result) }
    ensures alone { HostAlone host.now uri.now (option_map content result) }
    ensures legal { HostLegal host.now uri.now (option_map content result) }
{
    written(uri, host)
}
