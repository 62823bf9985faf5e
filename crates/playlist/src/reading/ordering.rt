// The order of the pathways: the steering tag's own first, the others as they first appear.
ghost use Rattle.std.specs.Prelude.{◌≡◌, [], ◌∷◌, ◌++◌, map, IfOk, OnOk};
ghost use Rattle.std.specs.Option.{option_map};
ghost use Rattle.std.specs.Str.{bytes_eq};
ghost use Rattle.multivariant.specs.Views.{item};
ghost use Rattle.playlist.specs.Items.{is_among, joining, in_order, only};

use multivariant::entry::Entry;
use std::alloc::{AllocError, Global};

// `==` under a name: the closures that ask it are proved by what it promises.
pub(crate) fn same_id(left: &[u8], right: &[u8]) -> bool
    ensures { result ≡ bytes_eq left.now right.now }
{
    left == right
}

fn is_among(order: &[&[u8]], id: &[u8]) -> bool
    ensures { result ≡ is_among id.now (map (λ x. x.now) order.now) }
{
    order.iter().any(|known| same_id(known, id))
}

// Adds an ID that is new to the order.
fn join<'a>(order: &mut Vec<&'a [u8]>, id: &'a [u8]) -> Result<(), AllocError>
    ensures { OnOk result (map (λ x. x.now) order.new.items ≡ joining id.now (map (λ x. x.now) order.old.items)) }
{
    if !is_among(order.as_slice(), id) {
        order.push(id)?;
    }
    Ok(())
}

// The order begins with the pathway that the steering tag names, if it names one.
fn begin<'a>(heap: Global, first: Option<&'a [u8]>) -> Result<Vec<&'a [u8]>, AllocError>
    ensures { IfOk result (λ v. map (λ x. x.now) v.items ≡ only (option_map (λ x. x.now) first.entry)) }
{
    let mut order = Vec::new(heap);
    if let Some(id) = first {
        order.push(id)?;
    }
    Ok(order)
}

// The order of all pathways: those of the streams in an index are added as they first appear.
pub(crate) fn order_of<'a>(
    heap: Global,
    first: Option<&'a [u8]>,
    index: &[Entry<'a>],
) -> Result<Vec<&'a [u8]>, AllocError>
    ensures { IfOk result (λ v. map (λ x. x.now) v.items ≡ in_order (only (option_map (λ x. x.now) first.entry)) (map item index.now)) }
{
    let mut order = begin(heap, first)?;
    for entry in index {
        join(&mut order, entry.id)?;
    }
    Ok(order)
}
