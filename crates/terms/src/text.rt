// A text of at most N bytes, kept in place: an array and a length, since a text is to be `Copy` and to need no heap.
ghost use Rattle.std.specs.Prelude.{◌≤◌};

mod methods;

#[derive(Clone, Copy, Debug)]
pub struct Text<const N: usize> {
    bytes: [u8; N],
    len: usize,
    ghost fits: { len ≤ N },
}
