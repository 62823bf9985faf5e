// A text that grows, of at most N bytes, in an array and a length: an `Option` or a `bool` in it, or a `Text<N>`, was tried, and each call at
// a parameter N would then owe that the draft's size is below 2 ^ 63.
ghost use Rattle.std.specs.Prelude.{◌≡◌, length};

mod methods;

#[derive(Clone, Copy, Debug)]
pub struct Draft<const N: usize> {
    bytes: [u8; N],
    // How many bytes were to be written, as far as a `usize` counts. Where they are more than N, they are lost.
    len: usize,
    ghost room: { length bytes ≡ N },
}
