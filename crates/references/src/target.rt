// What a reference stands for, in pieces lent from it and from its base, before the dot segments are removed.

// The path of what a reference stands for.
#[derive(Clone, Copy)]
pub(crate) enum TargetPath<'a> {
    // The base's own path, whose dot segments stay.
    Kept(&'a [u8]),
    // A directory and the path behind it, whose dot segments go.
    Merged { directory: &'a [u8], rest: &'a [u8] },
}

#[derive(Clone, Copy)]
pub(crate) struct Target<'a> {
    pub(crate) scheme: Option<&'a [u8]>,
    pub(crate) authority: Option<&'a [u8]>,
    pub(crate) path: TargetPath<'a>,
    pub(crate) query: Option<&'a [u8]>,
    pub(crate) fragment: Option<&'a [u8]>,
}
