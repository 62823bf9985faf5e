// The limits of a description, whatever form its text has.

// The most pathways.
pub const PATHWAYS: usize = 16;

// The most members of one pathway.
pub const MEMBERS: usize = 32;

// The most bytes that the text may have.
pub const TEXT_BYTES: usize = 65535;
