//! How long values and fragments are.

/// The most bytes of a fragment.
pub const FRAG_BYTES: usize = 4096;

/// The most fragments of a value.
pub const MOST_FRAGS: usize = 16;

/// The most bytes of a fragment in a small buffer.
pub const SMALL_BYTES: usize = 512;
