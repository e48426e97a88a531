// Sizes that every layer keeps to.

/// The most bytes of a value.
pub const VALUE_LIMIT: usize = 65_536;
