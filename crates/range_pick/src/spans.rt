/// Bytes of a value that follow each other: the place of the first, and how many they are. An empty span lies within
/// the value too.
#[derive(Clone, Copy, Debug, PartialEq, Eq)]
pub struct Span {
    pub from: u64,
    pub len: u64,
}
