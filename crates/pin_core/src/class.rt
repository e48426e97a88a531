/// The two kinds of buffers.
#[derive(Clone, Copy, PartialEq, Eq, Debug)]
pub enum Class {
    /// 512 bytes, which are 64 data words.
    Small,
    /// 4,096 bytes, which are 512 data words.
    Large,
}

/// How many buffers of each class have a hold.
#[derive(Clone, Copy, PartialEq, Eq, Debug)]
pub struct Held {
    pub small: u32,
    pub large: u32,
}
