use crate::holder::Holder;

/// What may happen to a buffer, or to a holder's credits.
#[derive(Clone, Copy, PartialEq, Eq, Debug)]
pub enum PinEvent {
    /// A buffer without holds becomes the holder's.
    Claim {
        buffer: u32,
        holder: Holder,
    },
    /// A word is written at `index`, which ends the front behind it.
    Put {
        buffer: u32,
        holder: Holder,
        index: u32,
        word: u64,
    },
    /// The front's word at `index` is read.
    Load {
        buffer: u32,
        holder: Holder,
        index: u32,
    },
    /// A hold of `from` is copied for `to`, for one of its credits.
    Pin {
        buffer: u32,
        from: Holder,
        to: Holder,
    },
    /// A hold ends. A pinned one gives its credit back.
    Unpin {
        buffer: u32,
        holder: Holder,
        pinned: bool,
    },
    /// A hold of `from` becomes one of `to`.
    Move {
        buffer: u32,
        pinned: bool,
        from: Holder,
        to: Holder,
    },
    /// Credits of `from` become credits of `to`.
    Give {
        from: Holder,
        to: Holder,
        credits: u64,
    },
}

/// What a step did.
#[derive(Clone, Copy, PartialEq, Eq, Debug)]
pub enum Change {
    Claimed,
    Put,
    /// The word that was read.
    Loaded(u64),
    Pinned,
    /// `last` where the buffer has no hold left.
    Unpinned { last: bool },
    Moved,
    Given,
}
