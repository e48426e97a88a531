ghost use Rattle.std.specs.Prelude.{◌≡◌};
ghost use Rattle.shard_part.specs.Settings.{setting_of};
ghost use Rattle.shard_part.specs.Parts.{takes_value};

use crate::{Setting, When};

/// What is done to a key.
#[derive(Clone, Copy, Debug, PartialEq, Eq)]
pub enum PartOp {
    Get,
    Set,
    /// A set of a key that is missing.
    SetNx,
    /// A set of a key that is there.
    SetXx,
    /// A set that answers the value that the key had; so do the two behind it.
    SetGet,
    SetNxGet,
    SetXxGet,
    Append,
    Del,
    Exists,
    StrLen,
    /// The bytes from one place to another, both included. Places count from 0, and those below 0 from the value's end.
    GetRange { start: i64, end: i64 },
}

impl PartOp {
    /// How the part sets its key, if it does.
    pub fn setting(self) -> Option<Setting>
        ensures { result ≡ setting_of self }
    {
        let (when, asks) = match self {
            PartOp::Set => (When::Always, false),
            PartOp::SetNx => (When::IfMissing, false),
            PartOp::SetXx => (When::IfPresent, false),
            PartOp::SetGet => (When::Always, true),
            PartOp::SetNxGet => (When::IfMissing, true),
            PartOp::SetXxGet => (When::IfPresent, true),
            _ => return None,
        };
        Some(Setting { when, asks })
    }

    /// Whether the part takes a value: the sets and `Append` do.
    pub fn takes_value(self) -> bool
        ensures { result ≡ takes_value self }
    {
        match self {
            PartOp::Set
            | PartOp::SetNx
            | PartOp::SetXx
            | PartOp::SetGet
            | PartOp::SetNxGet
            | PartOp::SetXxGet
            | PartOp::Append => true,
            _ => false,
        }
    }
}

/// What a command asks of one key. The value is empty but for the sets and `Append`.
#[derive(Clone, Copy, Debug)]
pub struct Part<'a> {
    pub op: PartOp,
    pub key: &'a [u8],
    pub value: &'a [u8],
}
