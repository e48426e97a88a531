// What a command can need.
ghost use Rattle.std.specs.Prelude.{◌≡◌, ◌<◌, ◌≤◌};
ghost use Rattle.reply_layout.specs.Layout as layout;

/// The bytes of a staging buffer.
const STAGING_BYTES: usize = 512;

/// The most fragments of a value.
const MOST_FRAGS: u32 = 16;

/// The most bytes of a value that are copied: its head, a fragment below the least threshold, and its line end.
const VALUE_COPIED: usize = 521;

/// What a command can need of the ring and of the stage, whatever its parts answer.
#[derive(Clone, Copy, Debug, PartialEq, Eq)]
pub struct Need {
    /// So many descriptors.
    pub descriptors: u32,
    /// So many staging buffers.
    pub stage: u32,
}

impl Need {
    ghost use Rattle.reply_layout.specs.Need.{need, values_need, copied_need};

    /// That of one line.
    pub fn line() -> Need
        ensures { result ≡ need 1 1 }
    {
        Need {
            descriptors: 1,
            stage: 1,
        }
    }

    /// That of so many values, behind a head of so many bytes.
    pub fn values(values: usize, head: usize) -> Need
        requires { (0 < values) × (values ≤ 64) × (head ≤ 23) }
        ensures { result ≡ values_need values head }
    {
        let stage = buffers_for(head + VALUE_COPIED * values);
        let values = values as u32;
        Need {
            descriptors: MOST_FRAGS * values + values + stage,
            stage,
        }
    }

    /// That of a range of a value: it touches at most 16 fragments, of which the first and the last may be copied.
    pub fn range() -> Need
        ensures { result ≡ need 20 3 }
    {
        Need {
            descriptors: 20,
            stage: 3,
        }
    }

    /// That of so many bytes, all copied.
    pub fn copied(bytes: usize) -> Need
        requires { bytes ≤ 65536 }
        ensures { result ≡ copied_need bytes }
    {
        let stage = buffers_for(bytes);
        Need {
            descriptors: stage,
            stage,
        }
    }
}

// So many staging buffers have room for so many bytes.
fn buffers_for(bytes: usize) -> u32
    requires { bytes ≤ 65536 }
    ensures { result ≡ layout.staging_buffers_for bytes }
{
    ((bytes + STAGING_BYTES - 1) / STAGING_BYTES) as u32
}
