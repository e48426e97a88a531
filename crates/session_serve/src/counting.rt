// Bytes of whole replies.
ghost use Rattle.std.specs.Prelude.{◌≡◌};
ghost use Rattle.session_serve.specs.Whole.{raised, whole_bytes_of};

use device_model::Gathered;

/// How many bytes were put in a whole reply.
pub(crate) fn whole_bytes(found: Gathered) -> u64
    ensures { result ≡ whole_bytes_of found }
{
    match found {
        Gathered::Sent { bytes, .. } => bytes,
        _ => 0,
    }
}

/// So many more were counted. A count that is full stands still.
pub(crate) fn counted(count: u64, more: u64) -> u64
    ensures { result ≡ raised count more }
{
    count.saturating_add(more)
}
