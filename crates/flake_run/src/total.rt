// What generated requests come to.
ghost use Rattle.std.specs.Prelude.{◌≡◌, ◌≤◌, length};
ghost use Rattle.serve_inputs.specs.Whole.{raised};
ghost use Rattle.flake_run.specs.Generated.{replies_in, sum_of};

use flake_base::SessionEnd;

/// The sum of some counts of bytes; a full sum stands still.
pub(crate) fn sum_of(counts: &[u64]) -> u64
    ensures { result ≡ raised 0 (sum_of counts.now) }
{
    let mut bytes = 0u64;
    for count in counts {
        bytes = bytes.saturating_add(*count);
    }
    bytes
}

/// How many replies there are.
pub(crate) fn replies_in(ends: &[SessionEnd]) -> u64
    requires { length ends.now ≤ 16 }
    ensures { result ≡ replies_in ends.now }
{
    let mut replies = 0u64;
    for end in ends {
        replies += u64::from(end.replies);
    }
    replies
}
