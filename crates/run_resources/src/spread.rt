//! Where the sessions' claims begin.
ghost use Rattle.std.specs.Prelude.{◌≡◌, ◌+◌, ◌*◌, ◌^◌, ◌<◌};

use pinned_pool::ClaimStart;

/// Where the sessions' claims begin: session i's behind the first place and i steps.
#[derive(Clone, Copy, PartialEq, Eq, Debug)]
pub struct ClaimSpread {
    pub first: ClaimStart,
    pub step: ClaimStart,
}

// So many steps behind a place, or at the greatest number.
fn behind(first: u32, step: u32, times: u16) -> u32
    ensures { first + step * times < 2 ^ 32 → result ≡ first + step * times }
{
    let place = u64::from(first) + u64::from(step) * u64::from(times);
    place.min(u64::from(u32::MAX)) as u32
}

impl ClaimSpread {
    /// The claims of all sessions begin at the first buffer of each class.
    pub const TOGETHER: ClaimSpread = ClaimSpread {
        first: ClaimStart::FIRST,
        step: ClaimStart::FIRST,
    };

    /// Where the claims of a session begin.
    pub fn start(self, session: u16) -> ClaimStart
        ensures small { self.first.small + self.step.small * session < 2 ^ 32
            → result.small ≡ self.first.small + self.step.small * session }
        ensures large { self.first.large + self.step.large * session < 2 ^ 32
            → result.large ≡ self.first.large + self.step.large * session }
    {
        ClaimStart {
            small: behind(self.first.small, self.step.small, session),
            large: behind(self.first.large, self.step.large, session),
        }
    }
}
