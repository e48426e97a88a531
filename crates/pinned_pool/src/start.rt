//! Where claims begin.
ghost use Rattle.std.specs.Prelude.{◌≡◌, ◌≤◌, nat_lt, if◌then◌else◌};
ghost use Rattle.pinned_pool.specs.Starts.{start_in};

use pin_core::Class;

/// How many buffers of each class are tried last. A claim begins at the first buffer behind them.
#[derive(Clone, Copy, PartialEq, Eq, Debug)]
pub struct ClaimStart {
    pub small: u32,
    pub large: u32,
}

impl ClaimStart {
    /// Claims begin at the first buffer of each class.
    pub const FIRST: ClaimStart = ClaimStart { small: 0, large: 0 };

    // How many of so many buffers of the class are tried last: none where the start is behind them.
    pub(crate) fn last_of(self, class: Class, count: u32) -> u32
        ensures last { result ≡ (if nat_lt (start_in class self) count then start_in class self else 0) }
        ensures few { result ≤ count }
    {
        let last = match class {
            Class::Small => self.small,
            Class::Large => self.large,
        };
        if last < count { last } else { 0 }
    }
}
