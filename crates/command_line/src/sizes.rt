ghost use Rattle.std.specs.Prelude.{◌≡◌, ◌≤◌, IfSome, Some, None, codes};
ghost use Rattle.clap.specs.Matches.{found_of};
ghost use Rattle.clap.specs.Walk.{rows_of};
ghost use Rattle.flake_model.specs.Range.{signed_of};
ghost use Rattle.command_line.specs.Sizes.{AreAllowed, dump_in, number_between, size_in, sizes_in, workers_limits};

use clap::ArgMatches;
use range_pick::read_signed;

/// How much of everything a run is given.
#[derive(Clone, Copy, Debug, PartialEq, Eq)]
pub struct SizeOptions {
    pub shards: u16,
    /// How many buffers of each class the pool has.
    pub small: u32,
    pub large: u32,
    /// How many descriptors the ring has.
    pub ring: u32,
    /// A run of a stored fragment with at least so many bytes stays where it lies.
    pub threshold: u32,
}

/// What an option may say, and what holds without it.
#[derive(Clone, Copy)]
struct Limits {
    least: u32,
    most: u32,
    usual: u32,
}

const SHARDS: Limits = Limits {
    least: 1,
    most: 16,
    usual: 8,
};

const SMALL: Limits = Limits {
    least: 128,
    most: 65_536,
    usual: 4096,
};

const LARGE: Limits = Limits {
    least: 1,
    most: 16_384,
    usual: 1024,
};

const RING: Limits = Limits {
    least: 1160,
    most: 4096,
    usual: 1160,
};

const WORKERS: Limits = Limits {
    least: 1,
    most: 16,
    usual: 1,
};

const THRESHOLD: Limits = Limits {
    least: 1,
    most: 512,
    usual: 512,
};

/// The sizes that the options ask for.
pub(crate) fn sizes_in(matches: &ArgMatches<'_>) -> Option<SizeOptions>
    ensures value { result ≡ sizes_in (rows_of (found_of matches.now)) }
    ensures allowed { IfSome result AreAllowed }
{
    let shards = size_in(matches, "shards", SHARDS)?;
    let small = size_in(matches, "small", SMALL)?;
    let large = size_in(matches, "large", LARGE)?;
    let ring = size_in(matches, "ring", RING)?;
    let threshold = size_in(matches, "threshold", THRESHOLD)?;
    if !ring.is_multiple_of(8) {
        return None;
    }
    Some(SizeOptions {
        shards: shards as u16,
        small,
        large,
        ring,
        threshold,
    })
}

/// How many workers serve so many files: one for each, where the words don't say.
pub(crate) fn workers_in(matches: &ArgMatches<'_>, files: u16) -> Option<u16>
    requires { (1 ≤ files) × (files ≤ 16) }
    ensures value { result ≡ size_in (codes "workers") (workers_limits files) (rows_of (found_of matches.now)) }
    ensures within { IfSome result (λ workers. (1 ≤ workers) × (workers ≤ 16)) }
{
    let limits = Limits {
        usual: u32::from(files),
        ..WORKERS
    };
    let workers = size_in(matches, "workers", limits)?;
    Some(workers as u16)
}

/// The call before which a dump is taken, which the words needn't say; none where they say no number of a call.
pub(crate) fn dump_in(matches: &ArgMatches<'_>) -> Option<Option<u32>>
    ensures { result ≡ dump_in (rows_of (found_of matches.now)) }
{
    match matches.get_str("dump") {
        Some(text) => {
            let call = number_between(0, u32::MAX, text)?;
            Some(Some(call))
        }
        None => Some(None),
    }
}

// The size that an option gives.
fn size_in(matches: &ArgMatches<'_>, name: &str, limits: Limits) -> Option<u32>
    requires { (limits.least ≤ limits.usual) × (limits.usual ≤ limits.most) }
    ensures value { result ≡ size_in name.now limits (rows_of (found_of matches.now)) }
    ensures within { IfSome result (λ size. (limits.least ≤ size) × (size ≤ limits.most)) }
{
    match matches.get_str(name) {
        Some(text) => number_between(limits.least, limits.most, text),
        None => Some(limits.usual),
    }
}

/// The plain decimal between these.
pub(crate) fn number_between(least: u32, most: u32, text: &str) -> Option<u32>
    ensures value { result ≡ number_between least most (signed_of text.now) }
    ensures within { IfSome result (λ n. (least ≤ n) × (n ≤ most)) }
{
    let number = read_signed(text.as_bytes()).ok()?;
    let number = u32::try_from(number).ok()?;
    if least <= number && number <= most {
        Some(number)
    } else {
        None
    }
}
