// The numbers among the words.
ghost use Rattle.std.specs.Prelude.{◌≡◌, ◌≤◌, IfSome};
ghost use Rattle.clap.specs.Matches.{found_of};
ghost use Rattle.clap.specs.Walk.{rows_of};
ghost use Rattle.flake_model.specs.Range.{signed_of};
ghost use Rattle.command_line.specs.Numbers.{number_in, number_or, number_between};

use clap::ArgMatches;
use range_pick::read_signed;

/// The number from 0 to `most` that the words have under a name.
pub(crate) fn number_in(matches: &ArgMatches<'_>, name: &str, most: u32) -> Option<u32>
    ensures value { result ≡ number_in name.now most (rows_of (found_of matches.now)) }
{
    let text = matches.get_str(name)?;
    within(0, most, text)
}

/// The number from 1 to `most` that an option gives, or the usual one where the option isn't there.
pub(crate) fn number_or(matches: &ArgMatches<'_>, name: &str, most: u32, usual: u32) -> Option<u32>
    requires { (1 ≤ usual) × (usual ≤ most) }
    ensures value { result ≡ number_or name.now most usual (rows_of (found_of matches.now)) }
    ensures within { IfSome result (λ n. (1 ≤ n) × (n ≤ most)) }
{
    match matches.get_str(name) {
        Some(text) => within(1, most, text),
        None => Some(usual),
    }
}

// The plain decimal between these.
fn within(least: u32, most: u32, text: &str) -> Option<u32>
    ensures value { result ≡ number_between least most (signed_of text.now) }
    ensures within { IfSome result (λ n. (least ≤ n) × (n ≤ most)) }
{
    let number = read_signed(text.as_bytes()).ok()?;
    let number = u32::try_from(number).ok()?;
    if least <= number && number <= most {
        Some(number)
    } else {
        None
    }
}
