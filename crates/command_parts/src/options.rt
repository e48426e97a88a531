// The options of SET.
ghost use Rattle.std.specs.Prelude.{◌≡◌, drop, false};
ghost use Rattle.std.specs.Option.{option_map};
ghost use Rattle.flake_model.specs.Command as model;
ghost use Rattle.flake_model.specs.Store.{always};
ghost use Rattle.command_parts.specs.Settings.{options_of};

use resp_reader::Request;
use shard_part::{Setting, When};

/// A SET with no option.
const PLAIN: Setting = Setting {
    when: When::Always,
    asks: false,
};

// The setting with one word more, if it is an option that goes with the others. A repeat changes nothing.
fn with_option(setting: Setting, word: &[u8]) -> Option<Setting>
    ensures { option_map options_of result ≡ model.with_option word.now (options_of setting) }
{
    if word.eq_ignore_ascii_case(b"GET") {
        Some(Setting {
            asks: true,
            ..setting
        })
    } else if word.eq_ignore_ascii_case(b"NX") && setting.when != When::IfPresent {
        Some(Setting {
            when: When::IfMissing,
            ..setting
        })
    } else if word.eq_ignore_ascii_case(b"XX") && setting.when != When::IfMissing {
        Some(Setting {
            when: When::IfPresent,
            ..setting
        })
    } else {
        None
    }
}

/// The options of a SET, which are its words behind the value, if all of them are ones that go together.
pub(crate) fn set_options(request: &Request) -> Option<Setting>
    ensures { option_map options_of result ≡ model.with_options (drop 3 request.now) (always, false) }
{
    let mut setting = PLAIN;
    for i in 3..request.len() {
        setting = with_option(setting, request.word(i))?;
    }
    Some(setting)
}
