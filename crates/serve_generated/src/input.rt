ghost use Rattle.std.specs.Prelude.{◌≡◌, ◌≤◌, ◌<◌, length, Some, IsOk, IfOk, OnErr};
ghost use Rattle.std.proofs.Common.{refl};
ghost use Rattle.flake_base.specs.Causes.{HasCause};
ghost use Rattle.flake_base.specs.Reads.{Gives, IsGivenFront};
ghost use Rattle.serve_generated.specs.Input.{new_input, no_name, bytes_held, to_come, none_to_come};

use flake_base::{Bytes, Failed, Source};
use std::marker::Model;

/// Bytes in memory, of which no read fails.
#[derive(Debug, Drop)]
pub struct InputSource {
    bytes: Bytes,
    at: usize,
    ended: bool,
}

impl Model for InputSource {
    ghost use Rattle.std.specs.Prelude.{◌≡◌, ◌≤◌, true, length, take, drop};
    ghost use Rattle.serve_generated.specs.Input.{InputState};

    ghost Value = { InputState };

    ghost view = { λ s. record {
      given = take s.at s.bytes.items;
      left = drop s.at s.bytes.items;
      ended = s.ended;
    } };

    ghost invariant = { λ s. (s.at ≤ length s.bytes.items) × (s.ended ≡ true → length s.bytes.items ≤ s.at) };
}

impl InputSource {
    pub fn new(bytes: Bytes) -> Self
        ensures { result ≡ new_input bytes.items }
    {
        InputSource {
            bytes,
            at: 0,
            ended: false,
        }
    }
}

impl Source for InputSource {
    ghost name = { no_name };

    ghost whole = { λ s. Some (bytes_held s) };

    ghost given = { λ s. s.given };

    ghost ended = { λ s. s.ended };

    ghost read_faults = { λ _. 0 };

    fn read(&mut self, room: &mut [u8]) -> Result<usize, Failed>
        requires { 0 < length room.old }
        ensures ok { IsOk result }
        ensures bound { IfOk result (λ n. n ≤ length room.new) }
        ensures given { IfOk result (λ n. Gives self.old.given self.new.given self.new.ended n room.new) }
        ensures failed { OnErr result (self.new.given ≡ self.old.given) }
        ensures no_end { OnErr result (self.new.ended ≡ self.old.ended) }
        ensures name { no_name self.new ≡ no_name self.old }
        ensures whole { Some (bytes_held self.new) ≡ Some (bytes_held self.old) }
        ensures cause { HasCause 0 0 result }
    {
        let rest = &self.bytes.as_slice()[self.at..];
        let count = rest.len().min(room.len());
        room[..count].copy_from_slice(&rest[..count]);
        self.at += count;
        self.ended = count == 0;
        Ok(count)
    }

    ghost front = { λ s. (to_come s.ended s.left, refl, none_to_come s.ended s.left) };
}
