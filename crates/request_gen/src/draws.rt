ghost use Rattle.std.specs.Prelude.{◌≡◌};
ghost use Rattle.request_gen.specs.Draws.{drawn, first_state, next_state};

use std::marker::Model;

const MODULUS: u64 = 0x1_0000_0000;

/// The numbers that decide what a session asks for, one after another.
#[derive(Debug, Drop)]
pub struct Draws {
    state: u32,
}

impl Model for Draws {
    ghost use Rattle.std.specs.Prelude.{ℕ};

    ghost Value = { ℕ };

    ghost view = { λ draws. draws.state };
}

impl Draws {
    /// Those of a session.
    pub fn new(number: u32, session: u16) -> Self
        ensures { result ≡ first_state number session }
    {
        Draws {
            state: ((u64::from(number) + u64::from(session)) % MODULUS) as u32,
        }
    }

    /// The next number.
    pub fn draw(&mut self) -> u16
        ensures state { self.new ≡ next_state self.old }
        ensures drawn { result ≡ drawn self.new }
    {
        let state = (1_664_525 * u64::from(self.state) + 1_013_904_223) % MODULUS;
        self.state = state as u32;
        (state / 65_536) as u16
    }
}
