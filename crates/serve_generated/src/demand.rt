ghost use Rattle.std.specs.Prelude.{◌≡◌, ◌≤◌, ◌<◌, ◌*◌};
ghost use Rattle.pin_core.specs.declared.class.Class.TheVariants.{Small, Large};
ghost use Rattle.serve_model.specs.Demand.{demand_of, session_row};
ghost use Rattle.serve_generated.specs.Sessions.{generated_commands_of, sessions_of};

use crate::rows::{Demand, request_demand};
use request_gen::{Draws, next_request};

/// How many buffers of each class so many sessions may claim by their first requests, with the stage of each. It may be
/// more than a pool can have.
pub fn generated_demand(number: u32, sessions: u16, count: u32) -> Demand
    requires sessions { sessions ≤ 16 }
    requires count { count ≤ 4000 }
    ensures small { result.small ≡ demand_of Small (sessions_of number sessions count) }
    ensures large { result.large ≡ demand_of Large (sessions_of number sessions count) }
    ensures stages { 128 * sessions ≤ result.small }
{
    let mut demand = Demand { small: 0, large: 0 };
    for session in 0..sessions {
        demand = demand.plus(session_demand(number, session, count));
    }
    demand
}

// One session, with its stage of 128 small buffers.
fn session_demand(number: u32, session: u16, count: u32) -> Demand
    requires session { session < 16 }
    requires count { count ≤ 4000 }
    ensures small { result.small ≡ session_row Small (generated_commands_of number session count) }
    ensures large { result.large ≡ session_row Large (generated_commands_of number session count) }
    ensures stage { 128 ≤ result.small }
    ensures few { (result.small ≤ 4128) × (result.large ≤ 12_000) }
{
    let mut draws = Draws::new(number, session);
    let mut demand = Demand {
        small: 128,
        large: 0,
    };
    for r in 0..count {
        demand = demand.plus(request_demand(next_request(&mut draws, r)));
    }
    demand
}
