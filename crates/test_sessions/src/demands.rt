// What generated requests may claim.
use crate::checks::equal;
use serve_generated::{Demand, generated_demand};

// The only call of `generated_demand`. It has no clauses, so that no assertion carries those of `generated_demand`.
fn demand(number: u32, sessions: u16, count: u32) -> Demand {
    generated_demand(number, sessions.min(16), count.min(4000))
}

// The shared values take 3 small and 24 large buffers, and the first own ones as many; 7,168 bytes take 2 large ones.
#[test]
fn demands(rt: HostRuntime) {
    let table = [
        (0, 0, 0, 0, 0),
        (0, 1, 0, 128, 0),
        (0, 1, 1, 129, 0),
        (0, 1, 16, 131, 24),
        (0, 1, 32, 134, 48),
        (0, 1, 33, 134, 48),
        (0, 1, 34, 134, 50),
        (0, 2, 32, 268, 96),
        (7, 4, 1000, 1316, 2936),
        (u32::MAX, 16, 1000, 5245, 11_634),
        (0, 16, 4000, 14_655, 45_523),
    ];
    for (number, sessions, count, small, large) in table {
        equal(
            &rt,
            "the demand",
            demand(number, sessions, count),
            Demand { small, large },
        );
    }
}
