// The seats of a store's shards.
ghost use Rattle.std.specs.Prelude.{◌≡◌, ◌+◌, ◌<◌, length, IfOk};
ghost use Rattle.view_sums.specs.Total.{Each};
ghost use Rattle.shard_core.specs.ShardMaps.{IsBare};

use flake_base::Memory;
use pinned_pool::{Pool, PoolName, PoolSeat, PoolSeats};
use std::alloc::Global;

/// A seat of one credit for each shard, split off a seat that keeps all else.
pub fn open_seats<P: PoolName>(
    alloc: Global,
    pool: &Pool<P>,
    main: &mut PoolSeat<P>,
    shards: usize,
) -> Result<PoolSeats<P>, Memory>
    requires { shards < main.old.credits }
    ensures seats { IfOk result (λ seats. (length seats.items ≡ shards) × Each IsBare seats.items) }
    ensures credits { IfOk result (λ _. main.new.credits + shards ≡ main.old.credits) }
    ensures main { main.new ≡ record main.old { credits = main.new.credits } }
{
    let Ok(mut seats) = PoolSeats::with_room(alloc, shards) else {
        return Err(Memory);
    };
    for _ in 0..shards {
        let seat = pool.split(main, (), 1);
        let Ok(()) = seats.push(seat) else {
            unreachable!()
        };
    }
    Ok(seats)
}
