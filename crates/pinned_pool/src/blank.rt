//! A pool from its opening to its name.
ghost use Rattle.std.specs.Prelude.{◌≡◌, ◌+◌, ◌*◌, ◌^◌, ◌<◌, ◌≤◌, [], ◌∷◌, replicate, IfOk};
ghost use Rattle.atomic_table.specs.Table.{opening};
ghost use Rattle.pin_core.specs.Buffers.{IsWithin};
ghost use Rattle.pinned_pool.specs.Views.{opener};

use crate::name::PoolName;
use crate::pool::Pool;
use crate::rule::Sound;
use crate::seat::PoolSeat;
use crate::view::View;
use atomic_table::{Seat, Table};
use pin_core::{Memory, Sizes};
use std::alloc::Global;
use std::marker::{Model, PhantomData};

/// A pool that has no name yet. Contracts see the number of its table, and its sizes.
#[derive(Drop)]
pub struct PoolBlank {
    table: Table<(), View, Sizes, Sound, Global>,
    seat: Seat<(), View>,
    small: u32,
    large: u32,
}

impl Model for PoolBlank {
    ghost use Rattle.pinned_pool.specs.Blanks.{BlankPool, IsBlankPool};

    ghost Value = { BlankPool };

    ghost view = { λ b. record { table = b.table.shared.table_id; sizes = b.table.shared.key } };

    ghost invariant = { λ b. IsBlankPool b.table.shared.table_id b.table.shared.key b.small b.large b.seat };
}

impl PoolBlank {
    /// A pool with no hold, whose one seat has all credits.
    pub fn open(alloc: Global, small: u32, large: u32, credits: u64) -> Result<PoolBlank, Memory>
        requires within { IsWithin (record { small = small; large = large; credits = credits }) }
        requires some { (0 < small + large) × (0 < credits) }
        ensures { IfOk result (λ b. b.sizes ≡ record { small = small; large = large; credits = credits }) }
    {
        let count = small as usize + large as usize + 64 * small as usize + 512 * large as usize;
        let Ok(words) = vec![in alloc; 0u64; count] else {
            return Err(Memory);
        };
        let sizes = Sizes {
            small,
            large,
            credits,
        };
        let Ok((table, seat)) = Table::of_words(alloc, words.as_slice(), &sizes) else {
            return Err(Memory);
        };
        Ok(PoolBlank {
            table,
            seat,
            small,
            large,
        })
    }

    /// The pool and its first seat. The caller picks the name, which has the pool's number and sizes.
    pub fn name<N: PoolName>(self) -> (Pool<N>, PoolSeat<N>)
        requires { (N.table ≡ self.table) × (N.sizes ≡ self.sizes) }
        ensures { result.1 ≡ opener N.sizes.credits }
    {
        let PoolBlank {
            table,
            seat,
            small,
            large,
        } = self;
        let pool = Pool {
            table,
            small,
            large,
            name: PhantomData,
        };
        let seat = PoolSeat {
            seat,
            name: PhantomData,
        };
        (pool, seat)
    }
}
