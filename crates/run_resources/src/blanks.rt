// What a run's pool and book are, while nothing has their names.
ghost use Rattle.std.specs.Prelude.{◌≡◌, IfOk};
ghost use Rattle.run_resources.specs.Opened.{HasRunSizes, IsPool, IsBook};

use crate::sizes::RunSizes;
use flake_base::Memory;
use order_book::BookBlank;
use pinned_pool::PoolBlank;
use std::alloc::Global;

/// A pool and a book that wait for their names.
#[derive(Drop)]
pub struct RunBlanks {
    pub pool: PoolBlank,
    pub book: BookBlank,
}

impl RunBlanks {
    /// For so many sessions.
    pub fn open(alloc: Global, sizes: &RunSizes, count: usize) -> Result<Self, Memory>
        requires { HasRunSizes count sizes.now }
        ensures pool { IfOk result (λ b. IsPool count sizes.now b.pool.sizes) }
        ensures book { IfOk result (λ b. IsBook count sizes.now b.book.sizes) }
    {
        let Ok(pool) = PoolBlank::open(alloc, sizes.small, sizes.large, sizes.pool_credits(count))
        else {
            return Err(Memory);
        };
        let book = BookBlank::open(alloc, sizes.shards, count as u16)?;
        Ok(RunBlanks { pool, book })
    }
}
