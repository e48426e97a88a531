//! A shard over a pool of its own, and a seat that pays.
ghost use Rattle.std.specs.Prelude.{◌≡◌, ◌+◌, ◌<◌, ◌≤◌, length};
ghost use Rattle.flake_base.specs.Limits.{value_limit};

use flake_base::{Memory, Segs, Sequence};
use frag_value::PlaceError;
use pinned_pool::{Held, Pool, PoolBlank, PoolName, PoolSeat};
use shard_core::{PartAnswer, ShardMap};
use shard_part::{Part, PartOp};
use std::alloc::Global;
use test_support::copier::Copier;

/// A run of bytes that the taker got: the buffer's address, the place there, how many they are, and whether a hold came
/// with them.
pub type Run = (u64, u32, usize, bool);

/// A segment's address and its length.
pub type Stored = (u64, u32);

/// What one part did: its answer, what the taker got, and the segments that it stored.
#[derive(Drop)]
pub struct Seen {
    pub answer: Result<PartAnswer, PlaceError>,
    pub bytes: Vec<u8>,
    pub runs: Vec<Run>,
    pub stored: Vec<Stored>,
}

fn stored_of(alloc: Global, segs: &Segs) -> Result<Vec<Stored>, Memory> {
    let mut stored = Vec::new(alloc);
    for seg in segs.iter() {
        stored.push((seg.address, seg.len))?;
    }
    Ok(stored)
}

impl Seen {
    fn of(
        alloc: Global,
        answer: Result<PartAnswer, PlaceError>,
        copier: &Copier,
        stored: Segs,
    ) -> Result<Seen, Memory> {
        let mut bytes = Vec::new(alloc);
        let mut runs = Vec::new(alloc);
        for copied in &copier.copies {
            bytes.extend_from_slice(&copied.bytes[..copied.len])?;
            runs.push((copied.address, copied.offset, copied.len, copied.over))?;
        }
        Ok(Seen {
            answer,
            bytes,
            runs,
            stored: stored_of(alloc, &stored)?,
        })
    }
}

#[derive(Drop)]
pub struct World<P: PoolName> {
    pool: Pool<P>,
    shard_map: ShardMap<P>,
    payer: PoolSeat<P>,
    ghost rich: { 1 < payer.credits },
    ghost all: { payer.credits + 1 ≡ P.sizes.credits },
}

impl<P: PoolName> World<P> {
    pub fn open(alloc: Global, blank: PoolBlank) -> World<P>
        requires name { (blank.table ≡ P.table) × (blank.sizes ≡ P.sizes) }
        requires credits { 2 < P.sizes.credits }
    {
        let (pool, mut payer) = blank.name::<P>();
        let own = pool.split(&mut payer, (), 1);
        let shard_map = ShardMap::new(alloc, own);
        World {
            pool,
            shard_map,
            payer,
        }
    }

    pub fn run(
        &mut self,
        alloc: Global,
        op: PartOp,
        key: &[u8],
        value: &[u8],
    ) -> Result<Seen, Memory>
        requires { length value.now ≤ value_limit }
    {
        let part = Part { op, key, value };
        let mut copier = Copier::new(alloc)?;
        let mut stored: Segs = Sequence::with_room(alloc, 16)?;
        let answer = self.shard_map.apply(
            &self.pool,
            &mut self.payer,
            &part,
            &mut copier,
            &mut stored,
        );
        Seen::of(alloc, answer, &copier, stored)
    }

    /// How many buffers the shard holds.
    pub fn close(self) -> Held {
        let World {
            pool,
            shard_map,
            mut payer,
        } = self;
        shard_map.is_shard_map();
        pool.join(&mut payer, shard_map.into_seat());
        pool.close(payer).held()
    }
}
