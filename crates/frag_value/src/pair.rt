//! Keys with their values.
ghost use Rattle.std.specs.Prelude.{◌≡◌, ◌+◌, ◌≤◌, length, IfOk};
ghost use Rattle.frag_value.specs.Values.{HasValue, unmarked_view};
ghost use Rattle.frag_value.specs.Pins.{pin_holds, pinning};

use crate::frag::{Frag, Value};
use crate::pinned::Pinned;
use crate::pinning::pin_value;
use pinned_pool::{Pool, PoolName, PoolSeat};
use std::alloc::{AllocError, Global};
use std::marker::Model;

/// A key and its value, which is kept by pinned holds. Contracts see the key's bytes and the value's fragments.
#[derive(Drop)]
pub struct PinnedPair<N: PoolName> {
    pub(crate) key: Vec<u8>,
    pub(crate) value: Pinned<N>,
}

impl<N: PoolName> Model for PinnedPair<N> {
    ghost use Rattle.frag_value.specs.Pins.{KeyFrags};

    ghost Value = { KeyFrags };

    ghost view = { λ p. (p.key.items, p.value) };
}

impl<N: PoolName> PinnedPair<N> {
    pub fn key(&self) -> &[u8]
        ensures { result.now ≡ self.now.0 }
    {
        self.key.as_slice()
    }

    pub fn value(&self) -> &Pinned<N>
        ensures { result.now ≡ self.now.1 }
    {
        &self.value
    }

    pub fn into_value(self) -> Pinned<N>
        ensures { result ≡ self.1 }
    {
        let PinnedPair { key: _, value } = self;
        value
    }
}

/// A copy of a key, and room for fragments, so that its value is pinned without memory. Contracts see the key's bytes,
/// and how many fragments there is room for.
#[derive(Drop)]
pub struct PairRoom<N: PoolName> {
    pub(crate) key: Vec<u8>,
    pub(crate) room: Vec<Frag<N>>,
}

impl<N: PoolName> Model for PairRoom<N> {
    ghost use Rattle.std.specs.Prelude.{◌≡◌, ℕ, List, [], vec_capacity};

    ghost Value = { List ℕ × ℕ };

    ghost view = { λ r. (r.key.items, vec_capacity r.room) };

    ghost invariant = { λ r. r.room.items ≡ [] };
}

impl<N: PoolName> PairRoom<N> {
    /// For a value of so many fragments.
    pub fn new(alloc: Global, key: &[u8], count: usize) -> Result<Self, AllocError>
        ensures { IfOk result (λ r. (r.0 ≡ key.now) × (count ≤ r.1)) }
    {
        let key = Vec::from_slice(alloc, key)?;
        let room = Vec::with_capacity(alloc, count)?;
        Ok(PairRoom { key, room })
    }

    /// The key with its value, which is the owner's and becomes the taker's as well.
    pub fn pin(
        self,
        pool: &Pool<N>,
        owner: &mut PoolSeat<N>,
        taker: &mut PoolSeat<N>,
        value: &Value<N>,
    ) -> PinnedPair<N>
        requires value { HasValue owner.old.holds value.now }
        requires credits { length value.now + 2 ≤ taker.old.credits }
        requires room { length value.now ≤ self.1 }
        ensures pair { result ≡ (self.0, value.now) }
        ensures owner { unmarked_view owner.new ≡ unmarked_view owner.old }
        ensures taker { taker.new ≡ pinning (pin_holds owner.old.holds value.now) taker.old }
    {
        let PairRoom { key, room } = self;
        let value = pin_value(pool, owner, taker, value, room);
        PinnedPair { key, value }
    }
}
