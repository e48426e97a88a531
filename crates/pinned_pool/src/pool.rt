ghost use Rattle.std.specs.Prelude.{◌≡◌, ◌+◌, ◌^◌, ◌<◌};
ghost use Rattle.pinned_pool.specs.Named.{IsPoolOf};

use crate::name::PoolName;
use crate::rule::Sound;
use crate::view::View;
use atomic_table::Table;
use pin_core::{Class, Sizes};
use std::alloc::Global;
use std::marker::PhantomData;

/// The buffers of a pool, which threads share by reference. A small buffer has 64 data words, a large one 512.
#[derive(Drop)]
pub struct Pool<N: PoolName> {
    pub(crate) table: Table<(), View, Sizes, Sound, Global>,
    pub(crate) small: u32,
    pub(crate) large: u32,
    pub(crate) name: PhantomData<N>,
    ghost named: { IsPoolOf N.table N.sizes table.shared.table_id table.shared.key },
    ghost sized: { (small ≡ N.sizes.small) × (large ≡ N.sizes.large) × (small + large < 2 ^ 32) },
}

/// Each of the `looked` buffers of the class was found held.
#[derive(Clone, Copy, PartialEq, Eq, Debug)]
pub struct NoBuffer {
    pub class: Class,
    pub looked: u32,
}
