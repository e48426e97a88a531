ghost use Rattle.pinned_pool.specs.Named.{IsSeat};

use crate::name::PoolName;
use crate::view::View;
use atomic_table::Seat;
use std::marker::{Model, PhantomData};

/// Holds and credits of one pool, with which a thread steps.
///
/// Contracts see its holds and credits; its claims, the buffers that it ever won; its looks, the buffers that it found
/// held, each with the number that was found; its returns, how many pinned holds it gave back; and its lasts, the
/// buffers whose last hold it gave back.
#[derive(Drop)]
pub struct PoolSeat<N: PoolName> {
    pub(crate) seat: Seat<(), View>,
    pub(crate) name: PhantomData<N>,
}

impl<N: PoolName> Model for PoolSeat<N> {
    ghost use Rattle.pinned_pool.specs.declared.view.View.{View};
    ghost use Rattle.pinned_pool.specs.Named.{IsSeatOf};

    ghost Value = { View };

    ghost view = { λ s. s.seat.me.0 };

    ghost invariant = { λ s. IsSeatOf N.table N.sizes s.seat.table_id s.seat.me };
}

impl<N: PoolName> PoolSeat<N> {
    /// Does nothing, and tells a proof what is true of every seat.
    pub fn is_seat(&self)
        ensures { IsSeat N.sizes self.now }
    {
        let _ = &self.seat;
    }
}
