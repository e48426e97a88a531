// What the device keeps beside the table.
ghost use Rattle.std.specs.Prelude.{◌≡◌, ◌%◌, ◌≤◌, vec_capacity};
ghost use Rattle.tx_ring.specs.Ends.{HasRingSizes, gathering};
ghost use Rattle.tx_ring.specs.Words.{extent};
ghost use Rattle.tx_ring.specs.declared.view.DeviceStage.TheVariants.{Resting};

use crate::job::Row;
use crate::rule::RingSeat;
use std::alloc::Global;
use tx_descriptor::Framed;

mod gather;

/// The device's seat, with the place of the next frame's first descriptor.
#[derive(Drop)]
pub(crate) struct DeviceCursor<P: Framed> {
    pub(crate) seat: RingSeat<P>,
    pub(crate) count: usize,
    pub(crate) head: usize,
    // Where the descriptors of the next frame go. They are with the job until it is completed.
    pub(crate) rows: Vec<Row>,
    pub(crate) alloc: Global,
    ghost sized: { HasRingSizes count seat.table_id },
    ghost posed: { seat.me.0 ≡ gathering seat.me.0.device },
    ghost place: { head ≡ extent P.segs seat.me.0.device.completed % count },
    ghost ready: { seat.me.0.device.stage ≡ Resting → count ≤ vec_capacity rows },
}
