// How a ring is made.
ghost use Rattle.std.specs.Prelude.{◌≡◌, ◌<◌, ◌≤◌, [], ℕ, IfOk, OnOk, Err, ◌↔◌};
ghost use Rattle.tx_ring.specs.Ends.{driving, gathering};
ghost use Rattle.tx_ring.specs.Changes.{IsSize};
ghost use Rattle.tx_ring.specs.Shown.{ring_size, driver_ring, driver_view, device_ring, device_view, IsResting};
ghost use Rattle.tx_ring.specs.declared.error.RingError.TheVariants.{BadSize};
ghost use Rattle.tx_ring.specs.Rule.{blank_driver, blank_device};

use crate::atomic::split_ends;
use crate::device::DeviceEnd;
use crate::device_cursor::DeviceCursor;
use crate::driver::Driver;
use crate::driver_cursor::DriverCursor;
use crate::error::RingError;
use crate::rule::RingTable;
use atomic_table::Table;
use std::alloc::{AllocError, Global};
use std::collections::VecDeque;
use std::sync::Arc;
use tx_descriptor::Framed;

fn open_ends<P: Framed>(
    alloc: Global,
    count: usize,
) -> Result<(Driver<P>, DeviceEnd<P>), AllocError>
    requires { (0 < count) × (count ≤ 4096) }
    ensures { IfOk result (λ r. (r.0.cursor.seat.me ≡ (driving blank_driver, []))
        × (r.1.cursor.seat.me ≡ (gathering blank_device, []))
        × (r.1.cursor.seat.table_id ≡ r.0.cursor.seat.table_id)
        × (r.0.cursor.seat.table_id.slots ≡ count)) }
{
    let words = Vec::from_elem(alloc, 0u64, 2 * count + 3)?;
    let (ring, mut seat): (RingTable<P>, _) = Table::vacant(
        alloc,
        words.as_slice(),
        count,
        &count,
    )?;
    let device_seat = split_ends(&ring, &mut seat);
    let table = Arc::new(alloc, ring)?;
    let other = Arc::try_clone(&table)?;
    let sizes = VecDeque::with_capacity(alloc, count)?;
    let rows = Vec::with_capacity(alloc, count)?;
    let driver = Driver {
        table,
        cursor: DriverCursor {
            seat,
            count,
            tail: 0,
            oldest: 0,
            room: count - 1,
            sizes,
        },
    };
    let end = DeviceEnd {
        table: other,
        cursor: DeviceCursor {
            seat: device_seat,
            count,
            head: 0,
            rows,
            alloc,
        },
    };
    Ok((driver, end))
}

/// Both ends of a new ring of n descriptors.
pub fn ring<P: Framed>(alloc: Global, n: u32) -> Result<(Driver<P>, DeviceEnd<P>), RingError>
    ensures sized { OnOk result (IsSize n) }
    ensures bad_size { (m : ℕ) → (result ≡ Err (BadSize m)) ↔ ((m ≡ n) × ¬ (IsSize n)) }
    ensures ring { IfOk result (λ r. (device_ring r.1 ≡ driver_ring r.0) × (ring_size (driver_ring r.0) ≡ n)) }
    ensures driver { IfOk result (λ r. driver_view r.0 ≡ blank_driver) }
    ensures device { IfOk result (λ r. (device_view r.1 ≡ blank_device) × IsResting r.1) }
{
    if n % 8 != 0 || n < 8 || n > 4096 {
        return Err(RingError::BadSize { n });
    }
    match open_ends(alloc, n as usize) {
        Ok(ends) => Ok(ends),
        Err(AllocError) => Err(RingError::Memory),
    }
}
