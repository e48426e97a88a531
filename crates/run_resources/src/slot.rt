// Sessions that wait for their sources.
ghost use Rattle.std.specs.Prelude.{◌≡◌, ◌<◌, ◌≤◌, [], All, length, map, vec_capacity, IfOk};
ghost use Rattle.std.specs.List.{range_with_len};
ghost use Rattle.tx_ring.specs.Shown.{ring_size};
ghost use Rattle.run_resources.specs.Opened.{IsNewPass, IsSessionSlot};

use command_exec::Pass;
use device_model::Device;
use flake_base::Memory;
use order_book::BookName;
use pinned_pool::PoolName;
use reply_planner::Parcel;
use session_pass::Session;
use std::alloc::Global;
use tx_descriptor::Framed;
use tx_ring::ring;

/// A session, and who gathers its replies.
#[derive(Drop)]
pub struct SessionSlot<N: BookName, P: PoolName + Send>
where
    Parcel<P>: Framed,
{
    pub session: Session<N, P>,
    pub device: Device<P>,
}

fn open_session_slot<N: BookName, P: PoolName + Send>(
    alloc: Global,
    descriptors: u32,
    number: u16,
    pass: Pass<N, P>,
) -> Result<SessionSlot<N, P>, Memory>
    requires pass { IsNewPass P.sizes pass × (number ≡ pass.list.number) }
    requires descriptors { (1160 ≤ descriptors) × (descriptors ≤ 4096) }
    ensures slot { IfOk result (λ d. IsSessionSlot P.sizes d.session d.device.end d.device.failed) }
    ensures pass { IfOk result (λ d. d.session.pass ≡ pass) }
    ensures ring { IfOk result (λ d. ring_size d.session.ring ≡ descriptors) }
{
    let Ok((driver, end)) = ring::<Parcel<P>>(alloc, descriptors) else {
        return Err(Memory);
    };
    let session = Session::open(alloc, number, pass, driver);
    let device = Device::open(end);
    Ok(SessionSlot { session, device })
}

/// A session slot for each pass.
pub(crate) fn open_session_slots<N: BookName, P: PoolName + Send>(
    alloc: Global,
    descriptors: u32,
    passes: Vec<Pass<N, P>>,
    slots: Vec<SessionSlot<N, P>>,
) -> Result<Vec<SessionSlot<N, P>>, Memory>
    requires passes { All (IsNewPass P.sizes) passes.items }
    requires numbers { map (λ p. p.list.number) passes.items ≡ range_with_len 0 (length passes.items) }
    requires few { length passes.items ≤ 16 }
    requires descriptors { (1160 ≤ descriptors) × (descriptors ≤ 4096) }
    requires room { (slots.items ≡ []) × (length passes.items ≤ vec_capacity slots) }
    ensures slots { IfOk result
        (λ slots. All (λ d. IsSessionSlot P.sizes d.session d.device.end d.device.failed) slots.items) }
    ensures passes { IfOk result (λ slots. map (λ d. d.session.pass) slots.items ≡ passes.items) }
    ensures ring { IfOk result
        (λ slots. All (λ d. ring_size d.session.ring ≡ descriptors) slots.items) }
{
    let mut slots = slots;
    let mut number = 0u16;
    for pass in passes {
        let slot = open_session_slot(alloc, descriptors, number, pass)?;
        slots.push_reserved(slot);
        number += 1;
    }
    Ok(slots)
}
