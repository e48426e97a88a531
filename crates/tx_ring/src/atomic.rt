// The steps, each a short function. The code of no other file of this crate names the part of the table that both ends
// share (only ghost clauses do, where a ring is named), so what a call does to it is what these functions tell.
ghost use Rattle.std.specs.Prelude.{◌≡◌, ◌+◌, ◌-◌, ◌*◌, ◌/◌, ◌%◌, ◌<◌, List, [], ◌∷◌, ◌++◌, true, None, length, Option};
ghost use Rattle.atomic_table.specs.Table.{step, rest};
ghost use mathlib.Core.Option.{none};
ghost use Rattle.tx_ring.specs.Ends.{HasRingSizes, IsAtRest, IsDrafting, IsHalfDrafted, IsPut, IsAtWord, HasTaken};
ghost use Rattle.tx_ring.specs.Ends.{IsHolding, IsBehind, IsBoth, driving, steering, gathering};
ghost use Rattle.tx_ring.specs.Moves.{drafting, drafted, idle, closing, resting};
ghost use Rattle.tx_ring.specs.Plays.{with_driver, with_device, driver_part, device_part, both_parts, moved_tail};
ghost use Rattle.tx_ring.specs.Plays.{looked, fetched, wrote_back, saw_status, saw_closed, InOrder};
ghost use Rattle.tx_ring.specs.Words.{size, extent};
ghost use Rattle.tx_ring.specs.declared.view.DriverStage.TheVariants.{Closed};

use crate::plays::{
    Compare, Fetch, GiveBack, LookAtClosed, LookAtStatus, LookAtTail, MoveHead, MoveTail, Parts,
    Shut, Spare, Write, WriteBack, WriteLast,
};
use crate::rule::{CLOSED, FIRST_ROW, HEAD, RingSeat, RingTable, TAIL};
use tx_descriptor::Framed;

// The first word of a descriptor past the tail.
pub(crate) fn write_address<P: Framed>(
    ring: &RingTable<P>,
    seat: &mut RingSeat<P>,
    place: usize,
    word: u64,
)
    requires table { (seat.old.table_id ≡ ring.now.shared.table_id)
        × HasRingSizes ring.now.shared.key ring.now.shared.table_id }
    requires ready { IsDrafting P.segs ring.now.shared.key seat.old.me.0 place }
    ensures seat { (seat.new.table_id ≡ seat.old.table_id) × (seat.new.id ≡ seat.old.id) }
    ensures view { seat.new.me ≡ (with_driver (drafting word seat.old.me.0.driver) seat.old.me.0, seat.old.me.1) }
{
    ring.shared
        .store::<Write>(seat, FIRST_ROW + 2 * place, word);
}

// The second one, of a descriptor that is not its frame's last.
pub(crate) fn write_command<P: Framed>(
    ring: &RingTable<P>,
    seat: &mut RingSeat<P>,
    place: usize,
    word: u64,
)
    requires table { (seat.old.table_id ≡ ring.now.shared.table_id)
        × HasRingSizes ring.now.shared.key ring.now.shared.table_id }
    requires ready { IsHalfDrafted P.segs ring.now.shared.key seat.old.me.0 place }
    ensures seat { (seat.new.table_id ≡ seat.old.table_id) × (seat.new.id ≡ seat.old.id) }
    ensures view { seat.new.me ≡ (with_driver (drafting word seat.old.me.0.driver) seat.old.me.0, seat.old.me.1) }
{
    ring.shared
        .store::<Write>(seat, FIRST_ROW + 2 * place + 1, word);
}

// The second one of a frame's last descriptor, whose slot is out from then on.
pub(crate) fn write_last<P: Framed>(
    ring: &RingTable<P>,
    seat: &mut RingSeat<P>,
    place: usize,
    word: u64,
)
    requires table { (seat.old.table_id ≡ ring.now.shared.table_id)
        × HasRingSizes ring.now.shared.key ring.now.shared.table_id }
    requires ready { IsHalfDrafted P.segs ring.now.shared.key seat.old.me.0 place }
    ensures seat { (seat.new.table_id ≡ seat.old.table_id) × (seat.new.id ≡ seat.old.id) }
    ensures view { seat.new.me ≡ (
      with_driver (drafted word seat.old.me.0.driver) seat.old.me.0,
      (
        (extent P.segs seat.old.me.0.driver.posted + length seat.old.me.0.driver.draft / 2)
            % ring.now.shared.table_id.slots,
        None,
      ) ∷ seat.old.me.1,
    ) }
{
    ring.shared
        .store::<WriteLast>(seat, FIRST_ROW + 2 * place + 1, word);
}

// What is in a slot that is out.
pub(crate) fn exchange<P: Framed>(
    ring: &RingTable<P>,
    seat: &mut RingSeat<P>,
    slot: usize,
    new: Option<P>,
) -> Option<P>
    requires table { seat.old.table_id ≡ ring.now.shared.table_id }
    requires out { (old : Option P) × (seat.old.me.1 ≡ (slot, old) ∷ rest seat.old.me.1) }
    ensures seat { (seat.new.table_id ≡ seat.old.table_id) × (seat.new.id ≡ seat.old.id) }
    ensures was { seat.old.me.1 ≡ (slot, result) ∷ rest seat.old.me.1 }
    ensures view { seat.new.me ≡ (seat.old.me.0, (slot, new) ∷ rest seat.old.me.1) }
{
    ring.shared.exchange(seat, slot, new)
}

// The frame is posted, and its slot comes home with it.
pub(crate) fn move_tail<P: Framed>(ring: &RingTable<P>, seat: &mut RingSeat<P>, tail: usize)
    requires table { (seat.old.table_id ≡ ring.now.shared.table_id)
        × HasRingSizes ring.now.shared.key ring.now.shared.table_id }
    requires ready { IsPut P.segs ring.now.shared.key seat.old.me tail }
    ensures seat { (seat.new.table_id ≡ seat.old.table_id) × (seat.new.id ≡ seat.old.id) }
    ensures tells { moved_tail P.segs (step ring.now.shared.table_id.slots 0 tail 0 none) seat.old.me tail seat.new.me }
{
    ring.shared.store::<MoveTail>(seat, TAIL, tail as u64);
}

// Where the tail is at the head nothing waits, which is a blank.
pub(crate) fn look_at_tail<P: Framed>(ring: &RingTable<P>, seat: &mut RingSeat<P>) -> u64
    requires table { (seat.old.table_id ≡ ring.now.shared.table_id)
        × HasRingSizes ring.now.shared.key ring.now.shared.table_id }
    requires rest { IsAtRest seat.old.me }
    ensures seat { (seat.new.table_id ≡ seat.old.table_id) × (seat.new.id ≡ seat.old.id) }
    ensures tells { looked P.segs (step ring.now.shared.table_id.slots 0 0 0 none) seat.old.me result seat.new.me }
{
    ring.shared.load::<LookAtTail>(seat, TAIL)
}

pub(crate) fn look_at_closed<P: Framed>(ring: &RingTable<P>, seat: &mut RingSeat<P>) -> u64
    requires table { (seat.old.table_id ≡ ring.now.shared.table_id)
        × HasRingSizes ring.now.shared.key ring.now.shared.table_id }
    requires rest { IsAtRest seat.old.me }
    ensures seat { (seat.new.table_id ≡ seat.old.table_id) × (seat.new.id ≡ seat.old.id) }
    ensures tells { saw_closed P.segs (step ring.now.shared.table_id.slots 2 0 0 none) seat.old.me result seat.new.me }
{
    ring.shared.load::<LookAtClosed>(seat, CLOSED)
}

// The next word of the next frame. With its last word the frame's slot is out.
pub(crate) fn fetch_word<P: Framed>(ring: &RingTable<P>, seat: &mut RingSeat<P>, word: usize) -> u64
    requires table { (seat.old.table_id ≡ ring.now.shared.table_id)
        × HasRingSizes ring.now.shared.key ring.now.shared.table_id }
    requires ready { IsAtWord P.segs ring.now.shared.key seat.old.me word }
    ensures seat { (seat.new.table_id ≡ seat.old.table_id) × (seat.new.id ≡ seat.old.id) }
    ensures tells { fetched P.segs (step ring.now.shared.table_id.slots word 0 0 none) seat.old.me result seat.new.me }
{
    ring.shared.load::<Fetch>(seat, word)
}

// The frame is completed, and its slot comes home with it.
pub(crate) fn write_back<P: Framed>(
    ring: &RingTable<P>,
    seat: &mut RingSeat<P>,
    last: usize,
    status: u64,
)
    requires table { (seat.old.table_id ≡ ring.now.shared.table_id)
        × HasRingSizes ring.now.shared.key ring.now.shared.table_id }
    requires ready { IsHolding P.segs ring.now.shared.key seat.old.me last status }
    ensures seat { (seat.new.table_id ≡ seat.old.table_id) × (seat.new.id ≡ seat.old.id) }
    ensures tells { wrote_back P.segs (step ring.now.shared.table_id.slots (3 + 2 * last + 1) status 0 none)
        seat.old.me status seat.new.me }
{
    ring.shared
        .store::<WriteBack>(seat, FIRST_ROW + 2 * last + 1, status);
}

pub(crate) fn move_head<P: Framed>(ring: &RingTable<P>, seat: &mut RingSeat<P>, head: usize)
    requires table { (seat.old.table_id ≡ ring.now.shared.table_id)
        × HasRingSizes ring.now.shared.key ring.now.shared.table_id }
    requires ready { IsBehind P.segs ring.now.shared.key seat.old.me head }
    ensures seat { (seat.new.table_id ≡ seat.old.table_id) × (seat.new.id ≡ seat.old.id) }
    ensures view { seat.new.me ≡ (with_device (resting seat.old.me.0.device) seat.old.me.0, seat.old.me.1) }
{
    ring.shared.store::<MoveHead>(seat, HEAD, head as u64);
}

// The status of the oldest frame. Without DD it is a miss; with DD the frame is reaped, and its slot is out.
pub(crate) fn look_at_status<P: Framed>(
    ring: &RingTable<P>,
    seat: &mut RingSeat<P>,
    last: usize,
) -> u64
    requires table { (seat.old.table_id ≡ ring.now.shared.table_id)
        × HasRingSizes ring.now.shared.key ring.now.shared.table_id }
    requires posed { seat.old.me ≡ (driving seat.old.me.0.driver, []) }
    requires oldest { (f : P)
        × (more : List P)
        × (seat.old.me.0.driver.posted ≡ seat.old.me.0.driver.reaped ++ f ∷ more)
        × (last ≡ (extent P.segs seat.old.me.0.driver.reaped + (size P.segs f - 1)) % ring.now.shared.key)
        × (0 < size P.segs f) }
    ensures seat { (seat.new.table_id ≡ seat.old.table_id) × (seat.new.id ≡ seat.old.id) }
    ensures tells { saw_status P.segs (step ring.now.shared.table_id.slots (3 + 2 * last + 1) 0 0 none)
        seat.old.me result seat.new.me }
{
    ring.shared
        .load::<LookAtStatus>(seat, FIRST_ROW + 2 * last + 1)
}

// The empty slot of the last frame that was reaped comes home.
pub(crate) fn give_back<P: Framed>(ring: &RingTable<P>, seat: &mut RingSeat<P>, last: usize)
    requires table { (seat.old.table_id ≡ ring.now.shared.table_id)
        × HasRingSizes ring.now.shared.key ring.now.shared.table_id }
    requires ready { HasTaken P.segs ring.now.shared.key seat.old.me last }
    ensures seat { (seat.new.table_id ≡ seat.old.table_id) × (seat.new.id ≡ seat.old.id) }
    ensures view { seat.new.me ≡ (with_driver (idle seat.old.me.0.driver) seat.old.me.0, rest seat.old.me.1) }
{
    ring.shared.load::<GiveBack>(seat, FIRST_ROW + 2 * last + 1);
}

pub(crate) fn shut<P: Framed>(ring: &RingTable<P>, seat: &mut RingSeat<P>)
    requires table { (seat.old.table_id ≡ ring.now.shared.table_id)
        × HasRingSizes ring.now.shared.key ring.now.shared.table_id }
    requires posed { seat.old.me ≡ (driving seat.old.me.0.driver, []) }
    requires reaped { seat.old.me.0.driver.posted ≡ seat.old.me.0.driver.reaped }
    ensures seat { (seat.new.table_id ≡ seat.old.table_id) × (seat.new.id ≡ seat.old.id) }
    ensures view { seat.new.me ≡ (with_driver (closing seat.old.me.0.driver) seat.old.me.0, seat.old.me.1) }
{
    ring.shared.store::<Shut>(seat, CLOSED, 1);
}

// A seat that has nothing.
pub(crate) fn spare_seat<P: Framed>(ring: &RingTable<P>) -> RingSeat<P>
    requires { HasRingSizes ring.now.shared.key ring.now.shared.table_id }
    ensures { result.table_id ≡ ring.now.shared.table_id }
{
    let (_, spare) = ring.shared.load_new_seat::<Spare>(TAIL);
    spare
}

pub(crate) fn join_ends<P: Framed>(
    ring: &RingTable<P>,
    driver: &mut RingSeat<P>,
    device: RingSeat<P>,
)
    requires table { (driver.old.table_id ≡ ring.now.shared.table_id)
        × (device.table_id ≡ ring.now.shared.table_id)
        × HasRingSizes ring.now.shared.key ring.now.shared.table_id }
    requires posed { (driver.old.me ≡ (steering driver.old.me.0.driver, []))
        × (device.me ≡ (gathering device.me.0.device, [])) }
    ensures seat { (driver.new.table_id ≡ driver.old.table_id) × (driver.new.id ≡ driver.old.id) }
    ensures view { driver.new.me ≡ (both_parts driver.old.me.0 device.me.0, driver.old.me.1) }
{
    ring.shared.join_seat::<Parts>(driver, device);
}

// What both ends at one seat know of each other.
pub(crate) fn compare_ends<P: Framed>(ring: &RingTable<P>, seat: &mut RingSeat<P>)
    requires table { (seat.old.table_id ≡ ring.now.shared.table_id)
        × HasRingSizes ring.now.shared.key ring.now.shared.table_id }
    requires both { IsBoth seat.old.me.0 }
    ensures seat { (seat.new.table_id ≡ seat.old.table_id) × (seat.new.id ≡ seat.old.id) }
    ensures view { seat.new.me ≡ seat.old.me }
    ensures order { InOrder seat.old.me.0.driver seat.old.me.0.device
        × (seat.old.me.0.device.ended ≡ true → seat.old.me.0.driver.stage ≡ Closed) }
{
    ring.shared.load::<Compare>(seat, TAIL);
}

pub(crate) fn split_ends<P: Framed>(ring: &RingTable<P>, seat: &mut RingSeat<P>) -> RingSeat<P>
    requires table { (seat.old.table_id ≡ ring.now.shared.table_id) × (0 < ring.now.shared.table_id.words) }
    requires both { IsBoth seat.old.me.0 }
    ensures seat { (seat.new.table_id ≡ seat.old.table_id) × (seat.new.id ≡ seat.old.id) }
    ensures driver { seat.new.me ≡ (driver_part seat.old.me.0, seat.old.me.1) }
    ensures device { (result.table_id ≡ seat.old.table_id) × (result.me ≡ (device_part seat.old.me.0, [])) }
{
    ring.shared.split_seat::<Parts>(seat)
}
