//! Holds of a pool's buffers as a plain list.
ghost use Rattle.std.specs.Prelude.{◌≡◌, ◌≤◌, IsTrue};
ghost use Rattle.pin_core.specs.Answers.{event_of};
ghost use Rattle.pin_core.specs.Buffers.{buffers};
ghost use Rattle.pin_core.specs.PinStep.{IsNear};
ghost use Rattle.pin_core.specs.declared.sizes.Sizes.{Sizes};

use pin_core::{Change, Held, Holder, Memory, PinEvent, PinState, Refused};
use std::alloc::Global;
use std::process::Abort;
use std::test::Fail;

const FIRST: Holder = Holder::Session(0);

const SECOND: Holder = Holder::Session(1);

const SHARD: Holder = Holder::Shard(3);

const PARCEL: Holder = Holder::Parcel {
    session: 0,
    call: 0,
};

fn claim(buffer: u32, holder: Holder) -> PinEvent {
    PinEvent::Claim { buffer, holder }
}

fn put(buffer: u32, holder: Holder, index: u32, word: u64) -> PinEvent {
    PinEvent::Put {
        buffer,
        holder,
        index,
        word,
    }
}

fn load(buffer: u32, holder: Holder, index: u32) -> PinEvent {
    PinEvent::Load {
        buffer,
        holder,
        index,
    }
}

fn pin(buffer: u32, from: Holder, to: Holder) -> PinEvent {
    PinEvent::Pin { buffer, from, to }
}

fn unpin(buffer: u32, holder: Holder, pinned: bool) -> PinEvent {
    PinEvent::Unpin {
        buffer,
        holder,
        pinned,
    }
}

fn rename(buffer: u32, pinned: bool, from: Holder, to: Holder) -> PinEvent {
    PinEvent::Move {
        buffer,
        pinned,
        from,
        to,
    }
}

fn give(from: Holder, to: Holder, credits: u64) -> PinEvent {
    PinEvent::Give { from, to, credits }
}

/// A pool of so many buffers.
#[derive(Drop)]
struct Holds {
    state: PinState,
    count: u32,
    ghost sized: { buffers state.sizes ≡ count },
}

fn open(alloc: Global, small: u32, large: u32, credits: u64) -> Result<Holds, Memory>
    requires { (small ≤ 10) × (large ≤ 10) × (credits ≤ 10) }
{
    let state = PinState::open(alloc, small, large, credits)?;
    Ok(Holds {
        state,
        count: small + large,
    })
}

// Whether the event's buffer is one of so many.
fn is_near(event: PinEvent, count: u32) -> bool
    ensures { IsTrue result → (z : Sizes) → buffers z ≡ count → IsNear z (event_of event) }
{
    match event {
        PinEvent::Claim { buffer, .. } => buffer < count,
        PinEvent::Put { buffer, .. } => buffer < count,
        PinEvent::Load { buffer, .. } => buffer < count,
        PinEvent::Pin { buffer, .. } => buffer < count,
        PinEvent::Unpin { buffer, .. } => buffer < count,
        PinEvent::Move { buffer, .. } => buffer < count,
        PinEvent::Give { .. } => true,
    }
}

// The only call of `step`, of an event that is near.
fn stepped(holds: &mut Holds, event: PinEvent) -> Option<Result<Change, Refused>> {
    if !is_near(event, holds.count) {
        return None;
    }
    Some(holds.state.step(event))
}

/// Events with their answers, and counts between them.
#[derive(Clone, Copy)]
enum Told {
    Step(PinEvent, Result<Change, Refused>),
    Holders(u32, u32),
    Held(u32, u32),
}

use Told::{Holders, Step};

fn check(rt: &impl Abort, holds: &mut Holds, told: Told) {
    match told {
        Step(event, answer) => {
            assert!(rt; stepped(holds, event) == Some(answer), "at {event:?}");
        }
        Holders(buffer, count) => assert_eq!(rt; holds.state.holders_of(buffer), count),
        Told::Held(small, large) => assert_eq!(rt; holds.state.held(), Held { small, large }),
    }
}

fn check_all(rt: &impl Abort, holds: &mut Holds, all: &[Told]) {
    for told in all {
        check(rt, holds, *told);
    }
}

// One buffer is claimed, written, pinned for a parcel, given up by its owner, read by the parcel and given back.
#[test]
fn a_pinned_buffer_outlives_its_owners_hold(rt: HostRuntime) -> Result<(), Fail> {
    let mut holds = open(rt.alloc(), 1, 1, 2)?;
    let all = [
        Step(claim(0, FIRST), Ok(Change::Claimed)),
        Step(put(0, FIRST, 0, 7), Ok(Change::Put)),
        Step(give(FIRST, PARCEL, 1), Ok(Change::Given)),
        Step(pin(0, FIRST, PARCEL), Ok(Change::Pinned)),
        Holders(0, 2),
        Step(put(0, FIRST, 1, 8), Err(Refused::NotOwned)),
        Step(unpin(0, FIRST, false), Ok(Change::Unpinned { last: false })),
        Step(claim(0, SECOND), Err(Refused::NotFree { holds: 1 })),
        Step(load(0, PARCEL, 0), Ok(Change::Loaded(7))),
        Step(pin(0, PARCEL, PARCEL), Err(Refused::NoCredit)),
        Step(load(0, PARCEL, 1), Err(Refused::OutOfFront { length: 1 })),
        Told::Held(1, 0),
        Step(unpin(0, PARCEL, true), Ok(Change::Unpinned { last: true })),
        Step(load(0, PARCEL, 0), Err(Refused::NotHeld)),
        Holders(0, 0),
        Told::Held(0, 0),
    ];
    check_all(&rt, &mut holds, &all);
    Ok(())
}

// A hold goes from a session to a shard, and each buffer counts once in its class, however many holds it has. The hold
// that isn't pinned is another than the pinned one.
#[test]
fn a_moved_hold_is_the_takers(rt: HostRuntime) -> Result<(), Fail> {
    let mut holds = open(rt.alloc(), 2, 1, 3)?;
    let all = [
        Step(claim(1, FIRST), Ok(Change::Claimed)),
        Step(claim(2, FIRST), Ok(Change::Claimed)),
        Step(put(2, FIRST, 0, 5), Ok(Change::Put)),
        Step(put(2, FIRST, 1, 6), Ok(Change::Put)),
        Step(rename(2, false, FIRST, SHARD), Ok(Change::Moved)),
        Step(rename(2, false, FIRST, SHARD), Err(Refused::NotHeld)),
        Step(load(2, SHARD, 1), Ok(Change::Loaded(6))),
        Step(pin(2, SHARD, FIRST), Ok(Change::Pinned)),
        Holders(2, 2),
        Told::Held(1, 1),
        Step(unpin(2, FIRST, false), Err(Refused::NotHeld)),
        Step(unpin(2, FIRST, true), Ok(Change::Unpinned { last: false })),
        Step(give(FIRST, SHARD, 4), Err(Refused::NoCredit)),
        Step(give(FIRST, SHARD, 3), Ok(Change::Given)),
    ];
    check_all(&rt, &mut holds, &all);
    Ok(())
}

// A put inside the front cuts it there, and the last word of a small buffer is the 64th.
#[test]
fn a_put_cuts_the_front(rt: HostRuntime) -> Result<(), Fail> {
    let mut holds = open(rt.alloc(), 1, 0, 0)?;
    let first = [
        Step(claim(0, FIRST), Ok(Change::Claimed)),
        Step(put(0, FIRST, 1, 9), Err(Refused::OutOfFront { length: 0 })),
    ];
    check_all(&rt, &mut holds, &first);
    for index in 0..64 {
        let event = put(0, FIRST, index, 100 + u64::from(index));
        check(&rt, &mut holds, Step(event, Ok(Change::Put)));
    }
    let last = [
        Step(
            put(0, FIRST, 64, 9),
            Err(Refused::OutOfFront { length: 64 }),
        ),
        Step(load(0, FIRST, 63), Ok(Change::Loaded(163))),
        Step(put(0, FIRST, 2, 9), Ok(Change::Put)),
        Step(load(0, FIRST, 2), Ok(Change::Loaded(9))),
        Step(load(0, FIRST, 3), Err(Refused::OutOfFront { length: 3 })),
    ];
    check_all(&rt, &mut holds, &last);
    Ok(())
}
