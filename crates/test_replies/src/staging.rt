//! Stages of pools with too few buffers, and which buffers a stage lends.
ghost use Rattle.std.specs.Prelude.{◌≡◌, ◌+◌, ◌<◌, ◌≤◌, length, IfOk, OnOk};
ghost use Rattle.reply_planner.specs.Owned.{AreOwn};
ghost use Rattle.reply_planner.specs.Stages.{stage_size};

use flake_base::Memory;
use pinned_pool::{Class, Held, NoBuffer, Pool, PoolBlank, PoolName, PoolSeat};
use reply_planner::{Need, OpenError, Parcel, Plan, Stage, give_back};
use std::alloc::Global;
use std::marker::Brand;
use std::test::Fail;

const NONE_HELD: Held = Held { small: 0, large: 0 };

// Claims a small buffer, opens a stage, which is refused, and gives the buffer back. The answer is also how many are
// held then.
fn open_beside<N: PoolName>(alloc: Global, blank: PoolBlank) -> Result<(NoBuffer, Held), Memory>
    requires name { (blank.table ≡ N.table) × (blank.sizes ≡ N.sizes) }
{
    let (pool, mut seat) = blank.name::<N>();
    let Ok(hold) = pool.claim(&mut seat, Class::Small) else {
        return Err(Memory);
    };
    let Err(OpenError::NoBuffer(none)) = Stage::open(alloc, &pool, &mut seat) else {
        return Err(Memory);
    };
    pool.unpin(&mut seat, hold);
    Ok((none, pool.close(seat).held()))
}

// The only call of `open_beside`, over so many small buffers. It has no clauses.
fn refused(alloc: Global, small: u32) -> Result<(NoBuffer, Held), Memory> {
    if small == 0 || small > 128 {
        return Err(Memory);
    }
    let Ok(blank) = PoolBlank::open(alloc, small, 3, 2) else {
        return Err(Memory);
    };
    open_beside::<Brand>(alloc, blank)
}

#[test]
fn a_stage_of_too_few_is_refused(rt: HostRuntime) -> Result<(), Fail> {
    for small in [1, 2, 127, 128] {
        let none = NoBuffer {
            class: Class::Small,
            looked: small,
        };
        assert!(rt; refused(rt.alloc(), small)? == (none, NONE_HELD), "{small}");
    }
    Ok(())
}

// A reply that fills so many staging buffers.
fn send_full<N: PoolName>(
    pool: &Pool<N>,
    seat: &mut PoolSeat<N>,
    stage: &mut Stage<N>,
    count: u32,
) -> Result<Parcel<N>, Memory>
    requires count { (0 < count) × (count ≤ 3) }
    requires stage { count ≤ length stage.old }
    requires credits { 7 ≤ seat.old.credits }
    requires own { AreOwn seat.old.holds stage.old }
    ensures stage { IfOk result (λ p. length stage.new + length p.staged ≡ length stage.old) }
    ensures few { IfOk result (λ p. (length p.staged ≤ count) × (p.paid ≡ 0)) }
    ensures credits { OnOk result (seat.new.credits + 1 ≡ seat.old.credits) }
    ensures own { OnOk result (AreOwn seat.new.holds stage.new) }
{
    let need = Need {
        descriptors: count,
        stage: count,
    };
    stage.free();
    let bytes = [b's'; 1536];
    let mut plan = Plan::start(pool, seat, stage, need, 512)?;
    plan.copy(&bytes[..512 * count as usize]);
    Ok(plan.seal(seat, stage, 7))
}

// The buffers of a parcel's segments.
fn buffers_of<N: PoolName>(
    alloc: Global,
    pool: &Pool<N>,
    parcel: &Parcel<N>,
) -> Result<Vec<u32>, Memory> {
    let mut buffers = Vec::new(alloc);
    for i in 0..parcel.count() {
        if let Some((buffer, _)) = pool.buffer_at(parcel.seg(i).address) {
            buffers.push(buffer)?;
        }
    }
    Ok(buffers)
}

// A reply that fills staging buffers, and which they are.
#[derive(Drop)]
struct Full<N: PoolName> {
    parcel: Parcel<N>,
    buffers: Vec<u32>,
}

fn lend<N: PoolName>(
    alloc: Global,
    pool: &Pool<N>,
    seat: &mut PoolSeat<N>,
    stage: &mut Stage<N>,
    count: u32,
) -> Result<Full<N>, Memory>
    requires count { (0 < count) × (count ≤ 3) }
    requires stage { count ≤ length stage.old }
    requires credits { 7 ≤ seat.old.credits }
    requires own { AreOwn seat.old.holds stage.old }
    ensures stage { IfOk result (λ f. length stage.new + length f.parcel.staged ≡ length stage.old) }
    ensures few { IfOk result (λ f. (length f.parcel.staged ≤ count) × (f.parcel.paid ≡ 0)) }
    ensures credits { OnOk result (seat.new.credits + 1 ≡ seat.old.credits) }
    ensures own { OnOk result (AreOwn seat.new.holds stage.new) }
{
    let parcel = send_full(pool, seat, stage, count)?;
    let buffers = buffers_of(alloc, pool, &parcel)?;
    Ok(Full { parcel, buffers })
}

// Takes a reply back that paid for nothing.
fn take_back<N: PoolName>(
    parcel: Parcel<N>,
    pool: &Pool<N>,
    seat: &mut PoolSeat<N>,
    stage: &mut Stage<N>,
)
    requires unpaid { parcel.paid ≡ 0 }
    requires room { length stage.old + length parcel.staged ≤ stage_size }
    requires own { AreOwn seat.old.holds stage.old }
    ensures stage { length stage.new ≡ length stage.old + length parcel.staged }
    ensures credits { seat.new.credits ≡ seat.old.credits + 1 }
    ensures own { AreOwn seat.new.holds stage.new }
{
    give_back(parcel, pool, seat, stage);
}

// What a stage lends and keeps.
#[derive(Drop)]
struct Turns {
    first: Vec<u32>,
    second: Vec<u32>,
    left: u32,
    third: Vec<u32>,
    free: u32,
}

// Sends a reply of two buffers and one of one; takes the two back, and sends one of three; takes all back.
fn lend_in_turn<N: PoolName>(
    alloc: Global,
    pool: &Pool<N>,
    seat: &mut PoolSeat<N>,
    stage: &mut Stage<N>,
) -> Result<Turns, Memory>
    requires stage { length stage.old ≡ stage_size }
    requires credits { 16 ≤ seat.old.credits }
    requires own { AreOwn seat.old.holds stage.old }
    ensures stage { OnOk result (length stage.new ≡ length stage.old) }
    ensures credits { OnOk result (seat.new.credits ≡ seat.old.credits) }
    ensures own { OnOk result (AreOwn seat.new.holds stage.new) }
{
    let two = lend(alloc, pool, seat, stage, 2)?;
    let one = lend(alloc, pool, seat, stage, 1)?;
    let left = stage.free();
    take_back(two.parcel, pool, seat, stage);
    let three = lend(alloc, pool, seat, stage, 3)?;
    take_back(one.parcel, pool, seat, stage);
    take_back(three.parcel, pool, seat, stage);
    Ok(Turns {
        first: two.buffers,
        second: one.buffers,
        left,
        third: three.buffers,
        free: stage.free(),
    })
}

// Opens a stage, lends its buffers, and gives all holds back.
fn send_in_turn<N: PoolName>(alloc: Global, blank: PoolBlank) -> Result<(Turns, Held), Memory>
    requires name { (blank.table ≡ N.table) × (blank.sizes ≡ N.sizes) }
    requires rich { 16 ≤ blank.sizes.credits }
{
    let (pool, mut seat) = blank.name::<N>();
    let Ok(mut stage) = Stage::open(alloc, &pool, &mut seat) else {
        return Err(Memory);
    };
    let turns = lend_in_turn(alloc, &pool, &mut seat, &mut stage)?;
    stage.close(&pool, &mut seat);
    Ok((turns, pool.close(seat).held()))
}

// The only call of `send_in_turn`. It has no clauses.
fn send_turns(alloc: Global) -> Result<(Turns, Held), Memory> {
    let Ok(blank) = PoolBlank::open(alloc, 130, 1, 16) else {
        return Err(Memory);
    };
    send_in_turn::<Brand>(alloc, blank)
}

#[test]
fn the_least_buffers_are_lent(rt: HostRuntime) -> Result<(), Fail> {
    let (turns, held) = send_turns(rt.alloc())?;
    assert!(rt; turns.first.as_slice() == [0, 1].as_slice());
    assert!(rt; turns.second.as_slice() == [2].as_slice());
    assert!(rt; turns.third.as_slice() == [0, 1, 3].as_slice());
    assert!(rt; (turns.left, turns.free, held) == (125, 128, NONE_HELD));
    Ok(())
}
