ghost use Rattle.std.specs.Prelude.{◌≡◌, true, false, ◌+◌, ◌<◌, ◌≤◌, [], ◌∷◌, length, IfSome};
ghost use Rattle.view_sums.specs.Total.{total};
ghost use Rattle.pin_core.specs.Holding.{sole_at};
ghost use Rattle.pinned_pool.specs.Moves.{meant_count, front_of};
ghost use Rattle.pin_core.specs.Buffers.{buffer_words};

use super::claims::claim_number;
use pinned_pool::{
    Class, Held, Hold, Memory, Pool, PoolBlank, PoolName, PoolSeat, PoolSeats, Unpinned,
};
use std::alloc::Global;
use std::marker::Brand;
use std::test::Fail;
use std::thread::{Threads, join};

// The only calls of these two. They have no clauses.
fn address<N: PoolName>(pool: &Pool<N>, buffer: u32) -> u64 {
    pool.address(buffer)
}

fn buffer_at<N: PoolName>(pool: &Pool<N>, address: u64) -> Option<(u32, u32)> {
    pool.buffer_at(address)
}

#[derive(Clone, Copy, PartialEq)]
struct Places {
    addresses: [u64; 3],
    found: [Option<(u32, u32)>; 4],
    held: Held,
}

// The addresses of three buffers, what is found at four addresses, and what is held.
fn places_of<N: PoolName>(blank: PoolBlank, buffers: [u32; 3], addresses: [u64; 4]) -> Places
    requires { (blank.table ≡ N.table) × (blank.sizes ≡ N.sizes) }
{
    let (pool, seat) = blank.name::<N>();
    let [first, second, third] = buffers;
    let [one, two, three, four] = addresses;
    Places {
        addresses: [
            address(&pool, first),
            address(&pool, second),
            address(&pool, third),
        ],
        found: [
            buffer_at(&pool, one),
            buffer_at(&pool, two),
            buffer_at(&pool, three),
            buffer_at(&pool, four),
        ],
        held: pool.close(seat).held(),
    }
}

#[test]
fn addresses_are_those_of_the_classes(rt: HostRuntime) -> Result<(), Fail> {
    let blank = PoolBlank::open(rt.alloc(), 1, 2, 4)?;
    let at = [1_049_090, 1_057_280, 1_048_575, 1_057_279];
    let wanted = Places {
        addresses: [1_048_576, 1_049_088, 1_053_184],
        found: [Some((1, 2)), None, None, Some((2, 4095))],
        held: Held { small: 0, large: 0 },
    };
    assert!(rt; places_of::<Brand>(blank, [0, 1, 2], at) == wanted);
    Ok(())
}

// The last small buffer, the first large one and the last one; its last byte, and what lies behind it.
#[test]
fn opens_at_the_limits(rt: HostRuntime) -> Result<(), Fail> {
    let blank = PoolBlank::open(rt.alloc(), 65_536, 16_384, 2_147_483_648)?;
    let at = [101_711_871, 101_711_872, 101_707_776, 101_707_775];
    let wanted = Places {
        addresses: [34_602_496, 34_603_008, 101_707_776],
        found: [
            Some((81_919, 4095)),
            None,
            Some((81_919, 0)),
            Some((81_918, 4095)),
        ],
        held: Held { small: 0, large: 0 },
    };
    assert!(rt; places_of::<Brand>(blank, [65_535, 65_536, 81_919], at) == wanted);
    Ok(())
}

// Claims small buffers, and says which it won.
fn claim_eight<N: PoolName>(
    pool: &Pool<N>,
    mut seat: PoolSeat<N>,
) -> (PoolSeat<N>, [Option<u32>; 8])
    ensures { result.0.credits ≡ seat.credits }
{
    let mut won = [None; 8];
    for k in 0..8 {
        won[k] = claim_number(pool, &mut seat, Class::Small).ok();
    }
    (seat, won)
}

fn close_joined<N: PoolName>(pool: Pool<N>, mut seat: PoolSeat<N>, other: PoolSeat<N>) -> Held
    requires { seat.credits + other.credits ≡ N.sizes.credits }
{
    pool.join(&mut seat, other);
    pool.close(seat).held()
}

fn claim_halves<N: PoolName + Send + Sync, R: Threads + Sync>(
    rt: &R,
    blank: PoolBlank,
) -> ([Option<u32>; 8], [Option<u32>; 8], Held)
    requires { (blank.table ≡ N.table) × (blank.sizes ≡ N.sizes) × (1 < N.sizes.credits) }
{
    let (pool, mut seat) = blank.name::<N>();
    let other = pool.split(&mut seat, (), 1);
    let shared = &pool;
    let (one, two) = join(
        rt,
        move || claim_eight(shared, seat),
        move || claim_eight(shared, other),
    );
    let (seat, first) = one;
    let (other, second) = two;
    (first, second, close_joined(pool, seat, other))
}

#[test]
fn two_threads_win_sixteen_buffers(rt: HostRuntime) -> Result<(), Fail> {
    let blank = PoolBlank::open(rt.alloc(), 16, 1, 2)?;
    let (first, second, held) = claim_halves::<Brand, HostRuntime>(&rt, blank);
    let mut seen = [false; 16];
    for won in first.iter().chain(&second) {
        let buffer = won.unwrap_or(u32::MAX) as usize;
        assert!(rt; buffer < 16);
        assert!(rt; !seen[buffer]);
        seen[buffer] = true;
    }
    assert!(rt;
        held == Held {
            small: 16,
            large: 0
        }
    );
    Ok(())
}

// Pins the buffer and gives the pin back, some times.
#[tactic(auto, using(pinned_pool::proofs::AfterSteps::seat_holds))]
fn pin_often<N: PoolName>(
    pool: &Pool<N>,
    owner: &mut PoolSeat<N>,
    taker: &mut PoolSeat<N>,
    hold: &Hold<N>,
    count: u32,
)
    requires { (0 < meant_count hold.now owner.old.holds) × (taker.old.holds ≡ []) × (2 < taker.old.credits) }
    ensures { (0 < meant_count hold.now owner.new.holds) × (taker.new.holds ≡ [])
        × (taker.new.credits ≡ taker.old.credits)
        × (owner.new.credits ≡ owner.old.credits) }
{
    for _ in 0..count {
        let new = pool.pin(owner, taker, hold);
        pool.unpin(taker, new);
    }
}

// The same, by a thread that has both seats.
fn pin_own<N: PoolName>(
    pool: &Pool<N>,
    mut owner: PoolSeat<N>,
    mut taker: PoolSeat<N>,
    hold: Hold<N>,
    count: u32,
) -> (PoolSeat<N>, PoolSeat<N>, Hold<N>)
    requires { (0 < meant_count hold owner.holds) × (taker.holds ≡ []) × (2 < taker.credits) }
    ensures { (0 < meant_count hold result.0.holds) × (result.1.credits ≡ taker.credits)
        × (result.0.credits ≡ owner.credits)
        × (result.2 ≡ hold) }
{
    pin_often(pool, &mut owner, &mut taker, &hold, count);
    (owner, taker, hold)
}

// Claims a buffer, and pins it for a second seat.
fn claim_and_pin<N: PoolName>(
    pool: &Pool<N>,
    first: &mut PoolSeat<N>,
    second: &mut PoolSeat<N>,
) -> Option<(Hold<N>, Hold<N>)>
    requires { (first.old.holds ≡ []) × (second.old.holds ≡ []) × (2 < second.old.credits) }
    ensures credits { first.new.credits ≡ first.old.credits }
    ensures holds { IfSome result (λ h. (0 < meant_count h.0 first.new.holds) × (h.0.pinned ≡ false)
        × (0 < meant_count h.1 second.new.holds) × (h.1.pinned ≡ true)
        × (second.new.credits + 1 ≡ second.old.credits)) }
{
    let hold = pool.claim(first, Class::Small).ok()?;
    let pinned = pool.pin(first, second, &hold);
    Some((hold, pinned))
}

// With all seats again both holds are given back, the first one last, and the pool is closed.
fn close_all<N: PoolName>(
    pool: Pool<N>,
    mut first: PoolSeat<N>,
    mut second: PoolSeat<N>,
    others: (PoolSeat<N>, PoolSeat<N>),
    hold: Hold<N>,
    pinned: Hold<N>,
) -> (Unpinned, Unpinned, Held)
    requires credits { first.credits + (second.credits + 1) + others.0.credits + others.1.credits ≡ N.sizes.credits }
    requires hold { (0 < meant_count hold first.holds) × (hold.pinned ≡ false) }
    requires pinned { (0 < meant_count pinned second.holds) × (pinned.pinned ≡ true) }
{
    let second_last = pool.unpin(&mut second, pinned);
    let first_last = pool.unpin(&mut first, hold);
    pool.join(&mut first, second);
    pool.join(&mut first, others.0);
    pool.join(&mut first, others.1);
    (second_last, first_last, pool.close(first).held())
}

fn pin_by_two<N: PoolName + Send + Sync, R: Threads + Sync>(
    rt: &R,
    blank: PoolBlank,
    count: u32,
) -> Option<(Unpinned, Unpinned, Held)>
    requires { (blank.table ≡ N.table) × (blank.sizes ≡ N.sizes) × (10 < N.sizes.credits) }
{
    let (pool, mut first) = blank.name::<N>();
    let mut second = pool.split(&mut first, (), 4);
    let third = pool.split(&mut first, (), 3);
    let fourth = pool.split(&mut first, (), 3);
    let (hold, pinned) = claim_and_pin(&pool, &mut first, &mut second)?;
    let shared = &pool;
    let ((first, third, hold), (second, fourth, pinned)) = join(
        rt,
        move || pin_own(shared, first, third, hold, count),
        move || pin_own(shared, second, fourth, pinned, count),
    );
    if hold.pinned() || !pinned.pinned() {
        return None;
    }
    let others = (third, fourth);
    Some(close_all(pool, first, second, others, hold, pinned))
}

// Each thread has a hold of the one buffer, under which it pins and unpins. After that only these two holds are left.
#[test]
fn two_threads_pin_one_buffer(rt: HostRuntime) -> Result<(), Fail> {
    let blank = PoolBlank::open(rt.alloc(), 1, 1, 16)?;
    let ended = pin_by_two::<Brand, HostRuntime>(&rt, blank, 10_000);
    let none_held = Held { small: 0, large: 0 };
    assert!(rt; ended == Some((Unpinned::NotLast, Unpinned::Last, none_held)));
    Ok(())
}

// Writes three words and the second again, and reads what the front has then.
fn write_and_read<N: PoolName>(blank: PoolBlank) -> Option<[u64; 4]>
    requires { (blank.table ≡ N.table) × (blank.sizes ≡ N.sizes) }
{
    let (pool, mut seat) = blank.name::<N>();
    let hold = pool.claim(&mut seat, Class::Small).ok()?;
    pool.put_word(&mut seat, &hold, 0, 11);
    pool.put_word(&mut seat, &hold, 1, 22);
    pool.put_word(&mut seat, &hold, 2, 33);
    let third = pool.load_word(&mut seat, &hold, 2);
    pool.put_word(&mut seat, &hold, 1, 44);
    let first = pool.load_word(&mut seat, &hold, 0);
    let second = pool.load_at(&mut seat, hold.buffer(), 1);
    let again = pool.load_word(&mut seat, &hold, 1);
    Some([first, second, third, again])
}

#[test]
fn reads_what_was_written(rt: HostRuntime) -> Result<(), Fail> {
    let blank = PoolBlank::open(rt.alloc(), 2, 0, 1)?;
    let words = write_and_read::<Brand>(blank);
    assert!(rt; words == Some([11, 44, 33, 44]));
    Ok(())
}

// The lengths of a list of two more seats, before they come and after, and how many go back into the first.
fn list_seats<N: PoolName>(alloc: Global, blank: PoolBlank) -> Result<[usize; 4], Memory>
    requires { (blank.table ≡ N.table) × (blank.sizes ≡ N.sizes) × (2 < N.sizes.credits) }
{
    let (pool, mut seat) = blank.name::<N>();
    let mut seats = PoolSeats::<N>::with_room(alloc, 2)?;
    let empty = seats.len();
    let second = pool.split(&mut seat, (), 1);
    let Ok(()) = seats.push(second) else {
        return Err(Memory);
    };
    let third = pool.split(&mut seat, (), 1);
    let Ok(()) = seats.push(third) else {
        return Err(Memory);
    };
    let full = seats.len();
    let mut taken = 0;
    if let Some(last) = seats.pop() {
        pool.join(&mut seat, last);
        taken += 1;
    }
    seats.get(0).is_seat();
    if let Some(last) = seats.pop() {
        pool.join(&mut seat, last);
        taken += 1;
    }
    let none_left = if seats.pop().is_none() { 1 } else { 0 };
    Ok([empty, full, taken, none_left])
}

#[test]
fn seats_go_into_a_list(rt: HostRuntime) -> Result<(), Fail> {
    let blank = PoolBlank::open(rt.alloc(), 1, 0, 3)?;
    assert!(rt; list_seats::<Brand>(rt.alloc(), blank)? == [0, 2, 2, 1]);
    Ok(())
}

// Writes so many words, each twice its index.
#[tactic(auto, using(pinned_pool::proofs::Still::seat_steps))]
fn fill<N: PoolName>(pool: &Pool<N>, seat: &mut PoolSeat<N>, hold: &Hold<N>, count: u32)
    requires sole { 0 < total (sole_at hold.now.buffer) seat.old.holds }
    requires count { count ≤ buffer_words N.sizes hold.now.buffer }
    ensures sole { 0 < total (sole_at hold.now.buffer) seat.new.holds }
    ensures front { count ≤ length (front_of hold.now.buffer seat.new.holds) }
    ensures held { 0 < meant_count hold.now seat.old.holds → 0 < meant_count hold.now seat.new.holds }
    ensures credits { seat.new.credits ≡ seat.old.credits }
{
    for k in 0..count {
        pool.put_word(seat, hold, k, 2 * u64::from(k));
    }
}

// The last words of a buffer of each class that was filled.
#[tactic(auto, using(pinned_pool::proofs::Still::seat_steps))]
fn fill_both<N: PoolName>(blank: PoolBlank) -> Option<[u64; 2]>
    requires { (blank.table ≡ N.table) × (blank.sizes ≡ N.sizes) }
{
    let (pool, mut seat) = blank.name::<N>();
    let small = pool.claim(&mut seat, Class::Small).ok()?;
    fill(&pool, &mut seat, &small, 64);
    let last = pool.load_word(&mut seat, &small, 63);
    let large = pool.claim(&mut seat, Class::Large).ok()?;
    fill(&pool, &mut seat, &large, 512);
    Some([last, pool.load_word(&mut seat, &large, 511)])
}

#[test]
fn fills_whole_buffers(rt: HostRuntime) -> Result<(), Fail> {
    let blank = PoolBlank::open(rt.alloc(), 3, 2, 1)?;
    let words = fill_both::<Brand>(blank);
    assert!(rt; words == Some([126, 1022]));
    Ok(())
}

// Pins a buffer that was filled for a seat that has nothing.
#[tactic(auto, using(pinned_pool::proofs::Still::seat_steps))]
fn pin_filled<N: PoolName>(
    pool: &Pool<N>,
    owner: &mut PoolSeat<N>,
    taker: &mut PoolSeat<N>,
    hold: &Hold<N>,
) -> Hold<N>
    requires hold { (0 < meant_count hold.now owner.old.holds)
        × (64 ≤ length (front_of hold.now.buffer owner.old.holds)) }
    requires taker { (taker.old.holds ≡ []) × (2 < taker.old.credits) }
    ensures hold { (0 < meant_count hold.now owner.new.holds)
        × (64 ≤ length (front_of hold.now.buffer owner.new.holds)) }
    ensures new { (0 < meant_count result taker.new.holds) × (64 ≤ length (front_of result.buffer taker.new.holds)) }
    ensures pinned { result.pinned ≡ true }
    ensures credits { (owner.new.credits ≡ owner.old.credits) × (taker.new.credits + 1 ≡ taker.old.credits) }
{
    pool.pin(owner, taker, hold)
}

// Loads all bytes of the buffer over and over. The answer is how often they were these.
#[tactic(auto, using(pinned_pool::proofs::Still::seat_steps))]
fn load_often<N: PoolName>(
    pool: &Pool<N>,
    mut seat: PoolSeat<N>,
    hold: Hold<N>,
    bytes: &[u8; 512],
    count: u32,
) -> (PoolSeat<N>, Hold<N>, u32)
    requires { (0 < meant_count hold seat.holds) × (64 ≤ length (front_of hold.buffer seat.holds)) }
    ensures { (result.0 ≡ seat) × (result.1 ≡ hold) }
{
    let mut room = [0u8; 512];
    let mut same: u32 = 0;
    for _ in 0..count {
        pool.load_bytes(&mut seat, hold.buffer(), 0, &mut room);
        if room == *bytes {
            same = same.saturating_add(1);
        }
    }
    (seat, hold, same)
}

// A seat with a pinned hold of the filled buffer.
#[derive(Drop)]
struct Loader<N: PoolName> {
    seat: PoolSeat<N>,
    hold: Hold<N>,
}

// The same by two threads. The answer has both loaders again, and what each saw.
fn load_by_two<N: PoolName + Send + Sync, R: Threads + Sync>(
    rt: &R,
    pool: &Pool<N>,
    loaders: (Loader<N>, Loader<N>),
    bytes: &[u8; 512],
    count: u32,
) -> (Loader<N>, Loader<N>, [u32; 2])
    requires first { (0 < meant_count loaders.0.hold loaders.0.seat.holds)
        × (64 ≤ length (front_of loaders.0.hold.buffer loaders.0.seat.holds)) }
    requires second { (0 < meant_count loaders.1.hold loaders.1.seat.holds)
        × (64 ≤ length (front_of loaders.1.hold.buffer loaders.1.seat.holds)) }
    ensures { (result.0 ≡ loaders.0) × (result.1 ≡ loaders.1) }
{
    let Loader {
        seat: first,
        hold: one,
    } = loaders.0;
    let Loader {
        seat: second,
        hold: two,
    } = loaders.1;
    let ((first, one, seen), (second, two, seen_too)) = join(
        rt,
        move || load_often(pool, first, one, bytes, count),
        move || load_often(pool, second, two, bytes, count),
    );
    (
        Loader {
            seat: first,
            hold: one,
        },
        Loader {
            seat: second,
            hold: two,
        },
        [seen, seen_too],
    )
}

// With all seats again the pinned holds are given back, and then the owner's, and the pool is closed.
fn close_loaded<N: PoolName>(
    pool: Pool<N>,
    mut owner: PoolSeat<N>,
    taker: PoolSeat<N>,
    loaders: (Loader<N>, Loader<N>),
    hold: Hold<N>,
) -> ([Unpinned; 3], Held)
    requires credits { owner.credits + taker.credits + (loaders.0.seat.credits + 1) + (loaders.1.seat.credits + 1)
        ≡ N.sizes.credits }
    requires hold { (0 < meant_count hold owner.holds) × (hold.pinned ≡ false) }
    requires first { (0 < meant_count loaders.0.hold loaders.0.seat.holds) × (loaders.0.hold.pinned ≡ true) }
    requires second { (0 < meant_count loaders.1.hold loaders.1.seat.holds) × (loaders.1.hold.pinned ≡ true) }
{
    let Loader {
        seat: mut first,
        hold: one,
    } = loaders.0;
    let Loader {
        seat: mut second,
        hold: two,
    } = loaders.1;
    let unpinned = [
        pool.unpin(&mut first, one),
        pool.unpin(&mut second, two),
        pool.unpin(&mut owner, hold),
    ];
    pool.join(&mut owner, taker);
    pool.join(&mut owner, first);
    pool.join(&mut owner, second);
    (unpinned, pool.close(owner).held())
}

// What was seen, and how the holds were given back.
type Loaded = ([u32; 2], [Unpinned; 3], Held);

fn load_by_three<N: PoolName + Send + Sync, R: Threads + Sync>(
    rt: &R,
    blank: PoolBlank,
    bytes: &[u8; 512],
    count: u32,
) -> Option<Loaded>
    requires { (blank.table ≡ N.table) × (blank.sizes ≡ N.sizes) × (0 < N.sizes.small) × (9 < N.sizes.credits) }
{
    let (pool, mut owner) = blank.name::<N>();
    let mut first = pool.split(&mut owner, (), 3);
    let mut second = pool.split(&mut owner, (), 3);
    let taker = pool.split(&mut owner, (), 3);
    let hold = pool.claim(&mut owner, Class::Small).ok()?;
    fill(&pool, &mut owner, &hold, 64);
    let one = pin_filled(&pool, &mut owner, &mut first, &hold);
    let two = pin_filled(&pool, &mut owner, &mut second, &hold);
    let loaders = (
        Loader {
            seat: first,
            hold: one,
        },
        Loader {
            seat: second,
            hold: two,
        },
    );
    let shared = &pool;
    let (loaded, pinned) = join(
        rt,
        move ||
            requires { (0 < meant_count loaders.0.hold loaders.0.seat.holds)
                × (64 ≤ length (front_of loaders.0.hold.buffer loaders.0.seat.holds))
                × (0 < meant_count loaders.1.hold loaders.1.seat.holds)
                × (64 ≤ length (front_of loaders.1.hold.buffer loaders.1.seat.holds)) }
        { load_by_two(rt, shared, loaders, bytes, count) },
        move || pin_own(shared, owner, taker, hold, count),
    );
    let (one, two, seen) = loaded;
    let (owner, taker, hold) = pinned;
    let (unpinned, held) = close_loaded(pool, owner, taker, (one, two), hold);
    Some((seen, unpinned, held))
}

// Two threads load the whole buffer while a third one pins and unpins it.
#[test]
fn two_threads_load_what_a_third_pins(rt: HostRuntime) -> Result<(), Fail> {
    let mut bytes = [0u8; 512];
    for k in 0..64 {
        bytes[8 * k] = 2 * k as u8;
    }
    let blank = PoolBlank::open(rt.alloc(), 1, 1, 16)?;
    let loaded = load_by_three::<Brand, HostRuntime>(&rt, blank, &bytes, 10_000);
    let unpinned = [Unpinned::NotLast, Unpinned::NotLast, Unpinned::Last];
    assert!(rt; loaded == Some(([10_000, 10_000], unpinned, Held { small: 0, large: 0 })));
    Ok(())
}
