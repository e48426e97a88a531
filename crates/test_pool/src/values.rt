ghost use Rattle.std.specs.Prelude.{◌≡◌, ℕ, false, true, ◌+◌, ◌*◌, ◌<◌, ◌≤◌, [], ◌∷◌, length, vec_len, vec_capacity};
ghost use Rattle.std.specs.Prelude.{IfSome, IfOk, IfErr, OnOk};
ghost use Rattle.flake_base.specs.Limits.{value_limit};

mod keeping;

use flake_base::Memory;
use frag_value::{
    AppendError, PlaceError, VALUE_LIMIT, Value, append, fill, hand, hand_over, hand_range,
    read_into, release, write,
};
use keeping::{keep_longer, keep_one, keep_other};
use pinned_pool::{Class, Held, NoBuffer, Pool, PoolBlank, PoolName, PoolSeat, Unpinned};
use std::alloc::Global;
use std::marker::Brand;
use std::process::Abort;
use std::test::Fail;
use test_support::copier::Copier;

const LENGTHS: [usize; 16] = [
    0, 1, 7, 8, 9, 511, 512, 513, 4095, 4096, 4097, 8192, 16385, 61440, 65535, 65536,
];

// So many bytes from this one on, which repeat after 251.
fn sample(alloc: Global, len: usize, first: usize) -> Result<Vec<u8>, Memory>
    requires { (len ≤ value_limit) × (first < 256) }
    ensures { IfOk result (λ v. vec_len v ≡ len) }
{
    let mut bytes = Vec::with_capacity(alloc, len)?;
    for k in 0..len {
        bytes.push(((first + 7 * k) % 251) as u8)?;
    }
    Ok(bytes)
}

// What came of an append: why it was refused, the value's bytes, how many buffers were given back, and what was held at
// the end.
#[derive(Drop)]
struct Kept {
    refused: Option<AppendError>,
    bytes: Vec<u8>,
    lasts: u64,
    held: Held,
}

// Writes bytes, appends others, reads all, and releases the value.
fn keep<N: PoolName>(
    alloc: Global,
    blank: PoolBlank,
    first: &[u8],
    more: &[u8],
) -> Result<Kept, Memory>
    requires name { (blank.table ≡ N.table) × (blank.sizes ≡ N.sizes) }
    requires few { length first.now ≤ value_limit }
{
    let (pool, mut seat) = blank.name::<N>();
    let Ok(value) = write(alloc, &pool, &mut seat, first) else {
        return Err(Memory);
    };
    let (refused, value) = match append(alloc, &pool, &mut seat, value, more) {
        Ok(value) => (None, value),
        Err((error, value)) => (Some(error), value),
    };
    let mut bytes = vec![in alloc; 0u8; value.len() as usize]?;
    read_into(&pool, &mut seat, &value, &mut bytes);
    let lasts = release(&pool, &mut seat, value);
    let held = pool.close(seat).held();
    Ok(Kept {
        refused,
        bytes,
        lasts,
        held,
    })
}

// The only call of `keep`. It has no clauses.
fn write_and_append(alloc: Global, first: &[u8], more: &[u8]) -> Result<Kept, Memory> {
    if first.len() > VALUE_LIMIT {
        return Err(Memory);
    }
    let Ok(blank) = PoolBlank::open(alloc, 3, 33, 2) else {
        return Err(Memory);
    };
    keep::<Brand>(alloc, blank, first, more)
}

// What has to come of it: the bytes are joined, if they are not too long together.
fn joined(first: Vec<u8>, more: &[u8]) -> Result<Kept, Memory> {
    let mut bytes = first;
    let length = (bytes.len() as u64).saturating_add(more.len() as u64);
    let mut refused = None;
    if length > VALUE_LIMIT as u64 {
        refused = Some(AppendError::TooLong { length });
    } else {
        bytes.extend_from_slice(more)?;
    }
    Ok(Kept {
        refused,
        lasts: bytes.len().div_ceil(4096) as u64,
        bytes,
        held: Held { small: 0, large: 0 },
    })
}

fn is_same(kept: &Kept, wanted: &Kept) -> bool {
    kept.refused == wanted.refused
        && kept.bytes.as_slice() == wanted.bytes.as_slice()
        && kept.lasts == wanted.lasts
        && kept.held == wanted.held
}

// Writes so many bytes, and appends so many others.
fn check_lengths(rt: &impl Abort, alloc: Global, first: usize, more: usize) -> Result<(), Fail> {
    let old = sample(alloc, first.min(VALUE_LIMIT), 1)?;
    let new = sample(alloc, more.min(VALUE_LIMIT), 100)?;
    let kept = write_and_append(alloc, &old, &new)?;
    assert!(rt; is_same(&kept, &joined(old, &new)?), "{first} and {more}");
    Ok(())
}

#[test]
fn lengths_are_written_and_appended(rt: HostRuntime) -> Result<(), Fail> {
    for first in LENGTHS {
        for more in LENGTHS {
            check_lengths(&rt, rt.alloc(), first, more)?;
        }
    }
    Ok(())
}

// What a value is made of: how many fragments it has, and the buffer and length of the first two.
#[derive(Clone, Copy, PartialEq)]
struct Shape {
    count: usize,
    first: (u32, u32),
    second: (u32, u32),
}

fn part<N: PoolName>(value: &Value<N>, i: usize) -> (u32, u32) {
    if i < value.count() {
        let frag = value.frag(i);
        (frag.hold.buffer(), frag.len)
    } else {
        (0, 0)
    }
}

fn shape_of<N: PoolName>(value: &Value<N>) -> Shape {
    Shape {
        count: value.count(),
        first: part(value, 0),
        second: part(value, 1),
    }
}

// Fills the first large buffer, and reads it.
fn fill_large<N: PoolName>(
    alloc: Global,
    blank: PoolBlank,
    bytes: &[u8],
) -> Result<(Shape, Vec<u8>), Memory>
    requires name { (blank.table ≡ N.table) × (blank.sizes ≡ N.sizes) }
    requires few { (512 < length bytes.now) × (length bytes.now ≤ 4096) }
{
    let (pool, mut seat) = blank.name::<N>();
    let mut holds = Vec::with_capacity(alloc, 1)?;
    let Ok(hold) = pool.claim(&mut seat, Class::Large) else {
        return Err(Memory);
    };
    holds.push_reserved(hold);
    let Ok(value) = fill(alloc, &pool, &mut seat, holds, bytes) else {
        return Err(Memory);
    };
    let mut room = vec![in alloc; 0u8; bytes.len()]?;
    read_into(&pool, &mut seat, &value, &mut room);
    Ok((shape_of(&value), room))
}

#[test]
fn fills_one_buffer(rt: HostRuntime) -> Result<(), Fail> {
    let bytes = sample(rt.alloc(), 513, 5)?;
    let blank = PoolBlank::open(rt.alloc(), 1, 2, 4)?;
    let (shape, room) = fill_large::<Brand>(rt.alloc(), blank, &bytes)?;
    assert!(rt; shape == one(1, 513));
    assert!(rt; room.as_slice() == bytes.as_slice());
    Ok(())
}

// What happens to a value whose buffer is pinned by another seat.
#[derive(Drop)]
struct Shared {
    written: Shape,
    appended: Shape,
    refused: Option<PlaceError>,
    seen: Vec<u8>,
    unpinned: Unpinned,
    again: Shape,
}

// Writes a value, which a second seat pins; appends to it, and writes once more before and after the second seat gives
// its hold back.
fn share<N: PoolName>(
    alloc: Global,
    blank: PoolBlank,
    bytes: &[u8],
    more: &[u8],
    other: &[u8],
) -> Result<Shared, Memory>
    requires name { (blank.table ≡ N.table) × (blank.sizes ≡ N.sizes) × (8 < N.sizes.credits) }
    requires few { (length bytes.now ≤ 4096) × (length more.now ≤ 4096) × (length other.now ≤ 4096) }
{
    let (pool, mut first) = blank.name::<N>();
    let mut second = pool.split(&mut first, (), 8);
    let Ok(value) = write(alloc, &pool, &mut first, bytes) else {
        return Err(Memory);
    };
    if value.count() == 0 {
        return Err(Memory);
    }
    let written = shape_of(&value);
    let len = value.frag(0).len;
    let hold = pool.pin(&mut first, &mut second, &value.frag(0).hold);
    let Ok(value) = append(alloc, &pool, &mut first, value, more) else {
        return Err(Memory);
    };
    let appended = shape_of(&value);
    let refused = write(alloc, &pool, &mut first, other).err();
    let mut seen = vec![in alloc; 0u8; len as usize]?;
    pool.load_bytes(&mut second, hold.buffer(), 0, &mut seen);
    let unpinned = pool.unpin(&mut second, hold);
    let Ok(again) = write(alloc, &pool, &mut first, other) else {
        return Err(Memory);
    };
    Ok(Shared {
        written,
        appended,
        refused,
        seen,
        unpinned,
        again: shape_of(&again),
    })
}

// The shape of a value of one fragment.
const fn one(buffer: u32, len: u32) -> Shape {
    Shape {
        count: 1,
        first: (buffer, len),
        second: (0, 0),
    }
}

const BYTES: [u8; 4090] = [b'A'; 4090];

// The only call of `share`. It has no clauses.
fn share_four(alloc: Global) -> Result<Shared, Memory> {
    let Ok(blank) = PoolBlank::open(alloc, 4, 2, 16) else {
        return Err(Memory);
    };
    share::<Brand>(alloc, blank, &BYTES, &[b'B'; 10], &[b'C'; 4096])
}

#[test]
fn a_pinned_fragment_is_not_written_again(rt: HostRuntime) -> Result<(), Fail> {
    let shared = share_four(rt.alloc())?;
    let two = Shape {
        count: 2,
        first: (5, 4096),
        second: (0, 4),
    };
    let none = NoBuffer {
        class: Class::Large,
        looked: 2,
    };
    assert!(rt; shared.written == one(4, 4090) && shared.appended == two);
    assert!(rt; shared.refused == Some(PlaceError::NoBuffer(none)));
    assert!(rt; shared.seen.as_slice() == BYTES.as_slice() && shared.unpinned == Unpinned::Last);
    assert!(rt; shared.again == one(4, 4096));
    Ok(())
}

// Writes a value, and hands it to a taker, with its holds or without. The answer has how many buffers are held then.
fn hand_to_copier<N: PoolName>(
    alloc: Global,
    blank: PoolBlank,
    bytes: &[u8],
    over: bool,
) -> Result<(Copier, Held), Memory>
    requires name { (blank.table ≡ N.table) × (blank.sizes ≡ N.sizes) }
    requires few { length bytes.now ≤ value_limit }
{
    let (pool, mut seat) = blank.name::<N>();
    let Ok(value) = write(alloc, &pool, &mut seat, bytes) else {
        return Err(Memory);
    };
    let mut copier = Copier::new(alloc)?;
    if over {
        hand_over(&pool, &mut seat, value, &mut copier);
    } else {
        hand(&pool, &mut seat, &value, &mut copier);
    }
    Ok((copier, pool.close(seat).held()))
}

/// What a taker was handed: its size, and of each run where it lies, from which byte on and how long it is; how many
/// holds came with them, and the bytes.
#[derive(Drop)]
struct Taken {
    taking: bool,
    whole: bool,
    size: u64,
    runs: Vec<(u64, u32, usize)>,
    over: u64,
    bytes: Vec<u8>,
}

fn taken_by(alloc: Global, copier: &Copier) -> Result<Taken, Memory> {
    let mut bytes = Vec::new(alloc);
    let mut runs = Vec::new(alloc);
    let mut over: u64 = 0;
    for copy in &copier.copies {
        bytes.extend_from_slice(&copy.bytes[..copy.len])?;
        runs.push((copy.address, copy.offset, copy.len))?;
        if copy.over {
            over = over.saturating_add(1);
        }
    }
    Ok(Taken {
        taking: copier.taking,
        whole: copier.whole,
        size: copier.size,
        runs,
        over,
        bytes,
    })
}

// The only call of `hand_to_copier`, over a pool of so many large buffers. It has no clauses.
fn handed(alloc: Global, bytes: &[u8], large: u32, over: bool) -> Result<(Taken, Held), Memory> {
    if bytes.len() > VALUE_LIMIT || large > 17 {
        return Err(Memory);
    }
    let Ok(blank) = PoolBlank::open(alloc, 2, large, 1) else {
        return Err(Memory);
    };
    let (copier, held) = hand_to_copier::<Brand>(alloc, blank, bytes, over)?;
    Ok((taken_by(alloc, &copier)?, held))
}

const FIVE: [(u64, u32, usize); 5] = [
    (1_049_600, 0, 4_096),
    (1_053_696, 0, 4_096),
    (1_057_792, 0, 4_096),
    (1_061_888, 0, 4_096),
    (1_048_576, 0, 1),
];

// The address and length of each fragment, and whether its hold came with it, of a value of five fragments.
fn check_handed(rt: &impl Abort, alloc: Global, over: bool, held: Held) -> Result<(), Fail> {
    let bytes = sample(alloc, 16_385, 3)?;
    let (taken, left) = handed(alloc, &bytes, 4, over)?;
    assert!(rt; !taken.taking && taken.whole && taken.size == 16_385 && left == held);
    assert!(rt; taken.over == if over { 5 } else { 0 });
    assert!(rt;
        taken.bytes.as_slice() == bytes.as_slice() && taken.runs.as_slice() == FIVE.as_slice()
    );
    Ok(())
}

#[test]
fn a_taker_is_handed_each_fragment(rt: HostRuntime) -> Result<(), Fail> {
    check_handed(&rt, rt.alloc(), false, Held { small: 1, large: 4 })?;
    check_handed(&rt, rt.alloc(), true, Held { small: 0, large: 0 })
}

// Writes a value, and hands a range of it to a taker.
fn hand_range_to_copier<N: PoolName>(
    alloc: Global,
    blank: PoolBlank,
    bytes: &[u8],
    from: u64,
    len: u64,
) -> Result<Copier, Memory>
    requires name { (blank.table ≡ N.table) × (blank.sizes ≡ N.sizes) }
    requires few { length bytes.now ≤ value_limit }
    requires within { from + len ≤ length bytes.now }
{
    let (pool, mut seat) = blank.name::<N>();
    let Ok(value) = write(alloc, &pool, &mut seat, bytes) else {
        return Err(Memory);
    };
    let mut copier = Copier::new(alloc)?;
    if from + len <= value.len() {
        hand_range(&pool, &mut seat, &value, from, len, &mut copier);
    }
    Ok(copier)
}

/// A range of a value of 16,385 bytes: its first place, its length, and the address, offset and length of each run.
type Row = (u64, u64, &'static [(u64, u32, usize)]);

static RANGES: [Row; 9] = [
    (0, 0, &[]),
    (16_385, 0, &[]),
    (0, 1, &[(1_049_600, 0, 1)]),
    (4_095, 1, &[(1_049_600, 4_095, 1)]),
    (4_096, 1, &[(1_053_696, 0, 1)]),
    (4_095, 2, &[(1_049_600, 4_095, 1), (1_053_696, 0, 1)]),
    (
        4_090,
        4_110,
        &[
            (1_049_600, 4_090, 6),
            (1_053_696, 0, 4_096),
            (1_057_792, 0, 8),
        ],
    ),
    (16_384, 1, &[(1_048_576, 0, 1)]),
    (
        0,
        16_385,
        &[
            (1_049_600, 0, 4_096),
            (1_053_696, 0, 4_096),
            (1_057_792, 0, 4_096),
            (1_061_888, 0, 4_096),
            (1_048_576, 0, 1),
        ],
    ),
];

// The only call of `hand_range_to_copier`, of a value of 16,385 bytes. It has no clauses.
fn range_handed(alloc: Global, bytes: &[u8], from: u64, len: u64) -> Result<Taken, Memory> {
    if bytes.len() != 16_385 || from > 16_385 || len > 16_385 - from {
        return Err(Memory);
    }
    let Ok(blank) = PoolBlank::open(alloc, 2, 4, 1) else {
        return Err(Memory);
    };
    let copier = hand_range_to_copier::<Brand>(alloc, blank, bytes, from, len)?;
    taken_by(alloc, &copier)
}

fn check_range(rt: &impl Abort, alloc: Global, bytes: &[u8], row: Row) -> Result<(), Fail> {
    let (from, len, want) = row;
    let taken = range_handed(alloc, bytes, from, len)?;
    assert!(rt; !taken.taking && !taken.whole && taken.size == len && taken.over == 0);
    assert!(rt; taken.runs.as_slice() == want, "{from} and {len}");
    let end = from.saturating_add(len) as usize;
    assert!(rt;
        Some(taken.bytes.as_slice()) == bytes.get(from as usize..end),
        "{from} and {len}"
    );
    Ok(())
}

// The bytes in fragments of 4,096: 16 of them, each in a large buffer.
fn check_longest(rt: &impl Abort, alloc: Global) -> Result<(), Fail> {
    let bytes = sample(alloc, 65_536, 3)?;
    let (taken, left) = handed(alloc, &bytes, 17, false)?;
    let held = Held {
        small: 0,
        large: 16,
    };
    assert!(rt; taken.size == 65_536 && taken.bytes.as_slice() == bytes.as_slice() && left == held);
    let mut runs = Vec::new(alloc);
    for buffer in 0..16u64 {
        runs.push((1_049_600 + 4_096 * buffer, 0, 4_096))?;
    }
    assert!(rt; taken.runs.as_slice() == runs.as_slice());
    Ok(())
}

#[test]
fn the_longest_value_has_sixteen_fragments(rt: HostRuntime) -> Result<(), Fail> {
    check_longest(&rt, rt.alloc())
}

#[test]
fn a_taker_is_handed_each_run_of_a_range(rt: HostRuntime) -> Result<(), Fail> {
    let bytes = sample(rt.alloc(), 16_385, 3)?;
    for row in &RANGES {
        check_range(&rt, rt.alloc(), &bytes, *row)?;
    }
    Ok(())
}

// A value of one seat for which another one pays is replaced, appended to, and given back. The answer has both lengths,
// and how many holds were the last of their buffers.
fn keep_and_release<N: PoolName>(
    alloc: Global,
    blank: PoolBlank,
    bytes: &[u8],
) -> Result<(u64, u64, u64), Memory>
    requires name { (blank.table ≡ N.table) × (blank.sizes ≡ N.sizes) × (2 < N.sizes.credits) }
    requires few { (0 < length bytes.now) × (length bytes.now ≤ value_limit) }
{
    let (pool, mut payer) = blank.name::<N>();
    let mut owner = pool.split(&mut payer, (), 1);
    let Ok(first) = keep_one(alloc, &pool, &mut owner, &mut payer, bytes) else {
        return Err(Memory);
    };
    let Ok(second) = keep_other(alloc, &pool, &mut owner, &mut payer, first, bytes) else {
        return Err(Memory);
    };
    let len = second.len();
    let Ok(third) = keep_longer(alloc, &pool, &mut owner, &mut payer, second, bytes) else {
        return Err(Memory);
    };
    let longer = third.len();
    Ok((len, longer, release(&pool, &mut owner, third)))
}

#[test]
fn values_go_to_the_seat_that_keeps_them(rt: HostRuntime) -> Result<(), Fail> {
    let bytes = [b'k'; 5_000];
    let blank = PoolBlank::open(rt.alloc(), 2, 5, 4)?;
    let kept = keep_and_release::<Brand>(rt.alloc(), blank, &bytes)?;
    assert!(rt; kept == (5_000, 10_000, 3));
    Ok(())
}
