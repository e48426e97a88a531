//! Replies that a device gathers, with puts and flushes that fail.
ghost use Rattle.std.specs.Prelude.{◌≡◌, ◌<◌, ◌≤◌, IfOk};
ghost use Rattle.frag_value.specs.Values.{HasValue};

use super::making::{Made, SessionSlot, make_line, make_range, open_session_slot};
use super::putting::{Counted, Counting, sample};
use device_model::{Device, Gathered};
use flake_base::Memory;
use frag_value::{VALUE_LIMIT, Value, release, write};
use pinned_pool::{Pool, PoolBlank, PoolName, PoolSeat};
use reply_planner::{Parcel, give_back};
use std::alloc::Global;
use std::marker::Brand;
use std::process::Abort;
use std::test::Fail;
use tx_descriptor::Framed;
use tx_ring::{Driver, ring};

/// A value, and a range of it. A run of at least `threshold` bytes stays where it lies.
#[derive(Clone, Copy)]
struct Ask<'a> {
    bytes: &'a [u8],
    threshold: u32,
    from: u64,
    len: u64,
}

/// The reply to a range of a value, and the reply of a line.
#[derive(Drop)]
struct Replies<N: PoolName> {
    owner: PoolSeat<N>,
    value: Value<N>,
    range: Made<N>,
    line: Parcel<N>,
}

fn make_both<N: PoolName>(
    alloc: Global,
    pool: &Pool<N>,
    mut owner: PoolSeat<N>,
    ask: Ask<'_>,
) -> Result<Replies<N>, Memory>
    requires credits { 1000 ≤ owner.credits }
    requires threshold { (0 < ask.threshold) × (ask.threshold ≤ 512) }
    ensures { IfOk result (λ r. HasValue r.owner.holds r.value) }
{
    if ask.bytes.len() > VALUE_LIMIT {
        return Err(Memory);
    }
    let first = open_session_slot(alloc, pool, &mut owner)?;
    let second = open_session_slot(alloc, pool, &mut owner)?;
    let Ok(value) = write(alloc, pool, &mut owner, ask.bytes) else {
        return Err(Memory);
    };
    let from = ask.from.min(value.len());
    let len = ask.len.min(value.len() - from);
    let range = make_range(pool, first, &mut owner, &value, ask.threshold, from, len)?;
    let SessionSlot {
        mut seat,
        mut stage,
    } = second;
    let line = make_line(pool, &mut seat, &mut stage, b"+PONG\r\n", 8)?;
    Ok(Replies {
        owner,
        value,
        range,
        line,
    })
}

/// Both ends of a ring.
#[derive(Drop)]
struct Ends<N: PoolName + Send>
where
    Parcel<N>: Framed,
{
    driver: Driver<Parcel<N>>,
    device: Device<N>,
}

// The first reply is posted, gathered and given back. Before it is gathered the value is replaced by other bytes. The
// last answer is how many of the reply's holds were the last of their buffers.
fn gather_replaced<N: PoolName + Send>(
    alloc: Global,
    pool: &Pool<N>,
    replies: Replies<N>,
    wire: Counted,
) -> Result<(Ends<N>, Parcel<N>, Counted, Gathered, u64), Memory>
    requires { HasValue replies.owner.holds replies.value }
{
    let Replies {
        mut owner,
        value,
        range,
        line,
    } = replies;
    let Made {
        parcel,
        mut seat,
        mut stage,
    } = range;
    let Ok((mut driver, end)) = ring::<Parcel<N>>(alloc, 64) else {
        return Err(Memory);
    };
    parcel.is_parcel();
    let Ok(()) = driver.post(parcel) else {
        return Err(Memory);
    };
    let other = vec![in alloc; b'Z'; (value.len() as usize).min(VALUE_LIMIT)]?;
    release(pool, &mut owner, value);
    let Ok(_) = write(alloc, pool, &mut owner, &other) else {
        return Err(Memory);
    };
    let mut device = Device::open(end);
    let (wire, found) = device.gather(pool, wire, &Counting);
    let Some(parcel) = driver.reap() else {
        return Err(Memory);
    };
    let lasts = give_back(parcel, pool, &mut seat, &mut stage);
    Ok((Ends { driver, device }, line, wire, found, lasts))
}

/// What a device did with a range's reply and with a line's behind it, then with nothing, and with a closed ring.
#[derive(Drop)]
struct Seen {
    segments: Vec<(u64, u32)>,
    found: [Gathered; 4],
    lasts: u64,
    failed: bool,
    wire: Counted,
}

// Posts and gathers the second reply; gathers where nothing is posted; and closes the ring and gathers again.
fn gather_rest<N: PoolName + Send>(
    pool: &Pool<N>,
    ends: Ends<N>,
    line: Parcel<N>,
    wire: Counted,
) -> Result<([Gathered; 3], bool, Counted), Memory> {
    let Ends {
        mut driver,
        mut device,
    } = ends;
    line.is_parcel();
    let Ok(()) = driver.post(line) else {
        return Err(Memory);
    };
    let (wire, second) = device.gather(pool, wire, &Counting);
    let (wire, third) = device.gather(pool, wire, &Counting);
    let Some(_) = driver.reap() else {
        return Err(Memory);
    };
    let Ok(_) = driver.close() else {
        return Err(Memory);
    };
    let (wire, fourth) = device.gather(pool, wire, &Counting);
    Ok(([second, third, fourth], device.failed(), wire))
}

fn segments_of<N: PoolName>(alloc: Global, parcel: &Parcel<N>) -> Result<Vec<(u64, u32)>, Memory> {
    let mut segments = Vec::new(alloc);
    for i in 0..parcel.count() {
        let seg = parcel.seg(i);
        segments.push((seg.address, seg.len))?;
    }
    Ok(segments)
}

fn see_named<N: PoolName + Send>(
    alloc: Global,
    blank: PoolBlank,
    ask: Ask<'_>,
    wire: Counted,
) -> Result<Seen, Memory>
    requires name { (blank.table ≡ N.table) × (blank.sizes ≡ N.sizes) }
    requires credits { 1000 ≤ blank.sizes.credits }
    requires threshold { (0 < ask.threshold) × (ask.threshold ≤ 512) }
{
    let (pool, owner) = blank.name::<N>();
    let replies = make_both(alloc, &pool, owner, ask)?;
    let segments = segments_of(alloc, &replies.range.parcel)?;
    let (ends, line, wire, first, lasts) = gather_replaced(alloc, &pool, replies, wire)?;
    let ([second, third, fourth], failed, wire) = gather_rest(&pool, ends, line, wire)?;
    Ok(Seen {
        segments,
        found: [first, second, third, fourth],
        lasts,
        failed,
        wire,
    })
}

// The only call of `see_named`. It has no clauses.
fn see(alloc: Global, ask: Ask<'_>, wire: Counted) -> Result<Seen, Memory> {
    if ask.threshold == 0 || ask.threshold > 512 {
        return Err(Memory);
    }
    let Ok(blank) = PoolBlank::open(alloc, 260, 8, 1000) else {
        return Err(Memory);
    };
    see_named::<Brand>(alloc, blank, ask, wire)
}

// The first staging buffer, the first small one behind both stages, and the first large one.
const STAGE: u64 = 1_048_576;

const SMALL: u64 = STAGE + 256 * 512;

const LARGE: u64 = STAGE + 260 * 512;

fn sent(call: u32, bytes: u64) -> Gathered {
    Gathered::Sent { call, bytes }
}

fn dropped(call: u32, bytes: u64) -> Gathered {
    Gathered::Dropped { call, bytes }
}

/// Which put fails, what the first two gathers then find, the bytes on the wire, and how often it is flushed.
#[derive(Clone, Copy)]
struct Wanted<'a> {
    fails: Option<u64>,
    first: Gathered,
    second: Gathered,
    wire: &'a [u8],
    flushes: u32,
}

// Whether all was seen that is wanted, and the reply had these segments, and so many holds that were the last ones.
fn is_right(seen: &Seen, wanted: &Wanted<'_>, segments: &[(u64, u32)], lasts: u64) -> bool {
    let found = [
        wanted.first,
        wanted.second,
        Gathered::Empty,
        Gathered::Closed,
    ];
    seen.segments.as_slice() == segments
        && seen.found == found
        && seen.wire.wire.sent() == wanted.wire
        && seen.wire.flushes == wanted.flushes
        && seen.failed == (wanted.flushes == 0)
        && seen.lasts == lasts
}

// The reply to the range of a value of the sample.
fn check(
    rt: &impl Abort,
    alloc: Global,
    ask: Ask<'_>,
    wanted: &Wanted<'_>,
    segments: &[(u64, u32)],
    lasts: u64,
) -> Result<(), Fail> {
    let wire = Counted::new(alloc, 70_000, wanted.fails, false)?;
    let seen = see(alloc, ask, wire)?;
    assert!(rt; is_right(&seen, wanted, segments, lasts));
    Ok(())
}

// The text of a bulk string, and of the line behind it.
fn text_of(alloc: Global, bytes: &[u8]) -> Result<Vec<u8>, Memory> {
    let mut text = Vec::new(alloc);
    text.extend_from_slice(format!(in alloc; "${}\r\n", bytes.len())?.as_bytes())?;
    text.extend_from_slice(bytes)?;
    text.extend_from_slice(b"\r\n+PONG\r\n")?;
    Ok(text)
}

const SIX: [(u64, u32); 6] = [
    (STAGE, 8),
    (LARGE, 4096),
    (LARGE + 4096, 4096),
    (LARGE + 8192, 4096),
    (LARGE + 12_288, 4096),
    (STAGE + 8, 2),
];

// The pieces of that reply, and the line behind it.
fn pieces(alloc: Global) -> Result<Vec<usize>, Memory> {
    let mut pieces = Vec::new(alloc);
    pieces.push(8)?;
    for _ in 0..32 {
        pieces.push(512)?;
    }
    pieces.push(2)?;
    pieces.push(7)?;
    Ok(pieces)
}

#[test]
fn each_put_fails_in_turn(rt: HostRuntime) -> Result<(), Fail> {
    let alloc = rt.alloc();
    let bytes = sample(alloc, 16_384)?;
    let text = text_of(alloc, &bytes)?;
    let ask = Ask {
        bytes: &bytes,
        threshold: 512,
        from: 0,
        len: 16_384,
    };
    let whole = Wanted {
        fails: None,
        first: sent(7, 16_394),
        second: sent(8, 7),
        wire: &text,
        flushes: 2,
    };
    check(&rt, alloc, ask, &whole, &SIX, 4)?;
    let mut before = 0usize;
    let mut number = 0u64;
    for piece in &pieces(alloc)? {
        let kept = before.wrapping_add(piece / 2).min(text.len());
        let first = if *piece == 7 {
            whole.first
        } else {
            dropped(7, 16_394)
        };
        let wanted = Wanted {
            fails: Some(number),
            first,
            second: dropped(8, 7),
            wire: &text[..kept],
            flushes: 0,
        };
        check(&rt, alloc, ask, &wanted, &SIX, 4)?;
        before = before.wrapping_add(*piece);
        number = number.wrapping_add(1);
    }
    assert_eq!(rt; before, text.len());
    Ok(())
}

#[test]
fn segments_begin_at_each_byte_of_a_word(rt: HostRuntime) -> Result<(), Fail> {
    let alloc = rt.alloc();
    let bytes = *b"abcdefghijklmnopqrstuvwxyz0123456789ABCD";
    for from in 0..17u64 {
        let text = text_of(alloc, &bytes[from as usize..from as usize + 20])?;
        let wanted = Wanted {
            fails: None,
            first: sent(7, 27),
            second: sent(8, 7),
            wire: &text,
            flushes: 2,
        };
        let ask = Ask {
            bytes: &bytes,
            threshold: 1,
            from,
            len: 20,
        };
        let segments = [(STAGE, 5), (SMALL + from, 20), (STAGE + 5, 2)];
        check(&rt, alloc, ask, &wanted, &segments, 1)?;
    }
    Ok(())
}

#[test]
fn half_of_a_piece(rt: HostRuntime) -> Result<(), Fail> {
    let alloc = rt.alloc();
    let bytes = [b'A'; 600];
    let ask = Ask {
        bytes: &bytes,
        threshold: 512,
        from: 0,
        len: 600,
    };
    let mut text = b"$600\r\n".to_vec(alloc)?;
    text.extend_from_slice(&bytes[..256])?;
    let wanted = Wanted {
        fails: Some(1),
        first: dropped(7, 608),
        second: dropped(8, 7),
        wire: &text,
        flushes: 0,
    };
    let segments = [(STAGE, 6), (LARGE, 600), (STAGE + 6, 2)];
    check(&rt, alloc, ask, &wanted, &segments, 1)
}

#[test]
fn a_flush_fails(rt: HostRuntime) -> Result<(), Fail> {
    let alloc = rt.alloc();
    let ask = Ask {
        bytes: b"abc",
        threshold: 512,
        from: 0,
        len: 3,
    };
    let seen = see(alloc, ask, Counted::new(alloc, 100, None, true)?)?;
    assert!(rt; seen.failed && seen.wire.flushes == 1 && seen.found[1] == sent(8, 7));
    assert!(rt; seen.wire.wire.sent() == b"$3\r\nabc\r\n+PONG\r\n".as_slice());
    Ok(())
}
