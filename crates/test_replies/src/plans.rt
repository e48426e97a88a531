//! Replies over values that the tests write, as lists of segments.
ghost use Rattle.std.specs.Prelude.{◌≡◌, ◌+◌, ◌*◌, ◌<◌, ◌≤◌, ◌++◌, length, None};
ghost use Rattle.flake_base.specs.Limits.{value_limit};
ghost use Rattle.frag_value.specs.Values.{HasValue};
ghost use Rattle.reply_layout.specs.Gathered.{text_of_pieces};
ghost use Rattle.reply_planner.specs.Laid.{pieces_in};
ghost use Rattle.reply_planner.specs.Owned.{AreOwn};
ghost use Rattle.reply_planner.specs.Planned.{room_of};
ghost use Rattle.reply_planner.specs.Stages.{stage_size};

use super::putting::sample;
use flake_base::Memory;
use frag_value::{Taker, VALUE_LIMIT, Value, hand, hand_over, hand_range, release, write};
use pinned_pool::{Pool, PoolBlank, PoolName, PoolSeat};
use reply_planner::{Need, Parcel, Plan, Stage, give_back};
use std::alloc::Global;
use std::marker::Brand;
use std::process::Abort;
use std::test::Fail;

// What was gathered of a parcel: where each segment lies and how long it is, and the bytes there.
#[derive(Drop)]
struct Gathered {
    segments: Vec<(u64, u32)>,
    text: Vec<u8>,
}

// Reads a segment as a device does.
fn gather_one<N: PoolName>(
    alloc: Global,
    pool: &Pool<N>,
    parcel: &mut Parcel<N>,
    i: usize,
    gathered: &mut Gathered,
) -> Result<(), Memory>
    requires { i < length parcel.old.segments }
    ensures { parcel.new ≡ parcel.old }
{
    let seg = parcel.seg(i);
    gathered.segments.push((seg.address, seg.len))?;
    let Some((buffer, offset)) = pool.buffer_at(seg.address) else {
        return Ok(());
    };
    let mut room = vec![in alloc; 0u8; seg.len as usize]?;
    parcel.load_bytes(pool, buffer, offset, &mut room);
    gathered.text.extend_from_slice(&room)?;
    Ok(())
}

fn gather<N: PoolName>(
    alloc: Global,
    pool: &Pool<N>,
    parcel: &mut Parcel<N>,
) -> Result<Gathered, Memory>
    ensures { parcel.new ≡ parcel.old }
{
    let mut gathered = Gathered {
        segments: Vec::new(alloc),
        text: Vec::new(alloc),
    };
    for i in 0..parcel.count() {
        gather_one(alloc, pool, parcel, i, &mut gathered)?;
    }
    Ok(gathered)
}

// A reply that was sent: what was gathered, and how many buffers its return freed.
#[derive(Drop)]
struct Reply {
    gathered: Gathered,
    call: u32,
    len: u64,
    lasts: u64,
}

// Seals a plan, gathers its parcel and gives it back.
fn send<N: PoolName>(
    alloc: Global,
    pool: &Pool<N>,
    plan: Plan<'_, N>,
    seat: &mut PoolSeat<N>,
    stage: &mut Stage<N>,
) -> Result<Reply, Memory>
    requires done { plan.begun ≡ None }
    requires some { 0 < length (text_of_pieces (pieces_in plan.taken)) }
    requires room { length stage.old + length plan.base.stage ≤ stage_size }
    requires own { AreOwn seat.old.holds (stage.old ++ plan.base.stage) }
{
    let mut parcel = plan.seal(seat, stage, 7);
    let gathered = gather(alloc, pool, &mut parcel);
    let (call, len) = (parcel.call(), parcel.len());
    let lasts = give_back(parcel, pool, seat, stage);
    Ok(Reply {
        gathered: gathered?,
        call,
        len,
        lasts,
    })
}

// A reply of a head, so many times the same value, and so many nulls.
#[derive(Clone, Copy)]
struct Ask<'a> {
    threshold: u32,
    head: &'a [u8],
    times: usize,
    nulls: usize,
}

fn hand_often<N: PoolName>(
    pool: &Pool<N>,
    owner: &mut PoolSeat<N>,
    value: &Value<N>,
    plan: &mut Plan<'_, N>,
    times: usize,
)
    requires none { plan.old.begun ≡ None }
    requires room { times ≤ room_of plan.old }
    requires value { HasValue owner.old.holds value.now }
    ensures none { plan.new.begun ≡ None }
    ensures base { plan.new.base ≡ plan.old.base }
    ensures room { room_of plan.old ≤ room_of plan.new + times }
    ensures some { 0 < times → 0 < length (text_of_pieces (pieces_in plan.new.taken)) }
{
    for _ in 0..times {
        hand(pool, owner, value, plan);
    }
}

fn copy_nulls<N: PoolName>(plan: &mut Plan<'_, N>, nulls: usize)
    requires none { plan.old.begun ≡ None }
    requires room { nulls ≤ room_of plan.old }
    ensures none { plan.new.begun ≡ None }
    ensures base { plan.new.base ≡ plan.old.base }
    ensures more { length (text_of_pieces (pieces_in plan.old.taken)) ≤ length
        (text_of_pieces (pieces_in plan.new.taken)) }
{
    for _ in 0..nulls {
        plan.copy(b"$-1\r\n");
    }
}

// A pool with an open stage, and a seat whose values are replied.
#[derive(Drop)]
struct SessionSlot<N: PoolName> {
    pool: Pool<N>,
    seat: PoolSeat<N>,
    stage: Stage<N>,
    owner: PoolSeat<N>,
    ghost free: { length stage ≡ stage_size },
    ghost own: { AreOwn seat.holds stage },
    ghost rich: { 1300 ≤ seat.credits },
}

fn open_session_slot<N: PoolName>(alloc: Global, blank: PoolBlank) -> Result<SessionSlot<N>, Memory>
    requires name { (blank.table ≡ N.table) × (blank.sizes ≡ N.sizes) }
    requires rich { 1400 ≤ blank.sizes.credits }
{
    let (pool, mut seat) = blank.name::<N>();
    let owner = pool.split(&mut seat, (), 1);
    let Ok(stage) = Stage::open(alloc, &pool, &mut seat) else {
        return Err(Memory);
    };
    Ok(SessionSlot {
        pool,
        seat,
        stage,
        owner,
    })
}

// A head, and a value or a null several times.
fn answer<N: PoolName>(
    alloc: Global,
    slot: SessionSlot<N>,
    bytes: &[u8],
    ask: Ask<'_>,
) -> Result<Reply, Memory>
    requires few { length bytes.now ≤ value_limit }
    requires threshold { (0 < ask.threshold) × (ask.threshold ≤ 512) }
    requires times { (0 < ask.times) × (ask.times + ask.nulls ≤ 64) }
    requires head { length ask.head.now ≤ 23 }
{
    let SessionSlot {
        pool,
        mut seat,
        mut stage,
        mut owner,
    } = slot;
    let Ok(value) = write(alloc, &pool, &mut owner, bytes) else {
        return Err(Memory);
    };
    let need = Need::values(ask.times + ask.nulls, ask.head.len());
    let mut plan = Plan::start(&pool, &mut seat, &mut stage, need, ask.threshold)?;
    plan.copy(ask.head);
    hand_often(&pool, &mut owner, &value, &mut plan, ask.times);
    copy_nulls(&mut plan, ask.nulls);
    send(alloc, &pool, plan, &mut seat, &mut stage)
}

// A range of a value.
fn answer_part<N: PoolName>(
    alloc: Global,
    slot: SessionSlot<N>,
    bytes: &[u8],
    threshold: u32,
    from: u64,
    len: u64,
) -> Result<Reply, Memory>
    requires few { length bytes.now ≤ value_limit }
    requires threshold { (0 < threshold) × (threshold ≤ 512) }
    requires within { from + len ≤ length bytes.now }
{
    let SessionSlot {
        pool,
        mut seat,
        mut stage,
        mut owner,
    } = slot;
    let Ok(value) = write(alloc, &pool, &mut owner, bytes) else {
        return Err(Memory);
    };
    let mut plan = Plan::start(&pool, &mut seat, &mut stage, Need::range(), threshold)?;
    hand_range(&pool, &mut owner, &value, from, len, &mut plan);
    send(alloc, &pool, plan, &mut seat, &mut stage)
}

// A value with its holds.
fn answer_over<N: PoolName>(
    alloc: Global,
    slot: SessionSlot<N>,
    bytes: &[u8],
    threshold: u32,
) -> Result<Reply, Memory>
    requires few { length bytes.now ≤ value_limit }
    requires threshold { (0 < threshold) × (threshold ≤ 512) }
{
    let SessionSlot {
        pool,
        mut seat,
        mut stage,
        mut owner,
    } = slot;
    let Ok(value) = write(alloc, &pool, &mut owner, bytes) else {
        return Err(Memory);
    };
    let need = Need::values(1, 0);
    let mut plan = Plan::start(&pool, &mut seat, &mut stage, need, threshold)?;
    hand_over(&pool, &mut owner, value, &mut plan);
    send(alloc, &pool, plan, &mut seat, &mut stage)
}

// A plan that has a value, and has begun another, is given up, and the value is released.
fn give_up<N: PoolName>(
    alloc: Global,
    slot: SessionSlot<N>,
    bytes: &[u8],
    threshold: u32,
) -> Result<SessionSlot<N>, Memory>
    requires few { length bytes.now ≤ value_limit }
    requires threshold { (0 < threshold) × (threshold ≤ 512) }
{
    let SessionSlot {
        pool,
        mut seat,
        mut stage,
        mut owner,
    } = slot;
    let Ok(value) = write(alloc, &pool, &mut owner, bytes) else {
        return Err(Memory);
    };
    let need = Need::values(2, 0);
    let mut plan = Plan::start(&pool, &mut seat, &mut stage, need, threshold)?;
    hand(&pool, &mut owner, &value, &mut plan);
    plan.begin(value.len());
    plan.cancel(&mut seat, &mut stage);
    release(&pool, &mut owner, value);
    Ok(SessionSlot {
        pool,
        seat,
        stage,
        owner,
    })
}

// What is asked of a reply: a value several times, also once a plan was given up, a range of one, or one with its
// holds.
#[derive(Clone, Copy)]
enum Way {
    Whole,
    Again,
    Part(u64, u64),
    Over,
}

fn reply_to<N: PoolName>(
    alloc: Global,
    blank: PoolBlank,
    bytes: &[u8],
    ask: Ask<'_>,
    way: Way,
) -> Result<Reply, Memory>
    requires name { (blank.table ≡ N.table) × (blank.sizes ≡ N.sizes) }
    requires rich { 1400 ≤ blank.sizes.credits }
    requires few { length bytes.now ≤ value_limit }
    requires threshold { (0 < ask.threshold) × (ask.threshold ≤ 512) }
    requires times { (0 < ask.times) × (ask.times + ask.nulls ≤ 64) }
    requires head { length ask.head.now ≤ 23 }
{
    let slot = open_session_slot::<N>(alloc, blank)?;
    match way {
        Way::Whole => answer(alloc, slot, bytes, ask),
        Way::Again => {
            let slot = give_up(alloc, slot, bytes, ask.threshold)?;
            answer(alloc, slot, bytes, ask)
        }
        Way::Part(from, len) => {
            let from = from.min(bytes.len() as u64);
            let len = len.min(bytes.len() as u64 - from);
            answer_part(alloc, slot, bytes, ask.threshold, from, len)
        }
        Way::Over => answer_over(alloc, slot, bytes, ask.threshold),
    }
}

fn add_bulk(alloc: Global, text: &mut Vec<u8>, bytes: &[u8]) -> Result<(), Memory> {
    text.extend_from_slice(format!(in alloc; "${}\r\n", bytes.len())?.as_bytes())?;
    text.extend_from_slice(bytes)?;
    text.extend_from_slice(b"\r\n")?;
    Ok(())
}

// The bytes that a reply has.
fn text_for(alloc: Global, bytes: &[u8], ask: Ask<'_>, way: Way) -> Result<Vec<u8>, Memory> {
    let mut text = Vec::new(alloc);
    match way {
        Way::Whole | Way::Again => {
            text.extend_from_slice(ask.head)?;
            for _ in 0..ask.times {
                add_bulk(alloc, &mut text, bytes)?;
            }
            for _ in 0..ask.nulls {
                text.extend_from_slice(b"$-1\r\n")?;
            }
        }
        Way::Part(from, len) => {
            let (from, len) = (from as usize, len as usize);
            if from <= bytes.len() && len <= bytes.len() - from {
                add_bulk(alloc, &mut text, &bytes[from..from + len])?;
            }
        }
        Way::Over => add_bulk(alloc, &mut text, bytes)?,
    }
    Ok(text)
}

/// A value of so many bytes, what is asked of a reply to it, the reply's segments, and how many of its holds are the
/// last of their buffers.
#[derive(Clone, Copy)]
struct Row<'a> {
    len: usize,
    ask: Ask<'a>,
    way: Way,
    segments: &'a [(u64, u32)],
    lasts: u64,
}

// The only call of `reply_to`. It has no clauses.
fn make_reply(alloc: Global, bytes: &[u8], ask: Ask<'_>, way: Way) -> Result<Reply, Memory> {
    if bytes.len() > VALUE_LIMIT || ask.threshold == 0 || ask.threshold > 512 {
        return Err(Memory);
    }
    if ask.times == 0 || ask.times > 64 || ask.nulls > 64 - ask.times || ask.head.len() > 23 {
        return Err(Memory);
    }
    let Ok(blank) = PoolBlank::open(alloc, 4096, 1024, 2000) else {
        return Err(Memory);
    };
    reply_to::<Brand>(alloc, blank, bytes, ask, way)
}

// Whether the reply has the row's segments, with these bytes.
fn is_right(reply: &Reply, row: &Row<'_>, text: &[u8]) -> bool {
    reply.gathered.segments.as_slice() == row.segments
        && reply.gathered.text.as_slice() == text
        && reply.len == text.len() as u64
        && reply.call == 7
        && reply.lasts == row.lasts
}

// The reply has these segments, with the bytes that it has to have.
fn check(rt: &impl Abort, alloc: Global, row: &Row<'_>) -> Result<(), Fail> {
    let bytes = sample(alloc, row.len)?;
    let text = text_for(alloc, &bytes, row.ask, row.way)?;
    let reply = make_reply(alloc, &bytes, row.ask, row.way)?;
    assert!(rt; is_right(&reply, row, &text), "{}", row.len);
    Ok(())
}

const GET: Ask<'static> = Ask {
    threshold: 512,
    head: b"",
    times: 1,
    nulls: 0,
};

const MGET: Ask<'static> = Ask {
    threshold: 512,
    head: b"*3\r\n",
    times: 2,
    nulls: 1,
};

// The first buffer of a stage, the first that is behind it, and the first large one.
const STAGE: u64 = 1_048_576;

const SMALL: u64 = 1_114_112;

const LARGE: u64 = 3_145_728;

static ROWS: [Row<'static>; 17] = [
    // Short values are copied, over two buffers too, and bytes that end where a buffer does take no other.
    Row {
        len: 511,
        ask: GET,
        way: Way::Whole,
        segments: &[(STAGE, 512), (STAGE + 512, 7)],
        lasts: 0,
    },
    Row {
        len: 504,
        ask: GET,
        way: Way::Whole,
        segments: &[(STAGE, 512)],
        lasts: 0,
    },
    Row {
        len: 505,
        ask: GET,
        way: Way::Whole,
        segments: &[(STAGE, 512), (STAGE + 512, 1)],
        lasts: 0,
    },
    // Long ones stay.
    Row {
        len: 512,
        ask: GET,
        way: Way::Whole,
        segments: &[(STAGE, 6), (SMALL, 512), (STAGE + 6, 2)],
        lasts: 0,
    },
    Row {
        len: 513,
        ask: GET,
        way: Way::Whole,
        segments: &[(STAGE, 6), (LARGE, 513), (STAGE + 6, 2)],
        lasts: 0,
    },
    Row {
        len: 16_385,
        ask: GET,
        way: Way::Whole,
        segments: &[
            (STAGE, 8),
            (LARGE, 4096),
            (LARGE + 4096, 4096),
            (LARGE + 8192, 4096),
            (LARGE + 12_288, 4096),
            (STAGE + 8, 3),
        ],
        lasts: 0,
    },
    // With its holds.
    Row {
        len: 600,
        ask: GET,
        way: Way::Over,
        segments: &[(STAGE, 6), (LARGE, 600), (STAGE + 6, 2)],
        lasts: 1,
    },
    // Several values.
    Row {
        len: 600,
        ask: MGET,
        way: Way::Whole,
        segments: &[
            (STAGE, 10),
            (LARGE, 600),
            (STAGE + 10, 8),
            (LARGE, 600),
            (STAGE + 18, 7),
        ],
        lasts: 0,
    },
    // Thresholds.
    Row {
        len: 1,
        ask: Ask {
            threshold: 1,
            ..GET
        },
        way: Way::Whole,
        segments: &[(STAGE, 4), (SMALL, 1), (STAGE + 4, 2)],
        lasts: 0,
    },
    Row {
        len: 100,
        ask: Ask {
            threshold: 100,
            ..GET
        },
        way: Way::Whole,
        segments: &[(STAGE, 6), (SMALL, 100), (STAGE + 6, 2)],
        lasts: 0,
    },
    Row {
        len: 511,
        ask: Ask {
            threshold: 511,
            ..GET
        },
        way: Way::Whole,
        segments: &[(STAGE, 6), (SMALL, 511), (STAGE + 6, 2)],
        lasts: 0,
    },
    Row {
        len: 99,
        ask: Ask {
            threshold: 100,
            ..GET
        },
        way: Way::Whole,
        segments: &[(STAGE, 106)],
        lasts: 0,
    },
    Row {
        len: 510,
        ask: Ask {
            threshold: 511,
            ..GET
        },
        way: Way::Whole,
        segments: &[(STAGE, 512), (STAGE + 512, 6)],
        lasts: 0,
    },
    // Ranges that begin and end inside fragments.
    Row {
        len: 5000,
        ask: GET,
        way: Way::Part(100, 4900),
        segments: &[
            (STAGE, 7),
            (LARGE + 100, 3996),
            (LARGE + 4096, 904),
            (STAGE + 7, 2),
        ],
        lasts: 0,
    },
    Row {
        len: 9000,
        ask: GET,
        way: Way::Part(4000, 4200),
        segments: &[(STAGE, 103), (LARGE + 4096, 4096), (STAGE + 103, 10)],
        lasts: 0,
    },
    // A plan that was given up left all as it was.
    Row {
        len: 600,
        ask: GET,
        way: Way::Again,
        segments: &[(STAGE, 6), (LARGE, 600), (STAGE + 6, 2)],
        lasts: 0,
    },
    Row {
        len: 511,
        ask: GET,
        way: Way::Again,
        segments: &[(STAGE, 512), (STAGE + 512, 7)],
        lasts: 0,
    },
];

#[test]
fn segments_of_replies(rt: HostRuntime) -> Result<(), Fail> {
    for row in &ROWS {
        check(&rt, rt.alloc(), row)?;
    }
    Ok(())
}

#[test]
fn sixty_four_short_values(rt: HostRuntime) -> Result<(), Fail> {
    let mut segments = Vec::with_capacity(rt.alloc(), 65)?;
    for i in 0..64 {
        segments.push((STAGE + 512 * i, 512))?;
    }
    segments.push((STAGE + 512 * 64, 453))?;
    let row = Row {
        len: 511,
        ask: Ask {
            threshold: 512,
            head: b"*64\r\n",
            times: 64,
            nulls: 0,
        },
        way: Way::Whole,
        segments: &segments,
        lasts: 0,
    };
    check(&rt, rt.alloc(), &row)
}
