//! A store over a pool and a book of its own, and two sessions that ask in threads of their own.
ghost use Rattle.std.specs.Prelude.{◌≡◌, ◌+◌, ◌<◌, ◌≤◌};

use flake_base::{Entry, Journal, Memory, Seg, Segs, Sequence};
use order_book::{Book, BookBlank, BookName, SessionSeat};
use pinned_pool::{ClaimStart, Held, Pool, PoolBlank, PoolName, PoolSeat};
use shard_part::VALUE_LIMIT;
use shard_store::{AskedPart, Commons, Part, PartAnswer, PartOp, Parts, Store, open_seats};
use std::alloc::Global;
use std::sync::Wait;
use std::thread::{Threads, join};
use test_support::copier::Copier;

/// A part that a session asks for, by its call's number and its own, and where its claims begin.
#[derive(Clone, Copy, Drop)]
pub struct Ask<'a> {
    pub call: u32,
    pub part: u16,
    pub op: PartOp,
    pub key: &'a [u8],
    pub value: &'a [u8],
    pub start: ClaimStart,
}

/// What one part did: its answer, the bytes that the taker got, and the segments that it stored.
#[derive(Drop)]
pub struct Seen {
    pub answer: PartAnswer,
    pub bytes: Vec<u8>,
    pub stored: Vec<Seg>,
}

/// What both sessions saw, the shards' histories, and how many buffers the store held at the end.
#[derive(Drop)]
pub struct Outcome {
    pub first: Vec<Seen>,
    pub second: Vec<Seen>,
    pub journal: Journal,
    pub held: Held,
}

/// A session's seats.
#[derive(Drop)]
struct Session<N: BookName, P: PoolName> {
    seat: PoolSeat<P>,
    mine: SessionSeat<N>,
    ghost rich: { 1 < seat.credits },
}

fn run_one<N: BookName, P: PoolName, R: Wait>(
    rt: &R,
    alloc: Global,
    store: &Store<N, P>,
    pool: &Pool<P>,
    book: &Book<N>,
    session: &mut Session<N, P>,
    asked: &Ask<'_>,
) -> Result<Seen, Memory>
    ensures { session.new.seat.credits ≡ session.old.seat.credits }
{
    if asked.value.len() > VALUE_LIMIT {
        return Err(Memory);
    }
    let at = Entry {
        session: session.mine.session(),
        call: asked.call,
        part: asked.part,
    };
    let part = Part {
        op: asked.op,
        key: asked.key,
        value: asked.value,
    };
    let commons = Commons { pool, book };
    let mut copier = Copier::new(alloc)?;
    let mut stored: Segs = Sequence::with_room(alloc, 16)?;
    let answer = store.run_part(
        rt,
        &commons,
        &mut session.seat,
        &mut session.mine,
        &AskedPart {
            at,
            part,
            start: asked.start,
        },
        &mut copier,
        &mut stored,
    )?;
    let mut bytes = Vec::new(alloc);
    for copied in &copier.copies {
        bytes.extend_from_slice(&copied.bytes[..copied.len])?;
    }
    Ok(Seen {
        answer,
        bytes,
        stored: stored.into_vec(),
    })
}

fn run_each<N: BookName, P: PoolName, R: Wait>(
    rt: &R,
    alloc: Global,
    store: &Store<N, P>,
    pool: &Pool<P>,
    book: &Book<N>,
    session: &mut Session<N, P>,
    asks: &[Ask<'_>],
) -> Result<Vec<Seen>, Memory>
    ensures { session.new.seat.credits ≡ session.old.seat.credits }
{
    let mut all = Vec::new(alloc);
    for asked in asks {
        all.push(run_one(rt, alloc, store, pool, book, session, asked)?)?;
    }
    Ok(all)
}

type Worked<N, P> = (Session<N, P>, Result<Vec<Seen>, Memory>);

fn work<N: BookName, P: PoolName, R: Wait>(
    rt: &R,
    alloc: Global,
    store: &Store<N, P>,
    pool: &Pool<P>,
    book: &Book<N>,
    mut session: Session<N, P>,
    asks: &[Ask<'_>],
) -> Worked<N, P>
    ensures { result.0.seat.credits ≡ session.seat.credits }
{
    let all = run_each(rt, alloc, store, pool, book, &mut session, asks);
    (session, all)
}

// Each in a thread of its own.
fn work_both<N: BookName + Send + Sync, P: PoolName + Send + Sync, R: Threads + Wait + Sync>(
    rt: &R,
    alloc: Global,
    store: &Store<N, P>,
    pool: &Pool<P>,
    book: &Book<N>,
    one: Session<N, P>,
    two: Session<N, P>,
    first: &[Ask<'_>],
    second: &[Ask<'_>],
) -> (Worked<N, P>, Worked<N, P>)
    ensures first { result.0.0.seat.credits ≡ one.seat.credits }
    ensures second { result.1.0.seat.credits ≡ two.seat.credits }
{
    join(
        rt,
        move || work(rt, alloc, store, pool, book, one, first),
        move || work(rt, alloc, store, pool, book, two, second),
    )
}

fn close<N: BookName, P: PoolName>(
    pool: Pool<P>,
    store: Store<N, P>,
    first: Session<N, P>,
    second: Session<N, P>,
) -> (Journal, Held)
    requires { first.seat.credits + second.seat.credits + N.sizes.shards ≡ P.sizes.credits }
{
    let Session { mut seat, mine: _ } = first;
    let Session {
        seat: other,
        mine: _,
    } = second;
    let Parts {
        journal,
        seat: own,
        books: _,
    } = store.into_parts(&pool);
    pool.join(&mut seat, other);
    pool.join(&mut seat, own);
    (journal, pool.close(seat).held())
}

/// Both sessions ask, each in a thread of its own.
pub fn run_named<N: BookName + Send + Sync, P: PoolName + Send + Sync, R: Threads + Wait + Sync>(
    rt: &R,
    alloc: Global,
    pool: PoolBlank,
    book: BookBlank,
    first: &[Ask<'_>],
    second: &[Ask<'_>],
) -> Result<Outcome, Memory>
    requires pool { (pool.table ≡ P.table) × (pool.sizes ≡ P.sizes) }
    requires book { (book.table ≡ N.table) × (book.sizes ≡ N.sizes) }
    requires shards { (0 < N.sizes.shards) × (N.sizes.shards ≤ 16) }
    requires credits { N.sizes.shards + 3 < P.sizes.credits }
{
    let (pool, mut seat) = pool.name::<P>();
    let (book, books, mut sessions) = book.name::<N>();
    let (Some(other), Some(mine)) = (sessions.pop(), sessions.pop()) else {
        return Err(Memory);
    };
    let shard_maps = open_seats(alloc, &pool, &mut seat, books.len())?;
    let second_seat = pool.split(&mut seat, (), 2);
    let Ok(store) = Store::open(alloc, shard_maps, books) else {
        return Err(Memory);
    };
    let one = Session { seat, mine };
    let two = Session {
        seat: second_seat,
        mine: other,
    };
    let (one, two) = work_both(rt, alloc, &store, &pool, &book, one, two, first, second);
    let (one, first) = one;
    let (two, second) = two;
    let (journal, held) = close(pool, store, one, two);
    Ok(Outcome {
        first: first?,
        second: second?,
        journal,
        held,
    })
}
