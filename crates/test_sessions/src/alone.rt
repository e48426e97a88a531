//! One session in a resources that is opened and closed by hand.
ghost use Rattle.std.specs.Prelude.{◌≡◌, ◌+◌, []};
ghost use Rattle.run_resources.specs.Opened.{HasRunSizes, IsPool, IsBook};

use super::common::{Watched, Watching, source, tell, wires_of};
use crate::checks::equal;
use command_exec::Shop;
use command_pump::Pump;
use flake_base::MemorySource;
use order_book::{Book, BookBlank, BookName, SessionSeats};
use pinned_pool::{Pool, PoolBlank, PoolName, PoolSeat};
use run_resources::{RunResources, RunSizes, SESSION_CREDITS, close_all, open_resources};
use session_pass::NoGate;
use session_serve::{DumpTurn, Link, ServedAccount, serve_beside};
use shard_store::Store;
use std::alloc::Global;
use std::marker::Brand;
use std::sync::Wait;
use std::test::Fail;
use std::thread::Threads;

// Closes all behind one session: what is left, and how many bytes were put in whole replies.
fn close_one<N: BookName, P: PoolName>(
    alloc: Global,
    pool: Pool<P>,
    book: Book<N>,
    store: Store<N, P>,
    main: PoolSeat<P>,
    account: ServedAccount<N, P, MemorySource>,
    wire: Watched,
) -> Result<(String, u64), Fail>
    requires credits { main.credits + account.seat.credits + N.sizes.shards ≡ P.sizes.credits }
    requires sessions { N.sizes.sessions ≡ 1 }
{
    let ServedAccount {
        end,
        seat,
        mine,
        sent,
        pump: _,
        dump: _,
    } = account;
    let mut lists = SessionSeats::with_room(alloc, 1)?;
    if lists.push(mine).is_err() {
        return Err(Fail::from("memory is wanting"));
    }
    let mut main = main;
    pool.join(&mut main, seat);
    let parts = store.into_parts(&pool);
    let closed = close_all(pool, book, parts, main, lists);
    let told = tell(alloc, &[end], &[wire], &closed.journal, closed.end.held())?;
    Ok((told, sent))
}

// The only call of `serve_beside`.
fn serve_named<R: Threads + Wait + Sync, N: BookName, P: PoolName + Send + Sync>(
    rt: &R,
    alloc: Global,
    sizes: &RunSizes,
    pool: PoolBlank,
    book: BookBlank,
    source: MemorySource,
    wire: Watched,
) -> Result<(String, u64), Fail>
    requires sized { HasRunSizes 1 sizes.now }
    requires unread { source.given ≡ [] }
    requires pool { (P.table ≡ pool.table) × (P.sizes ≡ pool.sizes) × IsPool 1 sizes.now P.sizes }
    requires book { (N.table ≡ book.table) × (N.sizes ≡ book.sizes) × IsBook 1 sizes.now N.sizes }
{
    let RunResources {
        pool,
        book,
        store,
        main,
        mut slots,
    } = open_resources::<N, P>(alloc, sizes, 1, sizes.spread(1), pool, book)?;
    let Some(slot) = slots.pop() else {
        return Err(Fail::from("no slot"));
    };
    let shop = Shop {
        pool: &pool,
        book: &book,
        store: &store,
    };
    let link = Link {
        session: slot.session,
        pump: Pump::new(alloc, source),
        device: slot.device,
        dump: DumpTurn::new(alloc, None),
        mtu: None,
    };
    let (wire, account) = serve_beside(rt, alloc, &shop, link, &NoGate, wire, &Watching);
    close_one(alloc, pool, book, store, main, account, wire)
}

// What is asked in a resources for one, over a wire on which a put fails, or none.
fn served<R: Threads + Wait + Sync>(
    rt: &R,
    alloc: Global,
    lines: &str,
    fails: Option<u64>,
) -> Result<(String, u64), Fail> {
    let sizes = RunSizes {
        shards: 2,
        small: 256,
        large: 8,
        ring: 1160,
        threshold: 512,
        dump: None,
        mtu: None,
    };
    let input = source(alloc, lines, b"", 4096)?;
    let wire = wires_of(alloc, 1, fails)?.pop().ok_or("no wire")?;
    let pool = PoolBlank::open(alloc, 256, 8, SESSION_CREDITS + 3)?;
    let book = BookBlank::open(alloc, 2, 1)?;
    serve_named::<R, Brand, Brand>(rt, alloc, &sizes, pool, book, input, wire)
}

// Its stage has 128 buffers, so it takes replies back long before its input ends.
#[test]
fn more_replies_than_a_stage_has(rt: HostRuntime) -> Result<(), Fail> {
    let alloc = rt.alloc();
    let lines = "PING\n".repeat(alloc, 1000)?;
    let pongs = "+PONG\r\n".repeat(alloc, 1000)?;
    let (told, sent) = served(&rt, alloc, lines.as_str(), None)?;
    let said = format!(in alloc;
        "clean taken 14000 replies 1000 whole flushed {pongs}\n\
        1 wires 2 shards 0 entries held 0 0"
    )?;
    equal(&rt, "what is left", told.as_str(), said.as_str());
    equal(&rt, "bytes sent", sent, 7000);
    Ok(())
}

#[test]
fn nothing_is_asked(rt: HostRuntime) -> Result<(), Fail> {
    let (told, sent) = served(&rt, rt.alloc(), "", None)?;
    let said = "clean taken 0 replies 0 whole flushed \n1 wires 2 shards 0 entries held 0 0";
    equal(&rt, "what is left", told.as_str(), said);
    equal(&rt, "bytes sent", sent, 0);
    Ok(())
}

// A put that fails keeps the first half of its piece. What is asked behind it is done, and no more is put.
#[test]
fn a_put_fails(rt: HostRuntime) -> Result<(), Fail> {
    let (told, sent) = served(&rt, rt.alloc(), "PING\nSET a x\nGET a\n", Some(0))?;
    let said = "clean taken 61 replies 3 failed unflushed +PO\n1 wires 2 shards 2 entries held 1 0";
    equal(&rt, "what is left", told.as_str(), said);
    equal(&rt, "bytes sent", sent, 0);
    Ok(())
}
