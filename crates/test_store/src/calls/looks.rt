//! What a session sees of the shards' lists, by the seat that its pass lends.
ghost use Rattle.std.specs.Prelude.{◌≡◌, ◌+◌, ◌<◌, ◌≤◌};

use super::replies::run_all;
use super::resources::{RunResources, open_resources};
use crate::checks::equal;
use command_exec::{Pass, Shop};
use command_parts::Command;
use flake_base::Memory;
use order_book::{Book, BookBlank, BookName, ShardSeats};
use pinned_pool::{PoolBlank, PoolName};
use reply_planner::STAGE_SIZE;
use std::alloc::Global;
use std::marker::Brand;
use std::sync::Wait;
use std::test::Fail;
use test_support::asking::commands_of;

// A shard's number, and how long its list is.
type Look = (u16, u64);

// The session looks at each shard's list, the last one first.
fn look_at_all<N: BookName, P: PoolName>(
    alloc: Global,
    book: &Book<N>,
    mut books: ShardSeats<N>,
    pass: &mut Pass<N, P>,
) -> Result<Vec<Look>, Memory> {
    let mut looks = Vec::new(alloc);
    for _ in 0..books.len() {
        let Some(mut shard) = books.pop() else {
            return Err(Memory);
        };
        let length = book.both_lists(&mut shard, pass.mine());
        looks.push((shard.shard(), length))?;
    }
    Ok(looks)
}

/// The session's number before its commands, what it saw behind them, and the number of the seat that it got back.
#[derive(Drop)]
struct Sight {
    session: u16,
    looks: Vec<Look>,
    back: u16,
}

fn see_named<R: Wait, N: BookName, P: PoolName>(
    rt: &R,
    alloc: Global,
    pool: PoolBlank,
    book: BookBlank,
    commands: &[Command],
) -> Result<Sight, Memory>
    requires pool { (pool.table ≡ P.table) × (pool.sizes ≡ P.sizes) }
    requires book { (book.table ≡ N.table) × (book.sizes ≡ N.sizes) }
    requires shards { (0 < N.sizes.shards) × (N.sizes.shards ≤ 16) }
    requires credits { 8192 + N.sizes.shards ≤ P.sizes.credits }
{
    let RunResources {
        pool,
        book,
        store,
        mut pass,
    } = open_resources::<N, P>(alloc, pool, book, 512)?;
    let session = pass.mine().session();
    let shop = Shop {
        pool: &pool,
        book: &book,
        store: &store,
    };
    let _ = run_all(rt, alloc, &shop, &mut pass, commands)?;
    let books = store.into_parts(&pool).books;
    let looks = look_at_all(alloc, &book, books, &mut pass)?;
    if pass.free() as usize != STAGE_SIZE {
        return Err(Memory);
    }
    let (_, mine) = pass.close(&pool);
    Ok(Sight {
        session,
        looks,
        back: mine.session(),
    })
}

fn see_in<R: Wait>(
    rt: &R,
    alloc: Global,
    pool: PoolBlank,
    book: BookBlank,
    commands: &[Command],
) -> Result<Sight, Memory>
    requires shards { (0 < book.sizes.shards) × (book.sizes.shards ≤ 16) }
    requires credits { 8192 + book.sizes.shards ≤ pool.sizes.credits }
{
    see_named::<R, Brand, Brand>(rt, alloc, pool, book, commands)
}

// Keys `a`, `b` and `x` are in the shards 4, 5 and 7 of eight.
#[test]
fn a_pass_lends_its_seat(rt: HostRuntime) -> Result<(), Fail> {
    let alloc = rt.alloc();
    let commands = commands_of(
        alloc,
        &["SET a 1", "GET a", "SET b 2", "MGET a b x", "PING"],
    )?;
    let pool = PoolBlank::open(alloc, 256, 1, 8200)?;
    let book = BookBlank::open(alloc, 8, 2)?;
    let sight = see_in(&rt, alloc, pool, book, &commands)?;
    equal(&rt, "the session", sight.session, 1);
    let seen = [
        (7, 1),
        (6, 0),
        (5, 2),
        (4, 3),
        (3, 0),
        (2, 0),
        (1, 0),
        (0, 0),
    ];
    equal(&rt, "looks", sight.looks.as_slice(), seen.as_slice());
    equal(&rt, "the seat's number", sight.back, 1);
    Ok(())
}
