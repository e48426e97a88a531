//! Commands over a stage that has just what they need.
ghost use Rattle.std.specs.Prelude.{◌≡◌, ◌+◌, ◌<◌, ◌≤◌};

use super::replies::{Reply, run_one};
use super::resources::{RunResources, open_resources};
use crate::checks::equal;
use command_exec::{Pass, Shop, execute};
use command_parts::Command;
use flake_base::{Memory, Segs, Sequence};
use order_book::{BookBlank, BookName};
use pinned_pool::{PoolBlank, PoolName};
use std::alloc::Global;
use std::marker::Brand;
use std::process::Abort;
use std::sync::Wait;
use std::test::Fail;
use test_support::asking::command;

// Executes a command of one staging buffer, and never gives its reply back.
fn use_one<R: Wait, N: BookName, P: PoolName>(
    rt: &R,
    alloc: Global,
    shop: &Shop<'_, N, P>,
    pass: &mut Pass<N, P>,
    command: &Command,
) -> Result<(), Memory>
    requires { 1159 ≤ pass.old.seat.credits }
    ensures { pass.old.seat.credits ≤ pass.new.seat.credits + 2 }
{
    let mut stored: Segs = Sequence::with_room(alloc, 16)?;
    let need = command.need();
    if need.descriptors > 1 || need.stage > pass.free() {
        return Err(Memory);
    }
    let session = pass.session();
    match execute(rt, shop, pass, session, 0, command, &mut stored) {
        Ok(_) => Ok(()),
        Err(_) => Err(Memory),
    }
}

// Uses staging buffers up, until so many are free.
fn use_up<R: Wait, N: BookName, P: PoolName>(
    rt: &R,
    alloc: Global,
    shop: &Shop<'_, N, P>,
    pass: &mut Pass<N, P>,
    command: &Command,
    left: u32,
) -> Result<(), Memory>
    requires { 8192 ≤ pass.old.seat.credits }
    ensures { 1159 ≤ pass.new.seat.credits }
{
    for _ in 0..128u32 {
        if pass.free() > left {
            use_one(rt, alloc, shop, pass, command)?;
        }
    }
    Ok(())
}

/// A command's reply, and how many staging buffers are free before it and once it is given back.
#[derive(Drop)]
struct Squeezed {
    reply: Reply,
    before: u32,
    after: u32,
}

// Runs two commands, and the second where the stage has just what it needs.
fn squeeze<R: Wait, N: BookName, P: PoolName>(
    rt: &R,
    alloc: Global,
    pool: PoolBlank,
    book: BookBlank,
    first: &Command,
    ping: &Command,
    second: &Command,
) -> Result<Squeezed, Memory>
    requires pool { (pool.table ≡ P.table) × (pool.sizes ≡ P.sizes) }
    requires book { (book.table ≡ N.table) × (book.sizes ≡ N.sizes) }
    requires shards { (0 < N.sizes.shards) × (N.sizes.shards ≤ 16) }
    requires credits { 8192 + N.sizes.shards ≤ P.sizes.credits }
{
    let RunResources {
        pool,
        book,
        store,
        mut pass,
    } = open_resources::<N, P>(alloc, pool, book, 512)?;
    let shop = Shop {
        pool: &pool,
        book: &book,
        store: &store,
    };
    let _ = run_one(rt, alloc, &shop, &mut pass, 0, first)?;
    use_up(rt, alloc, &shop, &mut pass, ping, second.need().stage)?;
    let before = pass.free();
    let reply = run_one(rt, alloc, &shop, &mut pass, 1, second)?;
    let after = pass.free();
    Ok(Squeezed {
        reply,
        before,
        after,
    })
}

fn squeeze_in<R: Wait>(
    rt: &R,
    alloc: Global,
    pool: PoolBlank,
    book: BookBlank,
    first: &Command,
    ping: &Command,
    second: &Command,
) -> Result<Squeezed, Memory>
    requires shards { (0 < book.sizes.shards) × (book.sizes.shards ≤ 16) }
    requires credits { 8192 + book.sizes.shards ≤ pool.sizes.credits }
{
    squeeze::<R, Brand, Brand>(rt, alloc, pool, book, first, ping, second)
}

// Over a value of 511 bytes at `k`, a command with this need has a reply of so many bytes.
fn check<R: Wait + Abort>(
    rt: &R,
    alloc: Global,
    line: &str,
    stage: u32,
    bytes: usize,
) -> Result<(), Fail> {
    let first = command(alloc, "SET k A*511")?;
    let ping = command(alloc, "PING")?;
    let second = command(alloc, line)?;
    let pool = PoolBlank::open(alloc, 256, 17, 8200)?;
    let book = BookBlank::open(alloc, 8, 1)?;
    let squeezed = squeeze_in(rt, alloc, pool, book, &first, &ping, &second)?;
    equal(rt, "the need", second.need().stage, stage);
    equal(rt, "free before it", squeezed.before, stage);
    equal(rt, "free behind it", squeezed.after, stage);
    equal(rt, "bytes", squeezed.reply.text.len(), bytes);
    Ok(())
}

#[test]
fn a_stage_that_just_fits(rt: HostRuntime) -> Result<(), Fail> {
    let alloc = rt.alloc();
    for (line, stage, bytes) in [
        ("PING", 1, 7),
        ("PING p*16384", 33, 16_394),
        ("GET k", 2, 519),
        ("GET x", 2, 5),
        ("SET k B*65536", 1, 5),
        ("SET k B*65536 GET", 2, 519),
        ("MGET k", 2, 523),
        ("DEL k x", 1, 4),
        ("EXISTS k x", 1, 4),
        ("APPEND k B", 1, 6),
        ("STRLEN k", 1, 6),
        ("GETRANGE k 1 510", 3, 518),
        ("FLY", 1, 22),
    ] {
        check(&rt, alloc, line, stage, bytes)?;
    }
    let mut line = String::from_str(alloc, "MGET")?;
    for _ in 0..64 {
        line.push_str(" k")?;
    }
    check(&rt, alloc, line.as_str(), 66, 33_221)
}
