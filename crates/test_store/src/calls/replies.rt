//! Replies to commands, one after another.
ghost use Rattle.std.specs.Prelude.{◌≡◌, ◌+◌, ◌<◌, ◌≤◌, length};

use super::resources::{RunResources, close, open_resources};
use command_exec::{Pass, Shop, execute};
use command_parts::Command;
use flake_base::{Journal, Memory, Segs, Sequence};
use order_book::{BookBlank, BookName};
use pinned_pool::{Held, Pool, PoolBlank, PoolName};
use reply_planner::{Need, Parcel, STAGE_SIZE};
use std::alloc::Global;
use std::marker::Brand;
use std::sync::Wait;

/// A segment: its address and its length.
pub type Place = (u64, u32);

/// A reply: its segments and the bytes there, where what was stored lies, and how many buffers its return freed.
#[derive(Drop)]
pub struct Reply {
    pub sent: Vec<Place>,
    pub stored: Vec<Place>,
    pub text: Vec<u8>,
    pub recycled: u64,
}

// Reads a segment as a device does.
fn gather_one<P: PoolName>(
    alloc: Global,
    pool: &Pool<P>,
    parcel: &mut Parcel<P>,
    i: usize,
    sent: &mut Vec<Place>,
    text: &mut Vec<u8>,
) -> Result<(), Memory>
    requires { i < length parcel.old.segments }
    ensures { parcel.new ≡ parcel.old }
{
    let seg = parcel.seg(i);
    sent.push((seg.address, seg.len))?;
    let Some((buffer, offset)) = pool.buffer_at(seg.address) else {
        return Ok(());
    };
    let mut room = vec![in alloc; 0u8; seg.len as usize]?;
    parcel.load_bytes(pool, buffer, offset, &mut room);
    text.extend_from_slice(&room)?;
    Ok(())
}

fn gather<P: PoolName>(
    alloc: Global,
    pool: &Pool<P>,
    parcel: &mut Parcel<P>,
) -> Result<(Vec<Place>, Vec<u8>), Memory>
    ensures { parcel.new ≡ parcel.old }
{
    let mut sent = Vec::new(alloc);
    let mut text = Vec::new(alloc);
    for i in 0..parcel.count() {
        gather_one(alloc, pool, parcel, i, &mut sent, &mut text)?;
    }
    Ok((sent, text))
}

fn places_of(alloc: Global, segs: &Segs) -> Result<Vec<Place>, Memory> {
    let mut places = Vec::new(alloc);
    for seg in segs.iter() {
        places.push((seg.address, seg.len))?;
    }
    Ok(places)
}

// Executes a command, where the stage has what it needs; gathers its reply and gives it back.
pub fn run_one<R: Wait, N: BookName, P: PoolName>(
    rt: &R,
    alloc: Global,
    shop: &Shop<'_, N, P>,
    pass: &mut Pass<N, P>,
    call: u32,
    command: &Command,
) -> Result<Reply, Memory>
    requires { 1159 ≤ pass.old.seat.credits }
    ensures { pass.new.seat.credits ≡ pass.old.seat.credits }
{
    let mut stored: Segs = Sequence::with_room(alloc, 16)?;
    let free = pass.free();
    if command.need().stage > free || free as usize > STAGE_SIZE {
        return Err(Memory);
    }
    let session = pass.session();
    let Ok(mut parcel) = execute(rt, shop, pass, session, call, command, &mut stored) else {
        return Err(Memory);
    };
    let gathered = gather(alloc, shop.pool, &mut parcel);
    let recycled = pass.give_back(shop.pool, parcel);
    let (sent, text) = gathered?;
    Ok(Reply {
        sent,
        stored: places_of(alloc, &stored)?,
        text,
        recycled,
    })
}

pub fn run_all<R: Wait, N: BookName, P: PoolName>(
    rt: &R,
    alloc: Global,
    shop: &Shop<'_, N, P>,
    pass: &mut Pass<N, P>,
    commands: &[Command],
) -> Result<Vec<Reply>, Memory>
    requires { 1159 ≤ pass.old.seat.credits }
    ensures { pass.new.seat.credits ≡ pass.old.seat.credits }
{
    let mut replies = Vec::new(alloc);
    let mut call = 0u32;
    for command in commands {
        replies.push(run_one(rt, alloc, shop, pass, call, command)?)?;
        call = call.wrapping_add(1);
    }
    Ok(replies)
}

/// The replies, the shards' histories, and how many buffers the store holds.
#[derive(Drop)]
pub struct Outcome {
    pub replies: Vec<Reply>,
    pub journal: Journal,
    pub held: Held,
}

// All commands are run, and all is closed.
fn run_named<R: Wait, N: BookName, P: PoolName>(
    rt: &R,
    alloc: Global,
    pool: PoolBlank,
    book: BookBlank,
    threshold: u32,
    commands: &[Command],
) -> Result<Outcome, Memory>
    requires pool { (pool.table ≡ P.table) × (pool.sizes ≡ P.sizes) }
    requires book { (book.table ≡ N.table) × (book.sizes ≡ N.sizes) }
    requires shards { (0 < N.sizes.shards) × (N.sizes.shards ≤ 16) }
    requires credits { 8192 + N.sizes.shards ≤ P.sizes.credits }
    requires threshold { (0 < threshold) × (threshold ≤ 512) }
{
    let RunResources {
        pool,
        book,
        store,
        mut pass,
    } = open_resources::<N, P>(alloc, pool, book, threshold)?;
    let shop = Shop {
        pool: &pool,
        book: &book,
        store: &store,
    };
    let replies = run_all(rt, alloc, &shop, &mut pass, commands)?;
    let Some((journal, held)) = close(pool, store, pass) else {
        return Err(Memory);
    };
    Ok(Outcome {
        replies,
        journal,
        held,
    })
}

fn run_in<R: Wait>(
    rt: &R,
    alloc: Global,
    pool: PoolBlank,
    book: BookBlank,
    threshold: u32,
    commands: &[Command],
) -> Result<Outcome, Memory>
    requires shards { (0 < book.sizes.shards) × (book.sizes.shards ≤ 16) }
    requires credits { 8192 + book.sizes.shards ≤ pool.sizes.credits }
    requires threshold { (0 < threshold) × (threshold ≤ 512) }
{
    run_named::<R, Brand, Brand>(rt, alloc, pool, book, threshold, commands)
}

/// Commands over eight shards, and a pool with so many large buffers.
pub fn run<R: Wait>(
    rt: &R,
    alloc: Global,
    large: u32,
    threshold: u32,
    commands: &[Command],
) -> Result<Outcome, Memory>
    requires large { large ≤ 64 }
    requires threshold { (0 < threshold) × (threshold ≤ 512) }
{
    let Ok(pool) = PoolBlank::open(alloc, 256, large, 8200) else {
        return Err(Memory);
    };
    let Ok(book) = BookBlank::open(alloc, 8, 1) else {
        return Err(Memory);
    };
    run_in(rt, alloc, pool, book, threshold, commands)
}
