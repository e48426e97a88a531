//! Acts of a session and its device, each told as a line.
ghost use Rattle.std.specs.Prelude.{◌≡◌, ◌+◌, ◌<◌, ◌≤◌};

use super::putting::{Counted, Counting};
use super::resources::{RunResources, close, open_resources};
use command_exec::Shop;
use command_parts::Command;
use device_model::{Device, Gathered};
use flake_base::{Memory, Seg};
use order_book::{BookBlank, BookName};
use pinned_pool::{Pool, PoolBlank, PoolName};
use reply_planner::Parcel;
use session_pass::{CallError, Posted, Reaped, Session};
use std::alloc::Global;
use std::fmt::Write;
use std::marker::Brand;
use std::sync::Wait;
use tx_descriptor::Framed;

/// What is done next.
#[derive(Clone, Copy)]
pub enum Act {
    Call,
    Gather,
    Reap,
}

// Lists that a call tells of.
#[derive(Drop)]
struct Lists {
    sent: Vec<Seg>,
    stored: Vec<Seg>,
}

impl Lists {
    fn new(alloc: Global) -> Lists {
        Lists {
            sent: Vec::new(alloc),
            stored: Vec::new(alloc),
        }
    }
}

// Makes a call.
fn call_once<R: Wait, N: BookName, P: PoolName + Send>(
    rt: &R,
    shop: &Shop<'_, N, P>,
    session: &mut Session<N, P>,
    command: &Command,
    lists: &mut Lists,
) -> Result<Posted, CallError>
    ensures { session.new.opened ≡ session.old.opened }
{
    if session.calls() == u32::MAX {
        return Err(CallError::Memory);
    }
    match session.call(rt, shop, command, &mut lists.sent, &mut lists.stored) {
        Ok(posted) => Ok(posted),
        Err(error) => Err(error),
    }
}

fn reap_once<N: BookName, P: PoolName + Send>(
    shop: &Shop<'_, N, P>,
    session: &mut Session<N, P>,
) -> Option<Reaped>
    ensures { session.new.opened ≡ session.old.opened }
{
    match session.reap_one(shop) {
        Some(reaped) => Some(reaped),
        None => None,
    }
}

fn tell_places(text: &mut String, places: &[Seg]) -> Result<(), Memory> {
    for place in places {
        write!(text, " {}:{}", place.address, place.len)?;
    }
    Ok(())
}

fn tell_call(
    text: &mut String,
    called: Result<Posted, CallError>,
    lists: &Lists,
) -> Result<(), Memory> {
    match called {
        Ok(posted) => {
            write!(text, "call {} ", posted.call)?;
            if posted.reaped > 0 {
                write!(text, "reaped {} ", posted.reaped)?;
            }
            text.push_str("send")?;
            tell_places(text, lists.sent.as_slice())?;
            if !lists.stored.is_empty() {
                text.push_str(" store")?;
                tell_places(text, lists.stored.as_slice())?;
            }
        }
        Err(CallError::RingFull { need, room }) => write!(text, "ring {need} {room}")?,
        Err(CallError::StageFull { need, free }) => write!(text, "stage {need} {free}")?,
        Err(CallError::Memory) => return Err(Memory),
    }
    text.push_str("\n")?;
    Ok(())
}

fn tell_gather(text: &mut String, gathered: Gathered) -> Result<(), Memory> {
    match gathered {
        Gathered::Sent { call, bytes } => writeln!(text, "gather {call} {bytes}")?,
        Gathered::Dropped { call, bytes } => writeln!(text, "gather {call} dropped {bytes}")?,
        Gathered::Empty => text.push_str("gather empty\n")?,
        Gathered::Closed => text.push_str("gather closed\n")?,
    }
    Ok(())
}

fn tell_reap(text: &mut String, reaped: Option<Reaped>) -> Result<(), Memory> {
    match reaped {
        Some(reaped) => writeln!(text, "reap {} {}", reaped.call, reaped.recycled)?,
        None => text.push_str("reap none\n")?,
    }
    Ok(())
}

/// A session, and what was told of it.
#[derive(Drop)]
struct Near<N: BookName, P: PoolName + Send>
where
    Parcel<P>: Framed,
{
    session: Session<N, P>,
    lists: Lists,
    text: String,
}

/// A session's device, and its wire.
#[derive(Drop)]
struct Far<P: PoolName + Send>
where
    Parcel<P>: Framed,
{
    device: Device<P>,
    wire: Counted,
}

// Calls the next command, if there is one.
fn call_next<R: Wait, N: BookName, P: PoolName + Send>(
    rt: &R,
    shop: &Shop<'_, N, P>,
    near: &mut Near<N, P>,
    commands: &[Command],
) -> Result<(), Memory>
    ensures { near.new.session.opened ≡ near.old.session.opened }
{
    let Some(command) = commands.get(near.session.calls() as usize) else {
        return Ok(());
    };
    let called = call_once(rt, shop, &mut near.session, command, &mut near.lists);
    tell_call(&mut near.text, called, &near.lists)
}

fn reap_next<N: BookName, P: PoolName + Send>(
    shop: &Shop<'_, N, P>,
    near: &mut Near<N, P>,
) -> Result<(), Memory>
    ensures { near.new.session.opened ≡ near.old.session.opened }
{
    let reaped = reap_once(shop, &mut near.session);
    tell_reap(&mut near.text, reaped)
}

// The only gather. It has no clauses.
fn gather_next<P: PoolName + Send>(pool: &Pool<P>, far: Far<P>) -> (Far<P>, Gathered) {
    let Far { mut device, wire } = far;
    let (wire, gathered) = device.gather(pool, wire, &Counting);
    (Far { device, wire }, gathered)
}

// Does one thing.
fn act_once<R: Wait, N: BookName, P: PoolName + Send>(
    rt: &R,
    shop: &Shop<'_, N, P>,
    near: &mut Near<N, P>,
    far: Far<P>,
    commands: &[Command],
    next: Act,
) -> Result<Far<P>, Memory>
    ensures { near.new.session.opened ≡ near.old.session.opened }
{
    match next {
        Act::Call => {
            call_next(rt, shop, near, commands)?;
            Ok(far)
        }
        Act::Gather => {
            let (far, gathered) = gather_next(shop.pool, far);
            tell_gather(&mut near.text, gathered)?;
            Ok(far)
        }
        Act::Reap => {
            reap_next(shop, near)?;
            Ok(far)
        }
    }
}

// Does the same thing so often.
fn act_often<R: Wait, N: BookName, P: PoolName + Send>(
    rt: &R,
    shop: &Shop<'_, N, P>,
    near: &mut Near<N, P>,
    far: Far<P>,
    commands: &[Command],
    act: (Act, usize),
) -> Result<Far<P>, Memory>
    ensures { near.new.session.opened ≡ near.old.session.opened }
{
    let (next, times) = act;
    let mut far = far;
    for _ in 0..times {
        far = act_once(rt, shop, near, far, commands, next)?;
    }
    Ok(far)
}

fn act_all<R: Wait, N: BookName, P: PoolName + Send>(
    rt: &R,
    shop: &Shop<'_, N, P>,
    near: &mut Near<N, P>,
    far: Far<P>,
    commands: &[Command],
    acts: &[(Act, usize)],
) -> Result<Far<P>, Memory>
    ensures { near.new.session.opened ≡ near.old.session.opened }
{
    let mut far = far;
    for act in acts {
        far = act_often(rt, shop, near, far, commands, *act)?;
    }
    Ok(far)
}

// Gathers so often.
fn gather_often<P: PoolName + Send>(pool: &Pool<P>, far: Far<P>, times: usize) -> Counted {
    let mut far = far;
    for _ in 0..times {
        let (after, _) = gather_next(pool, far);
        far = after;
    }
    far.wire
}

// Acts, and then whatever waits is gathered and given back, and all is closed. The last line tells what is held.
fn tell_named<R: Wait, N: BookName, P: PoolName + Send>(
    rt: &R,
    alloc: Global,
    pool: PoolBlank,
    book: BookBlank,
    threshold: u32,
    commands: &[Command],
    acts: &[(Act, usize)],
    wire: Counted,
) -> Result<(String, Counted), Memory>
    requires pool { (pool.table ≡ P.table) × (pool.sizes ≡ P.sizes) }
    requires book { (book.table ≡ N.table) × (book.sizes ≡ N.sizes) }
    requires shards { (0 < N.sizes.shards) × (N.sizes.shards ≤ 16) }
    requires credits { 8192 + N.sizes.shards ≤ P.sizes.credits }
    requires threshold { (0 < threshold) × (threshold ≤ 512) }
{
    let RunResources {
        pool,
        book,
        store,
        session,
        device,
    } = open_resources::<N, P>(alloc, pool, book, threshold)?;
    let shop = Shop {
        pool: &pool,
        book: &book,
        store: &store,
    };
    let mut near = Near {
        session,
        lists: Lists::new(alloc),
        text: String::new(alloc),
    };
    let far = act_all(rt, &shop, &mut near, Far { device, wire }, commands, acts)?;
    let wire = gather_often(&pool, far, 128);
    let Near {
        session,
        lists: _,
        mut text,
    } = near;
    let Some(held) = close(pool, book, store, session) else {
        return Err(Memory);
    };
    writeln!(text, "held {} {}", held.small, held.large)?;
    Ok((text, wire))
}

/// A line for each act, and what all puts left on the wire.
pub fn tell<R: Wait>(
    rt: &R,
    alloc: Global,
    pool: PoolBlank,
    book: BookBlank,
    threshold: u32,
    commands: &[Command],
    acts: &[(Act, usize)],
    wire: Counted,
) -> Result<(String, Counted), Memory>
    requires shards { (0 < book.sizes.shards) × (book.sizes.shards ≤ 16) }
    requires credits { 8192 + book.sizes.shards ≤ pool.sizes.credits }
    requires threshold { (0 < threshold) × (threshold ≤ 512) }
{
    tell_named::<R, Brand, Brand>(rt, alloc, pool, book, threshold, commands, acts, wire)
}
