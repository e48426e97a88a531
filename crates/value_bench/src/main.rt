//! Writes values into a pool, appends to each, reads it back, and gives it back, so that instructions can be counted.
//! Its words: how many values, how many bytes are written, how many are appended, and how often each value is read.
#![tactic(auto)]

ghost use Rattle.std.specs.Prelude.{◌≡◌, ◌≤◌, length};
ghost use Rattle.frag_value.specs.Values.{HasValue, size_of};

use anyhow::{Context, Result, bail};
use flake_base::Memory;
use frag_value::{VALUE_LIMIT, Value, append, read_into, release, write};
use pinned_pool::{Pool, PoolBlank, PoolName, PoolSeat};
use std::alloc::Global;
use std::env;
use std::marker::Brand;

static BYTES: [u8; VALUE_LIMIT] = [b'v'; VALUE_LIMIT];

/// How much there is to do.
#[derive(Clone, Copy)]
struct Work {
    values: u32,
    written: usize,
    appended: usize,
    reads: u32,
}

// Reads a value over and over.
fn read_often<N: PoolName>(
    pool: &Pool<N>,
    seat: &mut PoolSeat<N>,
    value: &Value<N>,
    room: &mut [u8],
    times: u32,
)
    requires value { HasValue seat.old.holds value.now }
    requires room { size_of value.now ≤ length room.old }
    ensures { seat.new ≡ seat.old }
{
    for _ in 0..times {
        read_into(pool, seat, value, room);
    }
}

// Writes a value, appends to it, reads it, and gives it back. The answer is its length.
fn one_value<N: PoolName>(
    alloc: Global,
    pool: &Pool<N>,
    seat: &mut PoolSeat<N>,
    room: &mut [u8],
    work: Work,
) -> std::result::Result<u64, Memory> {
    let first = &BYTES[..work.written.min(VALUE_LIMIT)];
    let more = &BYTES[..work.appended.min(VALUE_LIMIT)];
    let Ok(value) = write(alloc, pool, seat, first) else {
        return Err(Memory);
    };
    let Ok(value) = append(alloc, pool, seat, value, more) else {
        return Err(Memory);
    };
    let len = value.len();
    if room.len() as u64 >= len {
        read_often(pool, seat, &value, room, work.reads);
    }
    release(pool, seat, value);
    Ok(len)
}

// The bytes of all values together.
fn work_named<N: PoolName>(
    alloc: Global,
    blank: PoolBlank,
    work: Work,
) -> std::result::Result<u64, Memory>
    requires { (blank.table ≡ N.table) × (blank.sizes ≡ N.sizes) }
{
    let (pool, mut seat) = blank.name::<N>();
    let mut room = vec![in alloc; 0u8; VALUE_LIMIT]?;
    let mut bytes = 0u64;
    for _ in 0..work.values {
        let len = one_value(alloc, &pool, &mut seat, &mut room, work)?;
        bytes = bytes.saturating_add(len);
    }
    Ok(bytes)
}

fn work_in_a_pool(alloc: Global, work: Work) -> std::result::Result<u64, Memory> {
    let Ok(blank) = PoolBlank::open(alloc, 8, 33, 1) else {
        return Err(Memory);
    };
    work_named::<Brand>(alloc, blank, work)
}

fn main(rt: HostRuntime) -> Result<()> {
    let mut numbers = Vec::new(rt.alloc());
    for word in env::args(&rt)?.skip(1) {
        numbers.push(word.as_str().parse::<u32>().context("a number")?)?;
    }
    let &[values, written, appended, reads] = numbers.as_slice() else {
        bail!("how many values, bytes written, bytes appended and reads?");
    };
    let all = Work {
        values,
        written: written as usize,
        appended: appended as usize,
        reads,
    };
    match work_in_a_pool(rt.alloc(), all) {
        Ok(bytes) => {
            println!(rt; "{values} values with {bytes} bytes, each read {reads} times")?;
            Ok(())
        }
        Err(Memory) => bail!("out of memory or buffers"),
    }
}
