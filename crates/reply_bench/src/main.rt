//! Plans replies, and sends them through a ring and a device to a wire that counts their bytes, so that instructions
//! can be counted. Its words: `plan` or `send`, how many replies, how many values each has, and how many bytes a value
//! has. A reply without a value is the line that answers a PING, one with a value answers a GET, and one with more an
//! MGET.
#![tactic(auto)]

mod asked;
mod planning;
mod sending;
mod work;

use anyhow::{Context, Result, bail};
use asked::Asked;
use flake_base::{CountWire, Memory, Wire};
use frag_value::VALUE_LIMIT;
use std::env;
use work::work_in_a_pool;

static BYTES: [u8; VALUE_LIMIT] = [b'v'; VALUE_LIMIT];

fn main(rt: HostRuntime) -> Result<()> {
    let mut words = env::args(&rt)?.skip(1);
    let way = words.next().context("plan or send?")?;
    let wire: Option<Box<dyn Wire>> = match way.as_str() {
        "plan" => None,
        "send" => Some(Box::new(rt.alloc(), CountWire::new())?),
        _ => bail!("plan or send?"),
    };
    let mut numbers = Vec::new(rt.alloc());
    for word in words {
        numbers.push(word.as_str().parse::<u32>().context("a number")?)?;
    }
    let &[replies, values, length] = numbers.as_slice() else {
        bail!("how many replies, values of each, and bytes of a value?");
    };
    let head = format!(in rt.alloc(); "*{values}\r\n")?;
    let head = head.as_bytes();
    if values > 64 || head.len() > 23 {
        bail!("at most 64 values");
    }
    let asked = Asked {
        replies,
        values: values as usize,
        head,
    };
    let bytes = &BYTES[..(length as usize).min(VALUE_LIMIT)];
    match work_in_a_pool(rt.alloc(), bytes, asked, wire) {
        Ok(done) => {
            let (bytes, sent) = (done.bytes, done.sent);
            println!(rt; "{replies} replies of {bytes} bytes, of which {sent} were sent")?;
            Ok(())
        }
        Err(Memory) => bail!("out of memory or buffers"),
    }
}
