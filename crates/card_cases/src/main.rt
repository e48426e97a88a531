//! Posts replies on a ring and prints what the ring then has for a card, so that a card may be given it.
//!
//! Each line of standard input is a case: how many keys an MGET names, how many bytes the value has that they share,
//! and from how many bytes on a fragment stays where it lies. Of each its line is printed, and then a line for each
//! descriptor of the reply, in the ring's order: its 16 bytes as they stood in the ring, and the bytes that it names as
//! they stood in the pool, all in hexadecimal.
#![tactic(auto)]

mod case;
mod planning;
mod showing;
mod work;

use anyhow::{Context, Result, bail};
use case::parse_case;
use flake_base::Memory;
use work::work_in_a_pool;

fn main(rt: HostRuntime) -> Result<()> {
    let mut cases = Vec::new(rt.alloc());
    for line in rt.lines(rt.alloc()) {
        let case = parse_case(line?.as_str()).context("a line is no case")?;
        cases.push(case)?;
    }
    match work_in_a_pool(rt.alloc(), cases.as_slice()) {
        Ok(text) => {
            print!(rt; "{text}")?;
            Ok(())
        }
        Err(Memory) => bail!("out of memory, buffers or descriptors"),
    }
}
