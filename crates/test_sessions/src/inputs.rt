//! Several sources, from nothing to nothing.
ghost use Rattle.std.specs.Prelude.{◌≡◌, []};

use super::common::{Watched, Watching, source, tell, wires_of};
use crate::checks::equal;
use flake_base::MemorySource;
use serve_inputs::{RunSizes, serve_inputs};
use session_pass::NoGate;
use std::alloc::Global;
use std::sync::Wait;
use std::test::Fail;
use std::thread::Threads;

// The only call of `serve_inputs`. It has no other clauses, so that nothing else carries those of the call.
fn served<R: Threads + Wait + Sync>(
    rt: &R,
    alloc: Global,
    workers: u16,
    first: MemorySource,
    second: MemorySource,
    wires: Vec<Watched>,
) -> Result<(String, Vec<u64>), Fail>
    requires unread { (first.given ≡ []) × (second.given ≡ []) }
{
    let mut sources = Vec::new(alloc);
    sources.push(first)?;
    sources.push(second)?;
    let count = sources.len();
    if count == 0 || count > 4 || wires.len() < count || workers == 0 || workers > 16 {
        return Err(Fail::from("too few or too many"));
    }
    let sizes = RunSizes {
        shards: 3,
        small: 1024,
        large: 8,
        ring: 1160,
        threshold: 512,
        dump: None,
        mtu: None,
    };
    let Ok(served) = serve_inputs(
        rt, alloc, &sizes, workers, sources, wires, &NoGate, &Watching,
    ) else {
        return Err(Fail::from("memory is wanting"));
    };
    let (ends, wires) = (served.ends.as_slice(), served.wires.as_slice());
    let told = tell(alloc, ends, wires, &served.journal, served.pool.held())?;
    Ok((told, served.sent))
}

const FIRST: &str = "SET a hello\nGET a\nAPPEND a !!\nGET a\nSET c x\nDEL c\n";

const SECOND: &str = "PING\nGET b\nSET b world\nGET b\n";

const BOTH: &str = "\
clean taken 149 replies 6 whole flushed +OK\r\n$5\r\nhello\r\n:7\r\n$7\r\nhello!!\r\n+OK\r\n:1\r\n\n\
truncated at 85 taken 95 replies 4 whole flushed +PONG\r\n$-1\r\n+OK\r\n$5\r\nworld\r\n\n\
3 wires 3 shards 9 entries held 2 0";

// A value of `a` is left and one of `b`, each in a small buffer. The third wire is nobody's.
#[test]
fn two_sources_of_which_one_is_cut(rt: HostRuntime) -> Result<(), Fail> {
    let alloc = rt.alloc();
    for (workers, step) in [(1, 4096), (2, 5), (16, 1)] {
        let first = source(alloc, FIRST, b"", step)?;
        let second = source(alloc, SECOND, b"*2\r\n$3\r\nGE", step)?;
        let wires = wires_of(alloc, 3, None)?;
        let (told, sent) = served(&rt, alloc, workers, first, second, wires)?;
        equal(
            &rt,
            "what is left",
            (workers, told.as_str()),
            (workers, BOTH),
        );
        equal(&rt, "bytes sent", sent.as_slice(), [42, 28].as_slice());
    }
    Ok(())
}
