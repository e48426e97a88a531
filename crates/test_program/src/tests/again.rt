// A run behind another, and a run that may come out in two ways.
use super::{check_seen, host_of, ran_alone, sent_of, wires_of};
use std::test::Fail;

/// Two runs of two sessions, over one host and the same wires.
const TWO_RUNS: &str = "\
case the second run's store is empty again, and what it sends and says stands behind what the first did
wires 2
file in0.resp
ask SET a 1
ask GET a
file in1.resp
ask PING
file in2.resp
ask GET a
ask SET a 2
file in3.resp
ask PING hi
wire 0
text +OK~$1~1~$-1~+OK~
wire 1
text +PONG~$2~hi~
said session 0 clean taken 47 replies 2 wire whole
said session 1 clean taken 14 replies 1 wire whole
said held 1 0
told status 0
both session 0 clean taken 47 replies 2 wire whole
both session 1 clean taken 22 replies 1 wire whole
both held 1 0
told shards 8
told 4 0 0 0
told 4 0 1 0
told file 0, file 1, 2 wires, 4 opens";

#[test]
fn a_run_behind_another(rt: HostRuntime) -> Result<(), Fail> {
    let alloc = rt.alloc();
    let mut host = host_of(alloc, TWO_RUNS, &[])?;
    let wires = wires_of(alloc, TWO_RUNS)?;
    let first = ran_alone(&rt, alloc, "serve in0.resp in1.resp", &mut host, wires)?;
    let seen = ran_alone(
        &rt,
        alloc,
        "serve in2.resp in3.resp",
        &mut host,
        first.wires,
    )?;
    check_seen(&rt, alloc, TWO_RUNS, &host, &seen)
}

/// A key that one session sets and another one reads.
const ONE_KEY: &str = "\
case a GET finds the value exactly where it stands behind the SET in the shard's history
wires 2
file in0.resp
ask SET a x
file in1.resp
ask GET a
told status 0
both session 0 clean taken 27 replies 1 wire whole
both session 1 clean taken 20 replies 1 wire whole
both held 1 0
told shards 8";

/// The GET came first.
const NOT_FOUND: &str = "\
told 4 1 0 0
told 4 0 0 0
told file 0, file 1, 2 wires, 2 opens
wire 0
text +OK~
wire 1
text $-1~";

/// The SET came first.
const FOUND: &str = "\
told 4 0 0 0
told 4 1 0 0
told file 0, file 1, 2 wires, 2 opens
wire 0
text +OK~
wire 1
text $1~x~";

#[test]
fn sessions_that_share_a_key(rt: HostRuntime) -> Result<(), Fail> {
    let alloc = rt.alloc();
    let mut host = host_of(alloc, ONE_KEY, &[])?;
    let wires = wires_of(alloc, ONE_KEY)?;
    let seen = ran_alone(&rt, alloc, "serve in0.resp in1.resp", &mut host, wires)?;
    let was_first = seen.sent.as_slice() == sent_of(alloc, NOT_FOUND)?.as_slice();
    let came = if was_first { NOT_FOUND } else { FOUND };
    let case = format!(in alloc; "{ONE_KEY}\n{came}")?;
    check_seen(&rt, alloc, case.as_str(), &host, &seen)
}
