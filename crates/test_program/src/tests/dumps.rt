// Dumps of what the keys have, beside sessions.
use super::beside::check_crossed;
use super::check;
use std::test::Fail;

/// A dump before a call of the only session: one of the middle, one that never comes, and the first.
const DUMPS: &str = "\
wires 2
told status 0
file in0.resp

case SET a 1, SET b 2 and SET a 3, before the last of which the dump is taken
words serve --dump 2 in0.resp
ask SET a 1
ask SET b 2
ask SET a 3
sent 0 +OK~+OK~+OK~
wire 1
ask SET a 1
ask SET b 2
both session 0 clean taken 81 replies 3 wire whole
told points 0 0 0 0 1 1 0 0
both dump bytes 54 wire whole
both held 2 0
told shards 8
told 4 0 0 0
told 4 0 2 0
told 5 0 1 0
told file 0, 2 wires, 1 opens

case a call that never comes: the dump has what the keys have at the end
words serve --dump 99 in0.resp
ask SET a 1
ask SET b 2
ask SET a 3
sent 0 +OK~+OK~+OK~
wire 1
ask SET a 3
ask SET b 2
both session 0 clean taken 81 replies 3 wire whole
told points 0 0 0 0 2 1 0 0
both dump bytes 54 wire whole
both held 2 0
told shards 8
told 4 0 0 0
told 4 0 2 0
told 5 0 1 0
told file 0, 2 wires, 1 opens

case the first call: there is no key yet
words serve --dump 0 in0.resp
ask SET a 1
ask GET a
sent 0 +OK~$1~1~
both session 0 clean taken 47 replies 2 wire whole
told points 0 0 0 0 0 0 0 0
both dump bytes 0 wire whole
both held 1 0
told shards 8
*2 told 4 0 {0+1} 0
told file 0, 2 wires, 1 opens

case no command at all
words serve in0.resp --dump=0
both session 0 clean taken 0 replies 0 wire whole
told points 0 0 0 0 0 0 0 0
both dump bytes 0 wire whole
both held 0 0
told shards 8
told file 0, 2 wires, 1 opens

case one shard has a key and values of no byte, and keys that were set in another order than theirs
words serve --dump 5 --shards 1 in0.resp
ask SET b 2
ask PING
ask SET ab ''
ask SET a 1
ask SET '' ''
ask FLY
sent 0 +OK~+PONG~+OK~+OK~+OK~-ERR unknown command~
wire 1
ask SET '' ''
ask SET a 1
ask SET ab ''
ask SET b 2
both session 0 clean taken 133 replies 6 wire whole
told points 4
both dump bytes 106 wire whole
both held 2 0
told shards 1
told 0 0 0 0
*3 told 0 0 {2+1} 0
told file 0, 2 wires, 1 opens";

#[test]
fn dumps(rt: HostRuntime) -> Result<(), Fail> {
    check(&rt, rt.alloc(), DUMPS)
}

/// The dump has a key that is removed before it is written, and is served by itself.
const REMOVED: &str = "\
case SET k, PING and DEL k, with a dump before the PING, and no request in a second file
words serve --dump 1 in0.resp in1.resp
wires 3
file in0.resp
ask SET k [A*600]
ask PING
ask DEL k
file in1.resp
sent 0 +OK~+PONG~:1~
wire 2
ask SET k [A*600]
told status 0
both session 0 clean taken 662 replies 3 wire whole
both session 1 clean taken 0 replies 0 wire whole
told points 0 0 1 0 0 0 0 0
both dump bytes 628 wire whole
both held 0 0
told shards 8
*2 told 2 0 {0+2} 0
told file 0, file 1, 3 wires, 2 opens

case what the dump's wire was sent: one key that has a large buffer
words serve in0.resp
wires 1
file in0.resp
ask SET k [A*600]
sent 0 +OK~
told status 0
both session 0 clean taken 628 replies 1 wire whole
both held 0 1
told shards 8
told 2 0 0 0
told file 0, 1 wires, 1 opens";

#[test]
fn a_key_that_is_removed(rt: HostRuntime) -> Result<(), Fail> {
    check(&rt, rt.alloc(), REMOVED)
}

/// Three SETs of a key, each of which takes one of two large buffers. A dump holds the value that it has until it is
/// written, which is when its session has ended.
const TWO_BUFFERS: &str = "\
wires 2
told status 0
file in0.resp
ask SET k [A*600]
ask SET k [B*600]
ask SET k [C*600]

case a dump behind the first SET holds its buffer: the third SET finds no free one
words serve --large 2 --dump 1 in0.resp
sent 0 +OK~+OK~-OOM no free buffer~
wire 1
ask SET k [A*600]
both session 0 clean taken 1884 replies 3 wire whole
told points 0 0 1 0 0 0 0 0
both dump bytes 628 wire whole
both held 0 1
told shards 8
*2 told 2 0 {0+1} 0
told file 0, 2 wires, 1 opens

case without a dump it is free
words serve --large 2 in0.resp
sent 0 +OK~+OK~+OK~
both session 0 clean taken 1884 replies 3 wire whole
both held 0 1
told shards 8
*3 told 2 0 {0+1} 0
told file 0, 2 wires, 1 opens";

#[test]
fn a_dump_holds_its_buffers(rt: HostRuntime) -> Result<(), Fail> {
    check(&rt, rt.alloc(), TWO_BUFFERS)
}

/// No wire for a dump, and one that fails.
const WIRES: &str = "\
case as many wires as files: the dump has no wire of its own
words serve --dump 0 in0.resp
wires 1
file in0.resp
ask SET a 1
ask GET a
said bad words
told status 1
told held 0 0 no pool
told 1 wires, 0 opens

case a dump that is not put whole: its third put, of the first key, fails, and all replies were sent
words serve --dump 2 in0.resp
wires 2
put fails 1 2
file in0.resp
ask SET a 1
ask SET b 2
ask SET a 3
sent 0 +OK~+OK~+OK~
sent 1 *3~$3~SET~$1~
told status 5
both session 0 clean taken 81 replies 3 wire whole
told points 0 0 0 0 1 1 0 0
both dump bytes 54 wire failed
both held 2 0
told shards 8
told 4 0 0 0
told 4 0 2 0
told 5 0 1 0
told file 0, 2 wires, 1 opens";

#[test]
fn wires_of_a_dump(rt: HostRuntime) -> Result<(), Fail> {
    check(&rt, rt.alloc(), WIRES)
}

/// Before its call 0 session 0 waits until session 1 has set a, which is in the dump; b is set behind call 0, and
/// isn't.
pub(super) const OF_ANOTHER: &str = "\
case what another session has set is in the dump
words serve --workers 2 --dump 0 in0.resp in1.resp
wires 3
file in0.resp
ask PING
file in1.resp
ask SET a 1
ask SET b 2
sent 0 +PONG~
sent 1 +OK~+OK~
wire 2
ask SET a 1
told status 0
both session 0 clean taken 14 replies 1 wire whole
both session 1 clean taken 54 replies 2 wire whole
told points 0 0 0 0 1 0 0 0
both dump bytes 27 wire whole
both held 2 0
told shards 8
told 4 1 0 0
told 5 1 1 0
told file 0, file 1, 3 wires, 2 opens";

#[test]
fn what_another_session_has_set(rt: HostRuntime) -> Result<(), Fail> {
    check_crossed(&rt, rt.alloc(), OF_ANOTHER, 0)
}
