// Pools that are full.
use super::check;
use std::test::Fail;

/// Values that fill a large buffer each.
const NO_FREE_BUFFER: &str = "\
case a third value of one large buffer finds none of two that is free
words serve --large 2 in.resp
wires 1
file in.resp
ask SET a [A*4096]
ask SET b [B*4096]
ask SET c [C*4096]
sent 0 +OK~+OK~-OOM no free buffer~
told status 0
both session 0 clean taken 12375 replies 3 wire whole
both held 0 2
told shards 8
told 4 0 0 0
told 5 0 1 0
told file 0, 1 wires, 1 opens";

#[test]
fn no_free_buffer(rt: HostRuntime) -> Result<(), Fail> {
    check(&rt, rt.alloc(), NO_FREE_BUFFER)
}

/// Values that have a large buffer each, of two that there are. The first buffer of k is held by the reply to the GET
/// until that reply's frame is reaped, which is when 128 frames have used up the stage. So the first SET of j finds no
/// free buffer, and the second finds that one. It is the same in every schedule, also where the device waits for
/// nothing. The refused write has no entry.
pub(super) const WHILE_HELD: &str = "\
case a reply holds the buffer of its value until it is reaped
words serve --large 2 in.resp
wires 1
file in.resp
ask SET k [A*600]
ask GET k
ask SET k [B*600]
ask SET j [C*600]
*126 ask PING
ask SET j [C*600]
wire 0
text +OK~$600~[A*600]~+OK~
text -OOM no free buffer~
fill 126 +PONG~
text +OK~
told status 0
both session 0 clean taken 4296 replies 131 wire whole
both held 0 2
told shards 8
*3 told 2 0 {0+1} 0
told 5 0 130 0
told file 0, 1 wires, 1 opens";

#[test]
fn a_reply_holds_its_buffer(rt: HostRuntime) -> Result<(), Fail> {
    check(&rt, rt.alloc(), WHILE_HELD)
}
