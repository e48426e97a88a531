// Two sessions, whose lines alternate.
use super::check;
use std::test::Fail;

const TOGETHER: &str = "\
case a SET, and a GET of another session behind it
words drive s f0 f1
file s
line call 0
line call 1
file f0
ask SET a x
file f1
ask GET a
said call 0 0 send 1048576:5 store 1179648:1
said call 1 0 send 1114112:7
said held 1 0
sent 0 +OK~
sent 1 $1~x~
told status 0
told session 0 left taken 27 replies 1 wire whole
told session 1 left taken 20 replies 1 wire whole
told held 1 0
told shards 8
told 4 0 0 0
told 4 1 0 0
told file 0, file 1, file 2, 3 wires, 3 opens

case the GET before the SET
words drive s f0 f1
file s
line call 1
line call 0
file f0
ask SET a x
file f1
ask GET a
said call 1 0 send 1114112:5
said call 0 0 send 1048576:5 store 1179648:1
said held 1 0
sent 0 +OK~
sent 1 $-1~
told status 0
told session 0 left taken 27 replies 1 wire whole
told session 1 left taken 20 replies 1 wire whole
told held 1 0
told shards 8
told 4 1 0 0
told 4 0 0 0
told file 0, file 1, file 2, 3 wires, 3 opens

case a value that is replaced stays as it was until another session's reply, which holds it, is given back
words drive s f0 f1
file s
line call 0
line call 1
line call 0
line call 1
line gather 0
*2 line gather 1
*2 line reap 1
*2 line reap 0
file f0
ask SET k [A*600]
ask SET k [B*600]
file f1
ask GET k
ask GET k
said call 0 0 send 1048576:5 store 3145728:600
said call 1 0 send 1114112:6 3145728:600 1114118:2
said call 0 1 send 1049088:5 store 3149824:600
said call 1 1 send 1114624:6 3149824:600 1114630:2
said gather 0 0 5
said gather 1 0 608
said gather 1 1 608
said reap 1 0 1
said reap 1 1 0
said reap 0 0 0
said reap 0 none
said held 0 1
sent 0 +OK~+OK~
sent 1 $600~[A*600]~$600~[B*600]~
told status 0
told session 0 left taken 1256 replies 2 wire whole
told session 1 left taken 40 replies 2 wire whole
told held 0 1
told shards 8
told 2 0 0 0
told 2 1 0 0
told 2 0 1 0
told 2 1 1 0
told file 0, file 1, file 2, 3 wires, 3 opens

case one session is left, and the other ends
words drive s f0 f1
file s
line call 0
line call 1
line gather 0
line gather 1
file f0
ask PING
ask PING hi
file f1
said call 0 0 send 1048576:7
said call 1 end
said gather 0 0 7
said gather 1 empty
said held 0 0
sent 0 +PONG~
told status 0
told session 0 left taken 36 replies 1 wire whole
told session 1 clean taken 0 replies 0 wire whole
told held 0 0
told shards 8
told file 0, file 1, file 2, 3 wires, 3 opens

case sessions that alternate until both have ended
words drive s f0 f1
file s
line call 0
line call 1
line gather 1
line call 0
line reap 1
line gather 0
line call 1
line call 0
line call 1
line reap 0
line reap 1
line gather 1
file f0
ask PING
ask PING hi
file f1
ask FLY
ask GET x
said call 0 0 send 1048576:7
said call 1 0 send 1114112:22
said gather 1 0 22
said call 0 1 send 1049088:8
said reap 1 0 0
said gather 0 0 7
said call 1 1 send 1114112:5
said call 0 end
said call 1 end
said reap 0 0 0
said reap 1 none
said gather 1 1 5
said held 0 0
sent 0 +PONG~$2~hi~
sent 1 -ERR unknown command~$-1~
told status 0
told session 0 clean taken 36 replies 2 wire whole
told session 1 clean taken 33 replies 2 wire whole
told held 0 0
told shards 8
told 7 1 1 0
told file 0, file 1, file 2, 3 wires, 3 opens

case a put that fails is its own session's
words drive s f0 f1
file s
line call 0
line call 1
line gather 0
line gather 1
line reap 0
line reap 1
file f0
ask PING
file f1
ask PING
put fails 0 0
said call 0 0 send 1048576:7
said call 1 0 send 1114112:7
said gather 0 0 dropped 7
said gather 1 0 7
said reap 0 0 0
said reap 1 0 0
said held 0 0
sent 0 +PO
sent 1 +PONG~
told status 5
told session 0 left taken 14 replies 1 wire failed
told session 1 left taken 14 replies 1 wire whole
told held 0 0
told shards 8
told file 0, file 1, file 2, 3 wires, 3 opens

case no small buffer but the 128 that each session has for its replies
words drive --small 256 --shards 16 --large 2 s f0 f1
file s
line call 1
line call 0
file f0
ask SET a x
file f1
ask SET b [B*600]
said call 1 0 send 1114112:5 store 1179648:600
said call 0 0 send 1048576:21
said held 0 1
sent 0 -OOM no free buffer~
sent 1 +OK~
told status 0
told session 0 left taken 27 replies 1 wire whole
told session 1 left taken 628 replies 1 wire whole
told held 0 1
told shards 16
told 5 1 0 0
told file 0, file 1, file 2, 3 wires, 3 opens";

#[test]
fn driven_together(rt: HostRuntime) -> Result<(), Fail> {
    check(&rt, rt.alloc(), TOGETHER)
}
