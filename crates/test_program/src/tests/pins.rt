// Values of one byte, which stay where they lie with a threshold of 1, and are copied with one of 512.
use super::check;
use std::test::Fail;

/// Two small buffers are left beside the stage's 128. After 128 replies these are used up, so the last SET comes when
/// the frames of the first three calls were given back.
///
/// With a threshold of 1 the frame of the GET's reply has a segment in the value's buffer. So the first SET of the
/// other key finds no free buffer, and the second finds the one that was given back with the frame. The frame's hold
/// was the last of that buffer.
///
/// With one of 512 the value is copied. Its buffer is free when it is replaced, and the first SET of the other key
/// takes it. The second one finds none: a new value takes its buffers before the old one's are given back.
const SERVED: &str = "\
wires 1
told status 0
both session 0 clean taken 1892 replies 131 wire whole
both held 2 0
told shards 8
*3 told 2 0 {0+1} 0
file in.resp
ask SET k A
ask GET k
ask SET k B
ask SET j C
*126 ask PING
ask SET j C

case a reply that holds the buffer of its value
words serve --small 130 --threshold 1 in.resp
wire 0
text +OK~$1~A~+OK~
text -OOM no free buffer~
fill 126 +PONG~
text +OK~
told 5 0 130 0
told file 0, 1 wires, 1 opens

case a reply that has a copy of its value
words serve --small 130 --threshold 512 in.resp
wire 0
text +OK~$1~A~+OK~
text +OK~
fill 126 +PONG~
text -OOM no free buffer~
told 5 0 3 0
told file 0, 1 wires, 1 opens";

#[test]
fn served(rt: HostRuntime) -> Result<(), Fail> {
    check(&rt, rt.alloc(), SERVED)
}

/// The first three calls alone, then what is sent and given back of them.
const DRIVEN: &str = "\
wires 1
sent 0 +OK~$1~A~+OK~
told status 0
told session 0 left taken 128 replies 3 wire whole
told held 1 0
told shards 8
*3 told 2 0 {0+1} 0
told file 0, file 1, 1 wires, 2 opens
file in0.resp
*3 line call 0
*3 line gather 0
*3 line reap 0
file in1.resp
ask SET k A
ask GET k
ask SET k B
ask SET j C
ask SET j C

case a segment in the buffer of the value, of which the last hold is given back with the frame
words drive --threshold 1 in0.resp in1.resp
said call 0 0 send 1048576:5 store 1114112:1
said call 0 1 send 1049088:4 1114112:1 1049092:2
said call 0 2 send 1049600:5 store 1114624:1
said gather 0 0 5
said gather 0 1 7
said gather 0 2 5
said reap 0 0 0
said reap 0 1 1
said reap 0 2 0
said held 1 0

case a copy of the value, whose buffer is free when it is replaced
words drive --threshold 512 in0.resp in1.resp
said call 0 0 send 1048576:5 store 1114112:1
said call 0 1 send 1049088:7
said call 0 2 send 1049600:5 store 1114624:1
said gather 0 0 5
said gather 0 1 7
said gather 0 2 5
said reap 0 0 0
said reap 0 1 0
said reap 0 2 0
said held 1 0";

#[test]
fn driven(rt: HostRuntime) -> Result<(), Fail> {
    check(&rt, rt.alloc(), DRIVEN)
}
