// One session, driven line by line.
use super::check;
use std::test::Fail;

/// Values, and the replies that name or copy them.
const VALUES: &str = "\
case values about as long as a small buffer
words drive s f0
file s
*6 line call 0
file f0
ask SET a [A*511]
ask SET b [B*512]
ask SET c [C*513]
ask GET a
ask GET b
ask GET c
said call 0 0 send 1048576:5 store 1114112:511
said call 0 1 send 1049088:5 store 1114624:512
said call 0 2 send 1049600:5 store 3145728:513
said call 0 3 send 1050112:512 1050624:7
said call 0 4 send 1051136:6 1114624:512 1051142:2
said call 0 5 send 1051648:6 3145728:513 1051654:2
said held 2 1
sent 0 +OK~+OK~+OK~$511~[A*511]~$512~[B*512]~$513~[C*513]~
told status 0
told session 0 left taken 1680 replies 6 wire whole
told held 2 1
told shards 8
told 2 0 2 0
told 2 0 5 0
told 4 0 0 0
told 4 0 3 0
told 5 0 1 0
told 5 0 4 0
told file 0, file 1, 3 wires, 2 opens

case a long value
words drive s f0
file s
*2 line call 0
file f0
ask SET k [A*600]
ask GET k
said call 0 0 send 1048576:5 store 3145728:600
said call 0 1 send 1049088:6 3145728:600 1049094:2
said held 0 1
sent 0 +OK~$600~[A*600]~
told status 0
told session 0 left taken 648 replies 2 wire whole
told held 0 1
told shards 8
*2 told 2 0 {0+1} 0
told file 0, file 1, 3 wires, 2 opens

case a value that is replaced while a reply holds it
words drive s f0
file s
*4 line call 0
*4 line gather 0
*4 line reap 0
line call 0
file f0
ask SET k [A*600]
ask GET k
ask SET k [B*600]
ask SET j [C*600]
ask SET m [D*600]
said call 0 0 send 1048576:5 store 3145728:600
said call 0 1 send 1049088:6 3145728:600 1049094:2
said call 0 2 send 1049600:5 store 3149824:600
said call 0 3 send 1050112:5 store 3153920:600
said gather 0 0 5
said gather 0 1 608
said gather 0 2 5
said gather 0 3 5
said reap 0 0 0
said reap 0 1 1
said reap 0 2 0
said reap 0 3 0
said call 0 4 send 1048576:5 store 3145728:600
said held 0 3
sent 0 +OK~$600~[A*600]~+OK~+OK~+OK~
told status 0
told session 0 left taken 2532 replies 5 wire whole
told held 0 3
told shards 8
told 0 0 4 0
*3 told 2 0 {0+1} 0
told 5 0 3 0
told file 0, file 1, 3 wires, 2 opens

case one value twice in a reply, and a key that is missing
words drive s f0
file s
*2 line call 0
file f0
ask SET k [A*600]
ask MGET k k x
said call 0 0 send 1048576:5 store 3145728:600
said call 0 1 send 1049088:10 3145728:600 1049098:8 3145728:600 1049106:7
said held 0 1
sent 0 +OK~*3~$600~[A*600]~$600~[A*600]~$-1~
told status 0
told session 0 left taken 663 replies 2 wire whole
told held 0 1
told shards 8
told 2 0 0 0
told 2 0 1 0
told 2 0 1 1
told 7 0 1 2
told file 0, file 1, 3 wires, 2 opens

case a value that grows past a large buffer
words drive s f0
file s
*4 line call 0
*4 line gather 0
*2 line reap 0
file f0
ask SET k [A*4090]
ask GET k
ask APPEND k [B*10]
ask GET k
said call 0 0 send 1048576:5 store 3145728:4090
said call 0 1 send 1049088:7 3145728:4090 1049095:2
said call 0 2 send 1049600:7 store 3149824:4096 1114112:4
said call 0 3 send 1050112:7 3149824:4096 1050119:6
said gather 0 0 5
said gather 0 1 4099
said gather 0 2 7
said gather 0 3 4109
said reap 0 0 0
said reap 0 1 1
said held 1 1
sent 0 +OK~$4090~[A*4090]~:4100~$4100~[A*4090][B*10]~
told status 0
told session 0 left taken 4199 replies 4 wire whole
told held 1 1
told shards 8
*4 told 2 0 {0+1} 0
told file 0, file 1, 3 wires, 2 opens

case a SET that answers the value before it
words drive s f0
file s
*2 line call 0
*2 line gather 0
*2 line reap 0
file f0
ask SET k [A*600]
ask SET k [B*600] GET
said call 0 0 send 1048576:5 store 3145728:600
said call 0 1 send 1049088:6 3145728:600 1049094:2 store 3149824:600
said gather 0 0 5
said gather 0 1 608
said reap 0 0 0
said reap 0 1 1
said held 0 1
sent 0 +OK~$600~[A*600]~
told status 0
told session 0 left taken 1265 replies 2 wire whole
told held 0 1
told shards 8
*2 told 2 0 {0+1} 0
told file 0, file 1, 3 wires, 2 opens

case a value of four large buffers and a byte
words drive s f0
file s
*2 line call 0
file f0
ask SET k [A*16385]
ask GET k
said call 0 0 send 1048576:5 store<4  {3145728+4096}:4096> 1114112:1
said call 0 1 send 1049088:8<4  {3145728+4096}:4096> 1049096:3
said held 1 4
sent 0 +OK~$16385~[A*16385]~
told status 0
told session 0 left taken 16435 replies 2 wire whole
told held 1 4
told shards 8
*2 told 2 0 {0+1} 0
told file 0, file 1, 3 wires, 2 opens

case the longest value, which does not grow
words drive s f0
file s
*3 line call 0
*3 line gather 0
*3 line reap 0
file f0
ask SET k [A*65536]
ask APPEND k B
ask GET k
said call 0 0 send 1048576:5 store<16  {3145728+4096}:4096>
said call 0 1 send 1049088:21
said call 0 2 send 1049600:8<16  {3145728+4096}:4096> 1049608:2
said gather 0 0 5
said gather 0 1 21
said gather 0 2 65546
*3 said reap 0 {0+1} 0
said held 0 16
sent 0 +OK~-ERR value too long~$65536~[A*65536]~
told status 0
told session 0 left taken 65616 replies 3 wire whole
told held 0 16
told shards 8
*3 told 2 0 {0+1} 0
told file 0, file 1, 3 wires, 2 opens

case a short value that stays where it lies
words drive --threshold 1 s f0
file s
*2 line call 0
file f0
ask SET a x
ask GET a
said call 0 0 send 1048576:5 store 1114112:1
said call 0 1 send 1049088:4 1114112:1 1049092:2
said held 1 0
sent 0 +OK~$1~x~
told status 0
told session 0 left taken 47 replies 2 wire whole
told held 1 0
told shards 8
*2 told 4 0 {0+1} 0
told file 0, file 1, 3 wires, 2 opens

case long and short pieces of a value, no byte of it, and its length
words drive s f0
file s
*5 line call 0
file f0
ask SET k [A*5000]
ask GETRANGE k 100 4999
ask GETRANGE k 4000 4200
ask GETRANGE k -1 0
ask STRLEN k
said call 0 0 send 1048576:5 store 3145728:4096 3149824:904
said call 0 1 send 1049088:7 3145828:3996 3149824:904 1049095:2
said call 0 2 send 1049600:209
said call 0 3 send 1050112:6
said call 0 4 send 1050624:7
said held 0 2
sent 0 +OK~$4900~[A*4900]~$201~[A*201]~$0~~:5000~
told status 0
told session 0 left taken 5181 replies 5 wire whole
told held 0 2
told shards 8
*5 told 2 0 {0+1} 0
told file 0, file 1, 3 wires, 2 opens

case an APPEND of no bytes
words drive s f0
file s
*2 line call 0
file f0
ask SET k [A*600]
ask APPEND k ''
said call 0 0 send 1048576:5 store 3145728:600
said call 0 1 send 1049088:6 store 3145728:600
said held 0 1
sent 0 +OK~:600~
told status 0
told session 0 left taken 657 replies 2 wire whole
told held 0 1
told shards 8
*2 told 2 0 {0+1} 0
told file 0, file 1, 3 wires, 2 opens

case a value without bytes, and a key that is missing
words drive s f0
file s
*3 line call 0
file f0
ask SET e ''
ask GET e
ask GET x
said call 0 0 send 1048576:5
said call 0 1 send 1049088:6
said call 0 2 send 1049600:5
said held 0 0
sent 0 +OK~$0~~$-1~
told status 0
told session 0 left taken 66 replies 3 wire whole
told held 0 0
told shards 8
told 0 0 0 0
told 0 0 1 0
told 7 0 2 0
told file 0, file 1, 3 wires, 2 opens";

/// Room that runs out: the ring's, the stage's and the pool's.
const ROOM: &str = "\
case the stage of 128 buffers is full
words drive s f0
file s
*129 line call 0
file f0
*129 ask PING
*128 said call 0 {0+1} send {1048576+512}:7
said call 0 stage 1 0
said held 0 0
sent 0 <128 +PONG~>
told status 0
told session 0 left taken 1806 replies 128 wire whole
told held 0 0
told shards 8
told file 0, file 1, 3 wires, 2 opens

case a call that comes again once a reply is gathered
words drive s f0
file s
*129 line call 0
line gather 0
*2 line call 0
file f0
*129 ask PING
*128 said call 0 {0+1} send {1048576+512}:7
said call 0 stage 1 0
said gather 0 0 7
said call 0 128 reaped 1 send 1048576:7
said call 0 end
said held 0 0
sent 0 <129 +PONG~>
told status 0
told session 0 clean taken 1806 replies 129 wire whole
told held 0 0
told shards 8
told file 0, file 1, 3 wires, 2 opens

case a refused call reaps the reply that was gathered, and the call behind it counts its own alone
words drive --ring 4096 s f0
file s
*128 line call 0
line gather 0
line call 0
*70 line gather 0
line call 0
line reap 0
file f0
*128 ask PING
ask MGET<64  x>
*128 said call 0 {0+1} send {1048576+512}:7
said gather 0 0 7
said call 0 stage 66 1
*70 said gather 0 {1+1} 7
said call 0 128 reaped 65 send 1048576:325
said reap 0 66 0
said held 0 0
sent 0 <128 +PONG~>*64~<64 $-1~>
told status 0
told session 0 left taken 2255 replies 129 wire whole
told held 0 0
told shards 8
*64 told 7 0 128 {0+1}
told file 0, file 1, 3 wires, 2 opens

case the ring is full
words drive s f0
file s
*23 line call 0
file f0
ask SET k [A*16384]
*21 ask GET k
ask MGET<64  k>
said call 0 0 send 1048576:5 store 3145728:4096 3149824:4096 3153920:4096 3158016:4096
*21 said call 0 {1+1} send {1049088+512}:8 \
    3145728:4096 3149824:4096 3153920:4096 3158016:4096 {1049096+512}:2
said call 0 ring 1154 1032
said held 0 4
sent 0 +OK~<21 $16384~[A*16384]~>
told status 0
told session 0 left taken 17297 replies 22 wire whole
told held 0 4
told shards 8
*22 told 2 0 {0+1} 0
told file 0, file 1, 3 wires, 2 opens

case a reply of 322 segments, whose copied bytes go on in a second buffer between two values
words drive s f0
file s
*23 line call 0
*22 line gather 0
line call 0
line gather 0
file f0
ask SET k [A*16384]
*21 ask GET k
ask MGET<64  k>
said call 0 0 send 1048576:5 store 3145728:4096 3149824:4096 3153920:4096 3158016:4096
*21 said call 0 {1+1} send {1049088+512}:8 \
    3145728:4096 3149824:4096 3153920:4096 3158016:4096 {1049096+512}:2
said call 0 ring 1154 1032
said gather 0 0 5
*21 said gather 0 {1+1} 16394
said call 0 22 reaped 22 send 1048576:13 3145728:4096 3149824:4096 3153920:4096 3158016:4096\
    <49  {1048589+10}:10 3145728:4096 3149824:4096 3153920:4096 3158016:4096> \
    1049079:9 1049088:1 3145728:4096 3149824:4096 3153920:4096 3158016:4096\
    <13  {1049089+10}:10 3145728:4096 3149824:4096 3153920:4096 3158016:4096> 1049219:2
said gather 0 22 1049221
said held 0 4
sent 0 +OK~<21 $16384~[A*16384]~>*64~<64 $16384~[A*16384]~>
told status 0
told session 0 left taken 17297 replies 23 wire whole
told held 0 4
told shards 8
*22 told 2 0 {0+1} 0
*64 told 2 0 22 {0+1}
told file 0, file 1, 3 wires, 2 opens

case 64 keys, and the ring lacks room
words drive --shards 1 s f0
file s
*65 line call 0
file f0
*64 ask SET k{10+1} [A*511]
ask MGET<64  k{10+1}>
*64 said call 0 {0+1} send {1048576+512}:5 store {1114112+512}:511
said call 0 ring 1154 1095
said held 64 0
sent 0 <64 +OK~>
told status 0
told session 0 left taken 35215 replies 64 wire whole
told held 64 0
told shards 1
*64 told 0 0 {0+1} 0
told file 0, file 1, 3 wires, 2 opens

case 64 keys, and the stage lacks room
words drive --ring 4096 --shards 1 s f0
file s
*65 line call 0
file f0
*64 ask SET k{10+1} [A*511]
ask MGET<64  k{10+1}>
*64 said call 0 {0+1} send {1048576+512}:5 store {1114112+512}:511
said call 0 stage 66 64
said held 64 0
sent 0 <64 +OK~>
told status 0
told session 0 left taken 35215 replies 64 wire whole
told held 64 0
told shards 1
*64 told 0 0 {0+1} 0
told file 0, file 1, 3 wires, 2 opens

case 64 keys behind replies that were gathered: so many are reaped that the ring has room, and no more
words drive --shards 1 s f0
file s
*64 line call 0
*64 line gather 0
line call 0
file f0
*64 ask SET k{10+1} [A*511]
ask MGET<64  k{10+1}>
*64 said call 0 {0+1} send {1048576+512}:5 store {1114112+512}:511
*64 said gather 0 {0+1} 5
said call 0 64 reaped 59 send<59  {1048576+512}:512><5  {1081344+512}:512> 1083904:453
said held 64 0
sent 0 <64 +OK~>*64~<64 $511~[A*511]~>
told status 0
told session 0 left taken 35215 replies 65 wire whole
told held 64 0
told shards 1
*64 told 0 0 {0+1} 0
*64 told 0 0 64 {0+1}
told file 0, file 1, 3 wires, 2 opens

case 64 keys behind replies that were reaped
words drive --shards 1 s f0
file s
*64 line call 0
*64 line gather 0
*64 line reap 0
line call 0
line gather 0
file f0
*64 ask SET k{10+1} [A*511]
ask MGET<64  k{10+1}>
*64 said call 0 {0+1} send {1048576+512}:5 store {1114112+512}:511
*64 said gather 0 {0+1} 5
*64 said reap 0 {0+1} 0
said call 0 64 send<64  {1048576+512}:512> 1081344:453
said gather 0 64 33221
said held 64 0
sent 0 <64 +OK~>*64~<64 $511~[A*511]~>
told status 0
told session 0 left taken 35215 replies 65 wire whole
told held 64 0
told shards 1
*64 told 0 0 {0+1} 0
*64 told 0 0 64 {0+1}
told file 0, file 1, 3 wires, 2 opens

case a large buffer that only a reply holds is free once that is reaped
words drive --large 1 s f0
file s
*4 line call 0
*2 line gather 0
*2 line reap 0
line call 0
file f0
ask SET k [A*600]
ask GET k
ask DEL k
ask SET j [B*600]
ask SET j [C*600]
said call 0 0 send 1048576:5 store 3145728:600
said call 0 1 send 1049088:6 3145728:600 1049094:2
said call 0 2 send 1049600:4
said call 0 3 send 1050112:21
said gather 0 0 5
said gather 0 1 608
said reap 0 0 0
said reap 0 1 1
said call 0 4 send 1048576:5 store 3145728:600
said held 0 1
sent 0 +OK~$600~[A*600]~:1~-OOM no free buffer~+OK~
told status 0
told session 0 left taken 1924 replies 5 wire whole
told held 0 1
told shards 8
*3 told 2 0 {0+1} 0
told 5 0 4 0
told file 0, file 1, 3 wires, 2 opens

case of the staging buffers that came back the least are taken first
words drive s f0
file s
line call 0
line gather 0
line reap 0
*2 line call 0
*2 line gather 0
line reap 0
line call 0
file f0
ask SET k [A*300]
ask MGET k k
ask GET k
ask MGET k k k k
said call 0 0 send 1048576:5 store 1114112:300
said gather 0 0 5
said reap 0 0 0
said call 0 1 send 1048576:512 1049088:108
said call 0 2 send 1049600:308
said gather 0 1 620
said gather 0 2 308
said reap 0 1 0
said call 0 3 send 1048576:512 1049088:512 1050112:212
said held 1 0
sent 0 +OK~*2~<2 $300~[A*300]~>$300~[A*300]~*4~<4 $300~[A*300]~>
told status 0
told session 0 left taken 418 replies 4 wire whole
told held 1 0
told shards 8
told 2 0 0 0
*2 told 2 0 1 {0+1}
told 2 0 2 0
*4 told 2 0 3 {0+1}
told file 0, file 1, 3 wires, 2 opens";

/// Ends of a session, and lines that find nothing.
const ENDS: &str = "\
case lines that find nothing
words drive s f0
file s
line gather 0
line reap 0
line call 0
line reap 0
*2 line gather 0
*2 line reap 0
*2 line call 0
line gather 0
line reap 0
file f0
ask PING
said gather 0 empty
said reap 0 none
said call 0 0 send 1048576:7
said reap 0 none
said gather 0 0 7
said gather 0 empty
said reap 0 0 0
said reap 0 none
*2 said call 0 end
said gather 0 empty
said reap 0 none
said held 0 0
sent 0 +PONG~
told status 0
told session 0 clean taken 14 replies 1 wire whole
told held 0 0
told shards 8
told file 0, file 1, 3 wires, 2 opens

case a session that is left before its first call
words drive s f0
file s
file f0
ask PING
said held 0 0
told status 0
told session 0 left taken 0 replies 0 wire whole
told held 0 0
told shards 8
told file 0, file 1, 3 wires, 2 opens

case a session that is left before it has read its input: three reads of 10 bytes for a request of 27
words drive s f0
file s
line call 0
file f0
ask SET a 1
ask GET a
reads 1 10
said call 0 0 send 1048576:5 store 1114112:1
said held 1 0
sent 0 +OK~
told status 0
told session 0 left taken 30 replies 1 wire whole
told held 1 0
told shards 8
told 4 0 0 0
told file 0, file 1, 3 wires, 2 opens";

#[test]
fn values(rt: HostRuntime) -> Result<(), Fail> {
    check(&rt, rt.alloc(), VALUES)
}

#[test]
fn room(rt: HostRuntime) -> Result<(), Fail> {
    check(&rt, rt.alloc(), ROOM)
}

#[test]
fn ends(rt: HostRuntime) -> Result<(), Fail> {
    check(&rt, rt.alloc(), ENDS)
}
