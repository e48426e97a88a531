// What each command answers, sizes at the ends of their ranges, and what `serve --journal` says.
use super::check;
use std::test::Fail;

/// Sizes at the ends of their ranges.
const SIZES: &str = "\
wires 1
file in.resp
ask SET a 1
ask GET a
told status 0

case of 128 small buffers all are the stage's, so a SET finds none
words serve --small 128 in.resp
sent 0 -OOM no free buffer~$-1~
both session 0 clean taken 47 replies 2 wire whole
both held 0 0
told shards 8
told 4 0 1 0
told file 0, 1 wires, 1 opens

case one buffer for values of each size, one shard, the longest ring and the least threshold
words serve --shards 1 --small=129 --large=1 --ring 4096 --threshold 1 in.resp
sent 0 +OK~$1~1~
both session 0 clean taken 47 replies 2 wire whole
both held 1 0
told shards 1
told 0 0 0 0
told 0 0 1 0
told file 0, 1 wires, 1 opens

case as many buffers as there may be, the shortest ring and the largest threshold
words serve in.resp --small=65536 --large 16384 --ring 1160 --threshold=512
sent 0 +OK~$1~1~
both session 0 clean taken 47 replies 2 wire whole
both held 1 0
told shards 8
told 4 0 0 0
told 4 0 1 0
told file 0, 1 wires, 1 opens";

#[test]
fn sizes(rt: HostRuntime) -> Result<(), Fail> {
    check(&rt, rt.alloc(), SIZES)
}

/// A SET of 27 and a GET of 20 bytes, which reads of these lengths cut.
const A_SET_AND_A_GET: &str = "\
case a SET and a GET
words serve in.resp
wires 1
file in.resp
ask SET a 1
ask GET a
steps 1 2 26 27 28 46 47 48
sent 0 +OK~$1~1~
told status 0
both session 0 clean taken 47 replies 2 wire whole
both held 1 0
told shards 8
told 4 0 0 0
told 4 0 1 0
told file 0, 1 wires, 1 opens";

#[test]
fn a_set_and_a_get(rt: HostRuntime) -> Result<(), Fail> {
    check(&rt, rt.alloc(), A_SET_AND_A_GET)
}

/// What each command answers, and where its parts stand.
const COMMANDS: &str = "\
words serve in.resp
wires 1
told status 0
file in.resp

case no request
both session 0 clean taken 0 replies 0 wire whole
both held 0 0
told shards 8
told file 0, 1 wires, 1 opens

case a value without bytes, and a key that is missing
ask SET e ''
ask GET e
ask GET x
sent 0 +OK~$0~~$-1~
both session 0 clean taken 66 replies 3 wire whole
both held 0 0
told shards 8
told 0 0 0 0
told 0 0 1 0
told 7 0 2 0
told file 0, 1 wires, 1 opens

case a key that stands twice in a DEL, and one in an EXISTS
ask SET a 1
ask DEL a a
ask SET b 1
ask EXISTS b b
sent 0 +OK~:1~+OK~:2~
both session 0 clean taken 111 replies 4 wire whole
both held 1 0
told shards 8
told 4 0 0 0
told 4 0 1 0
told 4 0 1 1
told 5 0 2 0
told 5 0 3 0
told 5 0 3 1
told file 0, 1 wires, 1 opens

case an APPEND to no value, and one in small letters to that value
ask APPEND k ab
ask append k cd
ask GET k
sent 0 :2~:4~$4~abcd~
both session 0 clean taken 82 replies 3 wire whole
both held 1 0
told shards 8
*3 told 2 0 {0+1} 0
told file 0, 1 wires, 1 opens

case commands of several keys, of which one is missing
ask SET a 1
ask mGet a x a
ask EXISTS a x a
ask DEL x a
ask GET a
sent 0 +OK~*3~$1~1~$-1~$1~1~:2~:1~$-1~
both session 0 clean taken 146 replies 5 wire whole
both held 0 0
told shards 8
told 4 0 0 0
told 4 0 1 0
told 4 0 1 2
told 4 0 2 0
told 4 0 2 2
told 4 0 3 1
told 4 0 4 0
told 7 0 1 1
told 7 0 2 1
told 7 0 3 0
told file 0, 1 wires, 1 opens

case a name in small letters, an unknown one, a word too few, an unknown option, and a PING without and with a word
ask get a
ask FLY
ask SET a
ask SET a b EX 9
ask PING
ask PING hi
wire 0
text $-1~
text -ERR unknown command~
text -ERR wrong number of arguments~
text -ERR syntax error~
text +PONG~
text $2~hi~
both session 0 clean taken 131 replies 6 wire whole
both held 0 0
told shards 8
told 4 0 0 0
told file 0, 1 wires, 1 opens

case a SET with each of its options, with two of them, and with two that bar one another
ask SET a 1 NX
ask SET a 2 NX
ask SET a 3 XX GET
ask SET b 4 XX
ask SET b 5 GET
ask SET a 6 nx get
ask SET a 7 NX XX
sent 0 +OK~$-1~$1~1~$-1~$-1~$1~3~-ERR syntax error~
both session 0 clean taken 272 replies 7 wire whole
both held 2 0
told shards 8
told 4 0 0 0
told 4 0 1 0
told 4 0 2 0
told 4 0 5 0
told 5 0 3 0
told 5 0 4 0
told file 0, 1 wires, 1 opens

case pieces and lengths of a value and of a key that is missing, and a number that begins with 0
ask SET k abcdef
ask GETRANGE k 1 3
ask GETRANGE k -3 -1
ask GETRANGE k 4 99
ask GETRANGE k 3 1
ask GETRANGE x 0 -1
ask STRLEN k
ask STRLEN x
ask GETRANGE k 0 01
wire 0
text +OK~$3~bcd~$3~def~$2~ef~$0~~$0~~:6~:0~
text -ERR value is not an integer or out of range~
both session 0 clean taken 317 replies 9 wire whole
both held 1 0
told shards 8
*5 told 2 0 {0+1} 0
told 2 0 6 0
told 7 0 5 0
told 7 0 7 0
told file 0, 1 wires, 1 opens

case options that bar one another, an unknown one, one that stands twice, and numbers at the ends of their range
ask SET a 1 NX XX
ask SET a 1 EX 9
ask SET a 1 nx nx get
ask GETRANGE a 01 0
ask GETRANGE a -0 0
ask GETRANGE a 0 ''
ask GETRANGE a 0 9223372036854775808
ask GETRANGE a -9223372036854775808 9223372036854775807
ask strlen a
wire 0
*2 text -ERR syntax error~
text $-1~
*4 text -ERR value is not an integer or out of range~
text $1~1~
text :1~
both session 0 clean taken 414 replies 9 wire whole
both held 1 0
told shards 8
told 4 0 2 0
told 4 0 7 0
told 4 0 8 0
told file 0, 1 wires, 1 opens

case the empty and the null array are skipped
text *0~*-1~
ask PING
sent 0 +PONG~
both session 0 clean taken 23 replies 1 wire whole
both held 0 0
told shards 8
told file 0, 1 wires, 1 opens";

#[test]
fn commands(rt: HostRuntime) -> Result<(), Fail> {
    check(&rt, rt.alloc(), COMMANDS)
}

/// The journal alone is what is said.
const JOURNALS: &str = "\
wires 1
told status 0
file in.resp

case the journal of a SET and a GET
words serve --journal in.resp
ask SET a 1
ask GET a
sent 0 +OK~$1~1~
told session 0 clean taken 47 replies 2 wire whole
told held 1 0
both shards 8
both 4 0 0 0
both 4 0 1 0
told file 0, 1 wires, 1 opens

case the journal of no request
words serve in.resp --journal
told session 0 clean taken 0 replies 0 wire whole
told held 0 0
both shards 8
told file 0, 1 wires, 1 opens

case the journal of one shard
words serve in.resp --shards 1 --journal
ask SET a 1
ask GET a
sent 0 +OK~$1~1~
told session 0 clean taken 47 replies 2 wire whole
told held 1 0
both shards 1
both 0 0 0 0
both 0 0 1 0
told file 0, 1 wires, 1 opens

case the journal of two shards, and of keys that stand twice in a call
words serve --journal in.resp
ask SET a 1
ask DEL a a
ask SET b 1
ask EXISTS b b
sent 0 +OK~:1~+OK~:2~
told session 0 clean taken 111 replies 4 wire whole
told held 1 0
both shards 8
both 4 0 0 0
both 4 0 1 0
both 4 0 1 1
both 5 0 2 0
both 5 0 3 0
both 5 0 3 1
told file 0, 1 wires, 1 opens";

#[test]
fn journals(rt: HostRuntime) -> Result<(), Fail> {
    check(&rt, rt.alloc(), JOURNALS)
}
