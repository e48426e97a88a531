// Inputs that end badly, reads, puts, says and opens that fail, and words that are bad.
use super::check;
use std::alloc::Global;
use std::test::Fail;

/// Inputs that are not whole requests: what came before is served.
const BAD_INPUTS: &str = "\
words serve in.resp
wires 1
steps 1 5 4096
told status 3
file in.resp

case a request that is cut behind a whole one
ask PING
text *2~$3~GE
sent 0 +PONG~
both session 0 truncated at 14 taken 24 replies 1 wire whole
both held 0 0
told shards 8
told file 0, 1 wires, 1 opens

case a length that begins with 0
text *1~$01~
sent 0 -ERR Protocol error: invalid bulk length~
both session 0 protocol 3 at 6 taken 7 replies 1 wire whole
both held 0 0
told shards 8
told file 0, 1 wires, 1 opens

case a count that is too large
text *1025~
sent 0 -ERR Protocol error: invalid multibulk length~
both session 0 protocol 1 at 4 taken 5 replies 1 wire whole
both held 0 0
told shards 8
told file 0, 1 wires, 1 opens

case a word without its mark
text *1~+OK~
sent 0 -ERR Protocol error: expected '$'~
both session 0 protocol 2 at 4 taken 5 replies 1 wire whole
both held 0 0
told shards 8
told file 0, 1 wires, 1 opens

case an inline request
text PING~
sent 0 -ERR Protocol error: inline commands are not supported~
both session 0 protocol 4 at 0 taken 1 replies 1 wire whole
both held 0 0
told shards 8
told file 0, 1 wires, 1 opens

case a word that is longer than its length, behind a whole request
ask PING
text *1~$4~PINGX
sent 0 +PONG~-ERR Protocol error: invalid bulk length~
both session 0 protocol 3 at 26 taken 27 replies 2 wire whole
both held 0 0
told shards 8
told file 0, 1 wires, 1 opens";

#[test]
fn bad_inputs(rt: HostRuntime) -> Result<(), Fail> {
    check(&rt, rt.alloc(), BAD_INPUTS)
}

/// The open has number 0 and the say number 1. Of the statuses 3, 4 and 5 the highest is answered. An error in what was
/// read is answered before a later read is made.
const FAULTS: &str = "\
words serve in.resp
wires 1
file in.resp

case the second put fails, and keeps the first half of its seven bytes
ask SET a 1
ask GET a
put fails 0 1
wire 0
text +OK~$1~1~
front 8
told status 5
both session 0 clean taken 47 replies 2 wire failed
both held 1 0
told shards 8
told 4 0 0 0
told 4 0 1 0
told file 0, 1 wires, 1 opens

case the say fails: half of what is to be said is said
ask SET a 1
ask GET a
host fails 1
half
sent 0 +OK~$1~1~
told status 5
both session 0 clean taken 47 replies 2 wire whole
both held 1 0
told shards 8
told 4 0 0 0
told 4 0 1 0
told file 0, 1 wires, 1 opens

case the second read fails: the first gives the SET
ask SET a 1
ask GET a
reads 0 27 1
sent 0 +OK~
told status 4
both session 0 readfault taken 27 replies 1 wire whole
both held 1 0
told shards 8
told 4 0 0 0
told file 0, 1 wires, 1 opens

case the first read fails
ask SET a 1
ask GET a
reads 0 4096 0
told status 4
both session 0 readfault taken 0 replies 0 wire whole
both held 0 0
told shards 8
told file 0, 1 wires, 1 opens

case a read and a put that fail
ask SET a 1
ask GET a
reads 0 27 1
put fails 0 0
sent 0 +O
told status 5
both session 0 readfault taken 27 replies 1 wire failed
both held 1 0
told shards 8
told 4 0 0 0
told file 0, 1 wires, 1 opens

case an inline request in the bytes at hand comes before a read that fails
text PING~
reads 0 4096 1
sent 0 -ERR Protocol error: inline commands are not supported~
told status 3
both session 0 protocol 4 at 0 taken 1 replies 1 wire whole
both held 0 0
told shards 8
told file 0, 1 wires, 1 opens

case a wrong byte that is the last one at hand comes before a read that fails
text *1~$01~
reads 0 7 1
sent 0 -ERR Protocol error: invalid bulk length~
told status 3
both session 0 protocol 3 at 6 taken 7 replies 1 wire whole
both held 0 0
told shards 8
told file 0, 1 wires, 1 opens

case a read that fails before the byte that is wrong
text *1~$01~
reads 0 6 1
told status 4
both session 0 readfault taken 6 replies 0 wire whole
both held 0 0
told shards 8
told file 0, 1 wires, 1 opens

case an inline request, and the put of its reply fails
text PING~
put fails 0 0
wire 0
text -ERR Protocol error: inline commands are not supported~
front 28
told status 5
both session 0 protocol 4 at 0 taken 1 replies 1 wire failed
both held 0 0
told shards 8
told file 0, 1 wires, 1 opens";

#[test]
fn faults(rt: HostRuntime) -> Result<(), Fail> {
    check(&rt, rt.alloc(), FAULTS)
}

/// Files that do not open.
const UNOPENED: &str = "\
wires 1
file in.resp
ask SET a 1
ask GET a
said cannot open 0
told status 2 file 0
told held 0 0 no pool
told 1 wires, 1 opens

case no file of that name
words serve missing

case a file that does not open
words serve in.resp
host fails 0";

#[test]
fn files_that_do_not_open(rt: HostRuntime) -> Result<(), Fail> {
    check(&rt, rt.alloc(), UNOPENED)
}

/// Words that are refused before a file is opened.
const BAD_WORDS: &str = "\
wires 1
file in.resp
ask SET a 1
ask GET a
said bad words
told status 1
told held 0 0 no pool
told 1 wires, 0 opens

case no words

case a command without a file
words serve

case words that are no command
either FLY
either FLY in.resp
either Serve in.resp

case two files for one wire
words serve in.resp in.resp

case sizes that are too small, too large or no multiple of 8
either serve --large 0 in.resp
either serve --small 127 in.resp
either serve --shards 17 in.resp
either serve --ring 513 in.resp
either serve --ring 1164 in.resp

case an option without its number, and one that there is none of
either serve --threshold in.resp
either serve --fly 1 in.resp

case too few and too many workers
either serve --workers 0 in.resp
either serve --workers 17 in.resp";

#[test]
fn bad_words(rt: HostRuntime) -> Result<(), Fail> {
    check(&rt, rt.alloc(), BAD_WORDS)
}

/// Words that are good where there is a wire.
const NO_WIRE: &str = "\
case a file, and no wire
words serve in.resp
wires 0
file in.resp
ask SET a 1
ask GET a
said bad words
told status 1
told held 0 0 no pool
told 0 wires, 0 opens";

#[test]
fn no_wire(rt: HostRuntime) -> Result<(), Fail> {
    check(&rt, rt.alloc(), NO_WIRE)
}

/// The six puts of the replies to a SET, a long GET and a PING, each of which fails in turn. Of the replies' 620 bytes
/// what was put before stays, and half of its piece; all commands are run.
const PUTS: &str = "\
words serve in.resp
wires 1
file in.resp
ask SET k [A*600]
ask GET k
ask PING
told status 5
both session 0 clean taken 662 replies 3 wire failed
both held 0 1
told shards 8
told 2 0 0 0
told 2 0 1 0
told file 0, 1 wires, 1 opens
wire 0
text +OK~
text $600~[A*600]~
text +PONG~

case the reply to the SET
put fails 0 0
front 2

case the head of the reply to the GET
put fails 0 1
front 8

case the first piece of the value, of 512 bytes
put fails 0 2
front 267

case the second piece of the value
put fails 0 3
front 567

case the line end behind the value
put fails 0 4
front 612

case the reply to the PING
put fails 0 5
front 616";

#[test]
fn each_put_of_a_long_reply(rt: HostRuntime) -> Result<(), Fail> {
    check(&rt, rt.alloc(), PUTS)
}

/// A SET of 27 and a GET of 20 bytes.
const PAIR: &str = "\
words serve in.resp
wires 1
file in.resp
ask SET a 1
ask GET a";

/// What comes of an input without a whole request.
const OF_NONE: &str = "\
both held 0 0
told shards 8
told file 0, 1 wires, 1 opens";

/// What comes of the SET.
const OF_ONE: &str = "\
sent 0 +OK~
both held 1 0
told shards 8
told 4 0 0 0
told file 0, 1 wires, 1 opens";

/// What comes of both requests.
const OF_BOTH: &str = "\
sent 0 +OK~$1~1~
both held 1 0
told shards 8
told 4 0 0 0
told 4 0 1 0
told file 0, 1 wires, 1 opens";

// The status of an input of so many bytes, its end, how many replies there are, and what else comes of it.
fn of_a_cut(taken: u64) -> (u64, &'static str, u64, &'static str) {
    match taken {
        0 => (0, "clean", 0, OF_NONE),
        1..=26 => (3, "truncated at 0", 0, OF_NONE),
        27 => (0, "clean", 1, OF_ONE),
        28..=46 => (3, "truncated at 27", 1, OF_ONE),
        _ => (0, "clean", 2, OF_BOTH),
    }
}

// The case of so many bytes of the input: a request that is cut isn't served.
fn cut(alloc: Global, taken: u64) -> Result<String, Fail> {
    let (status, end, replies, rest) = of_a_cut(taken);
    let asked = format!(in alloc; "case {taken} bytes\n{PAIR}\nfront {taken}\n")?;
    let told = format!(in alloc;
        "told status {status}\nboth session 0 {end} taken {taken} replies {replies} wire whole\n"
    )?;
    Ok(format!(in alloc; "{asked}{told}{rest}")?)
}

#[test]
fn each_cut_of_an_input(rt: HostRuntime) -> Result<(), Fail> {
    let alloc = rt.alloc();
    for taken in 0..48 {
        check(&rt, alloc, cut(alloc, taken)?.as_str())?;
    }
    Ok(())
}
