// Faults of reads, puts and says, and inputs that are not whole requests.
use super::check;
use std::alloc::Global;
use std::test::Fail;

/// Reads that fail, and inputs that are not of their form or end too early.
const INPUTS: &str = "\
case a read that fails: the first gives the SET
words drive s f0
file s
*3 line call 0
line gather 0
file f0
ask SET a 1
ask GET a
reads 1 27 1
said call 0 0 send 1048576:5 store 1114112:1
said call 0 end
said call 0 end
said gather 0 0 5
said held 1 0
sent 0 +OK~
told status 4
told session 0 readfault taken 27 replies 1 wire whole
told held 1 0
told shards 8
told 4 0 0 0
told file 0, file 1, 3 wires, 2 opens

case a session that is left before a read fails
words drive s f0
file s
line call 0
file f0
ask SET a 1
ask GET a
reads 1 27 1
said call 0 0 send 1048576:5 store 1114112:1
said held 1 0
sent 0 +OK~
told status 0
told session 0 left taken 27 replies 1 wire whole
told held 1 0
told shards 8
told 4 0 0 0
told file 0, file 1, 3 wires, 2 opens

case the first read fails
words drive s f0
file s
line call 0
file f0
ask PING
reads 1 4096 0
said call 0 end
said held 0 0
told status 4
told session 0 readfault taken 0 replies 0 wire whole
told held 0 0
told shards 8
told file 0, file 1, 3 wires, 2 opens

case a length that is not of its form
words drive s f0
file s
*2 line call 0
file f0
text *1~$01~
said call 0 0 send 1048576:42
said call 0 end
said held 0 0
sent 0 -ERR Protocol error: invalid bulk length~
told status 3
told session 0 protocol 3 at 6 taken 7 replies 1 wire whole
told held 0 0
told shards 8
told file 0, file 1, 3 wires, 2 opens

case a session that is left before its bad end is said: its source gave nine bytes
words drive s f0
file s
line call 0
file f0
text *1~$01~
said call 0 0 send 1048576:42
said held 0 0
sent 0 -ERR Protocol error: invalid bulk length~
told status 0
told session 0 left taken 9 replies 1 wire whole
told held 0 0
told shards 8
told file 0, file 1, 3 wires, 2 opens

case a request that is cut
words drive s f0
file s
*2 line call 0
file f0
text *1~$4~PING~*2~$3~GE
said call 0 0 send 1048576:7
said call 0 end
said held 0 0
sent 0 +PONG~
told status 3
told session 0 truncated at 14 taken 24 replies 1 wire whole
told held 0 0
told shards 8
told file 0, file 1, 3 wires, 2 opens

case a request that is cut, of a session that is left
words drive s f0
file s
line call 0
file f0
text *1~$4~PING~*2~$3~GE
said call 0 0 send 1048576:7
said held 0 0
sent 0 +PONG~
told status 0
told session 0 left taken 24 replies 1 wire whole
told held 0 0
told shards 8
told file 0, file 1, 3 wires, 2 opens

case an inline request
words drive s f0
file s
*2 line call 0
file f0
text PING~
said call 0 0 send 1048576:56
said call 0 end
said held 0 0
sent 0 -ERR Protocol error: inline commands are not supported~
told status 3
told session 0 protocol 4 at 0 taken 1 replies 1 wire whole
told held 0 0
told shards 8
told file 0, file 1, 3 wires, 2 opens

case an error in the bytes at hand comes before a read that fails
words drive s f0
file s
*2 line call 0
file f0
text *1~$01~
reads 1 7 1
said call 0 0 send 1048576:42
said call 0 end
said held 0 0
sent 0 -ERR Protocol error: invalid bulk length~
told status 3
told session 0 protocol 3 at 6 taken 7 replies 1 wire whole
told held 0 0
told shards 8
told file 0, file 1, 3 wires, 2 opens

case a read that fails before the byte that is wrong
words drive s f0
file s
line call 0
file f0
text *1~$01~
reads 1 6 1
said call 0 end
said held 0 0
told status 4
told session 0 readfault taken 6 replies 0 wire whole
told held 0 0
told shards 8
told file 0, file 1, 3 wires, 2 opens";

/// Puts and says that fail too: half of each is done, and nothing is said behind a say that fails.
const SEVERAL: &str = "\
case a read and a put that fail
words drive s f0
file s
*3 line call 0
line gather 0
file f0
ask SET a 1
ask GET a
reads 1 27 1
put fails 0 0
said call 0 0 send 1048576:5 store 1114112:1
said call 0 end
said call 0 end
said gather 0 0 dropped 5
said held 1 0
sent 0 +O
told status 5
told session 0 readfault taken 27 replies 1 wire failed
told held 1 0
told shards 8
told 4 0 0 0
told file 0, file 1, 3 wires, 2 opens

case a request that is cut, and a put that fails behind the last line: no line says that its reply is dropped
words drive s f0
file s
*2 line call 0
file f0
text *1~$4~PING~*2~$3~GE
put fails 0 0
said call 0 0 send 1048576:7
said call 0 end
said held 0 0
sent 0 +PO
told status 5
told session 0 truncated at 14 taken 24 replies 1 wire failed
told held 0 0
told shards 8
told file 0, file 1, 3 wires, 2 opens

case a request that is cut, and a say that fails
words drive s f0
file s
*2 line call 0
file f0
text *1~$4~PING~*2~$3~GE
host fails 2
whole 0
said call 0 0 send 1048576:7
said call 0 end
said held 0 0
sent 0 +PONG~
told status 5
told session 0 truncated at 14 taken 24 replies 1 wire whole
told held 0 0
told shards 8
told file 0, file 1, 3 wires, 2 opens

case a read, a put and a say that fail
words drive s f0
file s
*3 line call 0
line gather 0
file f0
ask SET a 1
ask GET a
reads 1 27 1
put fails 0 0
host fails 6
whole 4
said call 0 0 send 1048576:5 store 1114112:1
said call 0 end
said call 0 end
said gather 0 0 dropped 5
said held 1 0
sent 0 +O
told status 5
told session 0 readfault taken 27 replies 1 wire failed
told held 1 0
told shards 8
told 4 0 0 0
told file 0, file 1, 3 wires, 2 opens";

#[test]
fn inputs(rt: HostRuntime) -> Result<(), Fail> {
    check(&rt, rt.alloc(), INPUTS)
}

#[test]
fn several_faults(rt: HostRuntime) -> Result<(), Fail> {
    check(&rt, rt.alloc(), SEVERAL)
}

/// A long value, its GET and a PING, whose replies take one put, four and one. The status is left out.
const LONG_GET: &str = "\
words drive s f0
file s
*3 line call 0
*3 line gather 0
*3 line reap 0
file f0
ask SET k [A*600]
ask GET k
ask PING
said call 0 0 send 1048576:5 store 3145728:600
said call 0 1 send 1049088:6 3145728:600 1049094:2
said call 0 2 send 1049600:7
said gather 0 0 5
said gather 0 1 608
said gather 0 2 7
*3 said reap 0 {0+1} 0
said held 0 1
sent 0 +OK~$600~[A*600]~+PONG~
told session 0 left taken 662 replies 3 wire whole
told held 0 1
told shards 8
*2 told 2 0 {0+1} 0
told file 0, file 1, 3 wires, 2 opens";

/// Each put of these fails in turn. What was put before stays, and half of its piece.
const PUTS: &str = "\
case put 0
put fails 0 0
words drive s f0
file s
*3 line call 0
*3 line gather 0
*3 line reap 0
file f0
ask SET k [A*600]
ask GET k
ask PING
said call 0 0 send 1048576:5 store 3145728:600
said call 0 1 send 1049088:6 3145728:600 1049094:2
said call 0 2 send 1049600:7
said gather 0 0 dropped 5
said gather 0 1 dropped 608
said gather 0 2 dropped 7
*3 said reap 0 {0+1} 0
said held 0 1
sent 0 +O
told status 5
told session 0 left taken 662 replies 3 wire failed
told held 0 1
told shards 8
*2 told 2 0 {0+1} 0
told file 0, file 1, 3 wires, 2 opens

case put 1
put fails 0 1
words drive s f0
file s
*3 line call 0
*3 line gather 0
*3 line reap 0
file f0
ask SET k [A*600]
ask GET k
ask PING
said call 0 0 send 1048576:5 store 3145728:600
said call 0 1 send 1049088:6 3145728:600 1049094:2
said call 0 2 send 1049600:7
said gather 0 0 5
said gather 0 1 dropped 608
said gather 0 2 dropped 7
*3 said reap 0 {0+1} 0
said held 0 1
sent 0 +OK~$60
told status 5
told session 0 left taken 662 replies 3 wire failed
told held 0 1
told shards 8
*2 told 2 0 {0+1} 0
told file 0, file 1, 3 wires, 2 opens

case put 2
put fails 0 2
words drive s f0
file s
*3 line call 0
*3 line gather 0
*3 line reap 0
file f0
ask SET k [A*600]
ask GET k
ask PING
said call 0 0 send 1048576:5 store 3145728:600
said call 0 1 send 1049088:6 3145728:600 1049094:2
said call 0 2 send 1049600:7
said gather 0 0 5
said gather 0 1 dropped 608
said gather 0 2 dropped 7
*3 said reap 0 {0+1} 0
said held 0 1
sent 0 +OK~$600~[A*256]
told status 5
told session 0 left taken 662 replies 3 wire failed
told held 0 1
told shards 8
*2 told 2 0 {0+1} 0
told file 0, file 1, 3 wires, 2 opens

case put 3
put fails 0 3
words drive s f0
file s
*3 line call 0
*3 line gather 0
*3 line reap 0
file f0
ask SET k [A*600]
ask GET k
ask PING
said call 0 0 send 1048576:5 store 3145728:600
said call 0 1 send 1049088:6 3145728:600 1049094:2
said call 0 2 send 1049600:7
said gather 0 0 5
said gather 0 1 dropped 608
said gather 0 2 dropped 7
*3 said reap 0 {0+1} 0
said held 0 1
sent 0 +OK~$600~[A*556]
told status 5
told session 0 left taken 662 replies 3 wire failed
told held 0 1
told shards 8
*2 told 2 0 {0+1} 0
told file 0, file 1, 3 wires, 2 opens

case put 4
put fails 0 4
words drive s f0
file s
*3 line call 0
*3 line gather 0
*3 line reap 0
file f0
ask SET k [A*600]
ask GET k
ask PING
said call 0 0 send 1048576:5 store 3145728:600
said call 0 1 send 1049088:6 3145728:600 1049094:2
said call 0 2 send 1049600:7
said gather 0 0 5
said gather 0 1 dropped 608
said gather 0 2 dropped 7
*3 said reap 0 {0+1} 0
said held 0 1
sent 0 +OK~$600~[A*600]\r
told status 5
told session 0 left taken 662 replies 3 wire failed
told held 0 1
told shards 8
*2 told 2 0 {0+1} 0
told file 0, file 1, 3 wires, 2 opens

case put 5
put fails 0 5
words drive s f0
file s
*3 line call 0
*3 line gather 0
*3 line reap 0
file f0
ask SET k [A*600]
ask GET k
ask PING
said call 0 0 send 1048576:5 store 3145728:600
said call 0 1 send 1049088:6 3145728:600 1049094:2
said call 0 2 send 1049600:7
said gather 0 0 5
said gather 0 1 608
said gather 0 2 dropped 7
*3 said reap 0 {0+1} 0
said held 0 1
sent 0 +OK~$600~[A*600]~+PO
told status 5
told session 0 left taken 662 replies 3 wire failed
told held 0 1
told shards 8
*2 told 2 0 {0+1} 0
told file 0, file 1, 3 wires, 2 opens";

#[test]
fn each_put_of_a_session(rt: HostRuntime) -> Result<(), Fail> {
    check(&rt, rt.alloc(), PUTS)
}

// A session's case, of which this say fails: what was said before stays, half of what was to be said, and nothing
// behind it. All else is done.
fn failing_say(alloc: Global, say: u64) -> Result<String, Fail> {
    let fails = say.saturating_add(2);
    let heading = format!(in alloc; "case say {say}\nhost fails {fails}\nwhole {say}\n")?;
    Ok(format!(in alloc; "{heading}told status 5\n{LONG_GET}")?)
}

#[test]
fn each_say_of_a_transcript(rt: HostRuntime) -> Result<(), Fail> {
    let alloc = rt.alloc();
    let whole = format!(in alloc; "case no say fails\ntold status 0\n{LONG_GET}")?;
    check(&rt, alloc, whole.as_str())?;
    for say in 0..10 {
        check(&rt, alloc, failing_say(alloc, say)?.as_str())?;
    }
    Ok(())
}
