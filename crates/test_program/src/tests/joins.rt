// Frames of a file that are put together.
use super::asked::add_frame;
use super::check;
use super::written::written_out;
use flake_base::Bytes;
use std::test::Fail;

/// The frames of the replies to a SET and to a GET of 600 letters, of 64 bytes at most.
const BOTH_REPLIES: &str = "\
0 0 1 +OK~
1 0 13 $600~[A*42]
*11 1 {1+1} 13 [A*48]
1 12 13 [A*30]~";

#[test]
fn frames_have_their_bytes(rt: HostRuntime) -> Result<(), Fail> {
    let alloc = rt.alloc();
    let mut file = Bytes::new(alloc);
    let frames = written_out(alloc, BOTH_REPLIES)?;
    for frame in frames.as_str().trim_end().split('\n') {
        add_frame(alloc, &mut file, frame)?;
    }
    let bytes = file.as_slice();
    assert_eq!(&rt; bytes.len(), 837);
    assert!(&rt; bytes.starts_with(b"\0\0\0\0\0\0\0\0\x01\0\0\0\x05\0\0\0+OK\r\n"));
    let mut last = Bytes::from_slice(alloc, b"\x01\0\0\0\x0c\0\0\0\x0d\0\0\0\x20\0\0\0")?;
    last.append(&[b'A'; 30])?;
    last.append(b"\r\n")?;
    assert!(&rt; bytes.ends_with(last.as_slice()));
    Ok(())
}

/// Frames that are put together on the first wire.
const JOINED: &str = "\
told status 0
told held 0 0 no pool
file f

case the frames of two replies
words join 64 2 f
wires 1
reads 0 100
frame 0 0 1 +OK~
frame 1 0 13 $600~[A*42]
*11 frame 1 {1+1} 13 [A*48]
frame 1 12 13 [A*30]~
sent 0 +OK~$600~[A*600]~
told file 0, 1 wires, 1 opens

case no frame, of no reply
words join 64 0 f
wires 1
reads 0 100
told file 0, 1 wires, 1 opens

case frames come in any order and often
words join 64 2 f
wires 1
reads 0 100
*2 frame 1 12 13 [A*30]~
*2 frame 1 11 13 [A*48]
*2 frame 1 10 13 [A*48]
*2 frame 1 9 13 [A*48]
*2 frame 1 8 13 [A*48]
*2 frame 1 7 13 [A*48]
*2 frame 1 6 13 [A*48]
*2 frame 1 5 13 [A*48]
*2 frame 1 4 13 [A*48]
*2 frame 1 3 13 [A*48]
*2 frame 1 2 13 [A*48]
*2 frame 1 1 13 [A*48]
*2 frame 1 0 13 $600~[A*42]
*2 frame 0 0 1 +OK~
sent 0 +OK~$600~[A*600]~
told file 0, 1 wires, 1 opens

case other wires stay as they were
words join 64 2 f
wires 3
reads 0 4096
frame 0 0 1 +OK~
frame 1 0 13 $600~[A*42]
*11 frame 1 {1+1} 13 [A*48]
frame 1 12 13 [A*30]~
sent 0 +OK~$600~[A*600]~
told file 0, 3 wires, 1 opens";

#[test]
fn frames_are_joined(rt: HostRuntime) -> Result<(), Fail> {
    check(&rt, rt.alloc(), JOINED)
}

/// Frames that are missing.
const MISSED: &str = "\
wires 1
reads 0 100
file f

case the first frame is missing
words join 64 2 f
frame 1 0 13 $600~[A*42]
*11 frame 1 {1+1} 13 [A*48]
frame 1 12 13 [A*30]~
said missing call 0 frame 0
told status 8 call 0 frame 0
told held 0 0 no pool
told file 0, 1 wires, 1 opens

case the third frame is missing
words join 64 2 f
frame 0 0 1 +OK~
frame 1 0 13 $600~[A*42]
*10 frame 1 {2+1} 13 [A*48]
frame 1 12 13 [A*30]~
said missing call 1 frame 1
told status 8 call 1 frame 1
told held 0 0 no pool
told file 0, 1 wires, 1 opens

case the last frame is missing
words join 64 2 f
frame 0 0 1 +OK~
frame 1 0 13 $600~[A*42]
*11 frame 1 {1+1} 13 [A*48]
said missing call 1 frame 12
told status 8 call 1 frame 12
told held 0 0 no pool
told file 0, 1 wires, 1 opens

case the frames of a third reply are missing, of as many replies as may be
words join 64 4294967295 f
frame 0 0 1 +OK~
frame 1 0 13 $600~[A*42]
*11 frame 1 {1+1} 13 [A*48]
frame 1 12 13 [A*30]~
said missing call 2 frame 0
told status 8 call 2 frame 0
told held 0 0 no pool
told file 0, 1 wires, 1 opens";

#[test]
fn each_frame_is_missed(rt: HostRuntime) -> Result<(), Fail> {
    check(&rt, rt.alloc(), MISSED)
}

/// Frames that are cut or changed, or that are of other calls or of another size.
const REFUSED: &str = "\
wires 1
reads 0 100
file f
frame 0 0 1 +OK~
frame 1 0 13 $600~[A*42]
*11 frame 1 {1+1} 13 [A*48]
frame 1 12 13 [A*30]~

case the last frame is cut
words join 64 2 f
front 836
said bad frame 14
told status 7 frame 14
told held 0 0 no pool
told file 0, 1 wires, 1 opens

case a rest that is no header is a frame too
words join 64 2 f
text \0
said bad frame 15
told status 7 frame 15
told held 0 0 no pool
told file 0, 1 wires, 1 opens

case the second call isn't there
words join 64 1 f
said bad frame 2
told status 7 frame 2
told held 0 0 no pool
told file 0, 1 wires, 1 opens

case there is no call
words join 64 0 f
said bad frame 1
told status 7 frame 1
told held 0 0 no pool
told file 0, 1 wires, 1 opens

case the frames are of another size
words join 65 2 f
said bad frame 2
told status 7 frame 2
told held 0 0 no pool
told file 0, 1 wires, 1 opens

case the third frame again, with another letter
words join 64 2 f
frame 1 1 13 [A*47]B
said bad frame 15
told status 7 frame 15
told held 0 0 no pool
told file 0, 1 wires, 1 opens";

#[test]
fn frames_that_are_cut_or_changed_are_refused(rt: HostRuntime) -> Result<(), Fail> {
    check(&rt, rt.alloc(), REFUSED)
}

/// Words that are bad, and too few wires. Nothing is opened or sent.
const BAD_WORDS: &str = "\
file f
frame 0 0 1 +OK~
frame 1 0 13 $600~[A*42]
*11 frame 1 {1+1} 13 [A*48]
frame 1 12 13 [A*30]~
said bad words
told status 1
told held 0 0 no pool

case another number of words
wires 1
either join
either join 64
either join 64 2
either join 64 2 f f
told 1 wires, 0 opens

case numbers that are out of range or aren't plain
wires 1
either join 63 2 f
either join 9217 2 f
either join 064 2 f
either join +64 2 f
either join 64 02 f
either join 64 -1 f
either join 64 4294967296 f
either join 64 2x f
either join f 64 2
told 1 wires, 0 opens

case options, which it hasn't, and another command
wires 1
either join --quiet 64 2 f
either join 64 2 --workers 1 f
either join 64 2 f --journal
either Join 64 2 f
told 1 wires, 0 opens

case no wire
words join 64 2 f
wires 0
told 0 wires, 0 opens";

#[test]
fn bad_words_of_a_join(rt: HostRuntime) -> Result<(), Fail> {
    check(&rt, rt.alloc(), BAD_WORDS)
}

/// Calls to the outside that fail. A say that fails leaves the status, of which the first half is said.
const FAULTS: &str = "\
wires 1
file f
frame 0 0 1 +OK~
frame 1 0 13 $600~[A*42]
*11 frame 1 {1+1} 13 [A*48]
frame 1 12 13 [A*30]~

case the open fails
words join 64 2 f
reads 0 93
host fails 0
said cannot open 0
told status 2 file 0
told held 0 0 no pool
told 1 wires, 1 opens

case a file that isn't there
words join 64 2 g
reads 0 93
said cannot open 0
told status 2 file 0
told held 0 0 no pool
told 1 wires, 1 opens

case the first read fails
words join 64 2 f
reads 0 93 0
said read fault 0
told status 4 file 0
told held 0 0 no pool
told file 0, 1 wires, 1 opens

case the last read fails, which is that of the end
words join 64 2 f
reads 0 93 9
said read fault 0
told status 4 file 0
told held 0 0 no pool
told file 0, 1 wires, 1 opens

case the say of a frame that is refused fails
words join 64 1 f
reads 0 93
host fails 1
half
said bad frame 2
told status 7 frame 2
told held 0 0 no pool
told file 0, 1 wires, 1 opens

case the say of a frame that is missing fails
words join 64 3 f
reads 0 93
host fails 1
half
said missing call 2 frame 0
told status 8 call 2 frame 0
told held 0 0 no pool
told file 0, 1 wires, 1 opens";

#[test]
fn calls_to_the_outside_fail(rt: HostRuntime) -> Result<(), Fail> {
    check(&rt, rt.alloc(), FAULTS)
}

/// Each put fails in turn. Each piece of the replies but the first and the last has 48 bytes, and half of the one that
/// fails is sent.
const PUTS: &str = "\
words join 64 2 f
wires 1
reads 0 4096
file f
frame 0 0 1 +OK~
frame 1 0 13 $600~[A*42]
*11 frame 1 {1+1} 13 [A*48]
frame 1 12 13 [A*30]~
wire 0
text +OK~$600~[A*600]~
told status 5
told held 0 0 no pool
told file 0, 1 wires, 1 opens

case put 0 fails
put fails 0 0
front 2

case put 1 fails
put fails 0 1
front 29

case put 2 fails
put fails 0 2
front 77

case put 3 fails
put fails 0 3
front 125

case put 4 fails
put fails 0 4
front 173

case put 5 fails
put fails 0 5
front 221

case put 6 fails
put fails 0 6
front 269

case put 7 fails
put fails 0 7
front 317

case put 8 fails
put fails 0 8
front 365

case put 9 fails
put fails 0 9
front 413

case put 10 fails
put fails 0 10
front 461

case put 11 fails
put fails 0 11
front 509

case put 12 fails
put fails 0 12
front 557

case put 13 fails
put fails 0 13
front 597";

#[test]
fn a_put_that_fails_is_the_last(rt: HostRuntime) -> Result<(), Fail> {
    check(&rt, rt.alloc(), PUTS)
}
