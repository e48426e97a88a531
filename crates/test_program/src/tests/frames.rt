// Replies that go out as frames.
use super::check;
use std::test::Fail;

/// Two replies, of which the second is cut where a frame is full.
const FRAMES: &str = "\
wires 1
reads 0 100
told status 0
file f

case the replies to a SET and to a GET of 600 letters, in frames of 64 bytes
words frames 64 f
ask SET k [A*600]
ask GET k
wire 0
frame 0 0 1 +OK~
frame 1 0 13 $600~[A*42]
*11 frame 1 {1+1} 13 [A*48]
frame 1 12 13 [A*30]~
both session 0 clean taken 648 replies 2 wire whole
both held 0 1
told shards 8
*2 told 2 0 {0+1} 0
told file 0, 1 wires, 1 opens

case 48 bytes of a reply fit into a frame of 64, and those to 41 letters are as many
words frames 64 f
ask SET k [A*41]
ask GET k
wire 0
frame 0 0 1 +OK~
frame 1 0 1 $41~[A*41]~
both session 0 clean taken 88 replies 2 wire whole
both held 1 0
told shards 8
*2 told 2 0 {0+1} 0
told file 0, 1 wires, 1 opens

case 42 letters, whose last byte is in a frame of its own
words frames 64 f
ask SET k [A*42]
ask GET k
wire 0
frame 0 0 1 +OK~
frame 1 0 2 $42~[A*42]\r
frame 1 1 2 |
both session 0 clean taken 89 replies 2 wire whole
both held 1 0
told shards 8
*2 told 2 0 {0+1} 0
told file 0, 1 wires, 1 opens

case frames of 65 bytes, where pieces of a byte or more stay where they lie
words frames --threshold 1 65 f
ask SET k [A*600]
ask GET k
wire 0
frame 0 0 1 +OK~
frame 1 0 13 $600~[A*43]
*11 frame 1 {1+1} 13 [A*49]
frame 1 12 13 [A*18]~
both session 0 clean taken 648 replies 2 wire whole
both held 0 1
told shards 8
*2 told 2 0 {0+1} 0
told file 0, 1 wires, 1 opens

case frames of 1000 bytes, and 975 letters, which leave a byte free
words frames 1000 f
ask SET k [A*975]
ask GET k
wire 0
frame 0 0 1 +OK~
frame 1 0 1 $975~[A*975]~
both session 0 clean taken 1023 replies 2 wire whole
both held 0 1
told shards 8
*2 told 2 0 {0+1} 0
told file 0, 1 wires, 1 opens

case frames of 1000 bytes, and 976 letters, which fill one
words frames 1000 f
ask SET k [A*976]
ask GET k
wire 0
frame 0 0 1 +OK~
frame 1 0 1 $976~[A*976]~
both session 0 clean taken 1024 replies 2 wire whole
both held 0 1
told shards 8
*2 told 2 0 {0+1} 0
told file 0, 1 wires, 1 opens

case frames of 1000 bytes, and 977 letters, a byte too many for one
words frames 1000 f
ask SET k [A*977]
ask GET k
wire 0
frame 0 0 1 +OK~
frame 1 0 2 $977~[A*977]\r
frame 1 1 2 |
both session 0 clean taken 1025 replies 2 wire whole
both held 0 1
told shards 8
*2 told 2 0 {0+1} 0
told file 0, 1 wires, 1 opens

case the longest frames, and 9191 letters, which fill one
words frames 9216 f
ask SET k [A*9191]
ask GET k
wire 0
frame 0 0 1 +OK~
frame 1 0 1 $9191~[A*9191]~
both session 0 clean taken 9240 replies 2 wire whole
both held 0 3
told shards 8
*2 told 2 0 {0+1} 0
told file 0, 1 wires, 1 opens

case the longest frames, and 9192 letters, a byte too many for one
words frames 9216 f
ask SET k [A*9192]
ask GET k
wire 0
frame 0 0 1 +OK~
frame 1 0 2 $9192~[A*9192]\r
frame 1 1 2 |
both session 0 clean taken 9241 replies 2 wire whole
both held 0 3
told shards 8
*2 told 2 0 {0+1} 0
told file 0, 1 wires, 1 opens

case no request makes no frame
words frames 64 f
both session 0 clean taken 0 replies 0 wire whole
both held 0 0
told shards 8
told file 0, 1 wires, 1 opens";

#[test]
fn replies_go_as_frames(rt: HostRuntime) -> Result<(), Fail> {
    check(&rt, rt.alloc(), FRAMES)
}

/// A frame of 64 bytes is one put, and half of the one that fails is sent.
const PUTS: &str = "\
words frames 64 f
wires 1
reads 0 100
file f
ask SET k [A*600]
ask GET k
wire 0
frame 0 0 1 +OK~
frame 1 0 13 $600~[A*42]
*11 frame 1 {1+1} 13 [A*48]
frame 1 12 13 [A*30]~
told status 5
both session 0 clean taken 648 replies 2 wire failed
both held 0 1
told shards 8
*2 told 2 0 {0+1} 0
told file 0, 1 wires, 1 opens

case the frame of the first reply fails
put fails 0 0
front 10

case the first frame of the second reply fails
put fails 0 1
front 53

case the second frame of the second reply fails
put fails 0 2
front 117

case the last frame but one fails
put fails 0 12
front 757

case the last frame fails
put fails 0 13
front 813";

#[test]
fn a_frame_that_fails_is_the_last(rt: HostRuntime) -> Result<(), Fail> {
    check(&rt, rt.alloc(), PUTS)
}

/// Words that are bad.
const BAD_WORDS: &str = "\
wires 1
reads 0 100
file f
ask SET k A
ask GET k
said bad words
told status 1
told held 0 0 no pool
told 1 wires, 0 opens

case no number, no file, and numbers that are out of range or aren't plain
either frames
either frames 64
either frames f
either frames 63 f
either frames 9217 f
either frames 064 f
either frames +64 f

case options that it hasn't, sizes out of their ranges, and another command
either frames 64 f --journal
either frames 64 f --dump 0
either frames 64 --ring 1161 f
either frames 64 --small 128 f f
either Frames 64 f";

#[test]
fn bad_words_of_frames(rt: HostRuntime) -> Result<(), Fail> {
    check(&rt, rt.alloc(), BAD_WORDS)
}
