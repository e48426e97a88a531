//! Two replies in frames of at most 64 bytes, in several orders and with faults.
use crate::frames::{TWO_REPLIES, bytes_of, frame_of, missing, new_joiner, put, take, two_replies};
use flake_base::{Bytes, Fails};
use mtu_frames::{BadFrame, Joiner, Taken};
use std::alloc::Global;
use std::process::Abort;
use std::test::Fail;

// What the joiner puts, where nothing fails and nothing is missing.
fn check_replies(rt: &impl Abort, alloc: Global, joiner: &Joiner) -> Result<(), Fail> {
    let (done, sent) = put(alloc, joiner, Fails::new(alloc))?.ok_or("a frame is missing")?;
    assert!(rt; done);
    assert_eq!(rt; sent.len(), 613);
    assert!(rt; sent.as_slice() == bytes_of(alloc, TWO_REPLIES)?.as_slice());
    Ok(())
}

// In order, in reverse, and in two mixed orders, each frame twice.
#[test]
fn frames_come_in_any_order_and_twice(rt: HostRuntime) -> Result<(), Fail> {
    let frames = two_replies(rt.alloc())?;
    assert_eq!(rt; frames.len(), 14);
    for (first, step) in [(0, 1), (13, 13), (0, 3), (4, 5)] {
        let mut joiner = new_joiner(rt.alloc(), 64, 2);
        for turn in 0..14usize {
            let place = turn.wrapping_mul(step).wrapping_add(first) % 14;
            let frame = frames.as_slice().get(place).ok_or("no frame")?;
            assert!(rt; missing(&joiner).is_some(), "{first} {turn}");
            assert!(rt;
                take(&mut joiner, frame.as_slice()) == Ok(Taken::New),
                "{first} {turn}"
            );
            assert!(rt;
                take(&mut joiner, frame.as_slice()) == Ok(Taken::Again),
                "{first} {turn}"
            );
        }
        assert_eq!(rt; missing(&joiner), None);
        check_replies(&rt, rt.alloc(), &joiner)?;
    }
    Ok(())
}

// A joiner that took all frames but the one at this place.
fn joiner_without(alloc: Global, left_out: usize) -> Result<Joiner, Fail> {
    let mut joiner = new_joiner(alloc, 64, 2);
    let frames = two_replies(alloc)?;
    for (place, frame) in frames.iter().enumerate() {
        if place != left_out {
            let _ = take(&mut joiner, frame.as_slice());
        }
    }
    Ok(joiner)
}

#[test]
fn the_frame_that_is_left_out_is_missing(rt: HostRuntime) -> Result<(), Fail> {
    assert_eq!(rt; missing(&joiner_without(rt.alloc(), 0)?), Some((0, 0)));
    for place in 1..14u32 {
        let joiner = joiner_without(rt.alloc(), place as usize)?;
        assert_eq!(rt; missing(&joiner), Some((1, place - 1)));
    }
    Ok(())
}

// What the first frame of call 1 is answered with this bit changed, where all frames were taken.
fn refusal(byte: usize, bit: u32) -> BadFrame {
    let bit = 1 << bit.min(7);
    match byte {
        0 if bit == 1 => BadFrame::Conflict { call: 0, index: 0 },
        0 => BadFrame::BadCall { call: 1 ^ bit },
        1 => BadFrame::BadCall {
            call: 1 ^ (bit << 8),
        },
        2 => BadFrame::BadCall {
            call: 1 ^ (bit << 16),
        },
        3 => BadFrame::BadCall {
            call: 1 ^ (bit << 24),
        },
        4 if bit < 13 => BadFrame::Conflict {
            call: 1,
            index: bit,
        },
        4 => BadFrame::BadIndex {
            index: bit,
            count: 13,
        },
        5 => BadFrame::BadIndex {
            index: bit << 8,
            count: 13,
        },
        6 => BadFrame::BadIndex {
            index: bit << 16,
            count: 13,
        },
        7 => BadFrame::BadIndex {
            index: bit << 24,
            count: 13,
        },
        12 | 13 => BadFrame::BadLength { len: 64 },
        14 => BadFrame::BadField { byte: 14 },
        15 => BadFrame::BadField { byte: 15 },
        _ => BadFrame::Conflict { call: 1, index: 0 },
    }
}

fn change(frame: &mut [u8], byte: usize, bit: u32) {
    if byte < frame.len() && bit < 8 {
        frame[byte] ^= 1 << bit;
    }
}

#[test]
fn one_bit_changed_is_refused(rt: HostRuntime) -> Result<(), Fail> {
    let mut joiner = joiner_without(rt.alloc(), 14)?;
    let mut frame = frame_of(rt.alloc(), "1 0 13 48 0 $600,~,A*42")?;
    assert_eq!(rt; frame.len(), 64);
    for byte in 0..64 {
        for bit in 0..8u32 {
            change(frame.as_mut_slice(), byte, bit);
            let wanted = Err(refusal(byte, bit));
            assert!(rt;
                take(&mut joiner, frame.as_slice()) == wanted,
                "{byte} {bit}"
            );
            change(frame.as_mut_slice(), byte, bit);
        }
    }
    assert!(rt; take(&mut joiner, frame.as_slice()) == Ok(Taken::Again));
    check_replies(&rt, rt.alloc(), &joiner)
}

// How much is put of replies where the put of this number fails: half of its piece.
fn put_until(alloc: Global, joiner: &Joiner, number: u64) -> Result<(bool, Bytes), Fail> {
    let mut fails = Fails::with_room(alloc, 1)?;
    fails.push(number)?;
    Ok(put(alloc, joiner, fails)?.ok_or("a frame is missing")?)
}

// The pieces have 5 bytes, twelve times 48, and 32.
#[test]
fn nothing_is_put_behind_a_put_that_failed(rt: HostRuntime) -> Result<(), Fail> {
    let joiner = joiner_without(rt.alloc(), 14)?;
    let replies = bytes_of(rt.alloc(), TWO_REPLIES)?;
    for number in 0..14u64 {
        let (done, sent) = put_until(rt.alloc(), &joiner, number)?;
        let len = match number {
            0 => 2,
            13 => 597,
            _ => (48 * number as usize).saturating_sub(19),
        };
        assert!(rt; !done && sent.len() == len, "{number}");
        assert!(rt; replies.as_slice().starts_with(sent.as_slice()), "{number}");
    }
    let (done, sent) = put_until(rt.alloc(), &joiner, 14)?;
    assert!(rt; done && sent.len() == 613);
    Ok(())
}

// A frame of 9,200 bytes goes out in seventeen pieces of 512 bytes, and one of 496.
#[test]
fn a_long_frame_is_put_in_pieces(rt: HostRuntime) -> Result<(), Fail> {
    let mut joiner = new_joiner(rt.alloc(), 9216, 1);
    let frame = frame_of(rt.alloc(), "0 0 1 9200 0 A*9200")?;
    assert!(rt; take(&mut joiner, frame.as_slice()) == Ok(Taken::New));
    for number in 0..17u64 {
        let (done, sent) = put_until(rt.alloc(), &joiner, number)?;
        assert!(rt;
            !done && sent.len() == 512 * number as usize + 256,
            "{number}"
        );
    }
    let (done, sent) = put_until(rt.alloc(), &joiner, 17)?;
    assert!(rt; !done && sent.len() == 8952);
    let (done, sent) = put_until(rt.alloc(), &joiner, 18)?;
    assert!(rt; done && sent.len() == 9200);
    Ok(())
}

// The last frame of each of a thousand calls, each a hundred times.
#[test]
fn frames_that_leave_the_least_one_missing(rt: HostRuntime) -> Result<(), Fail> {
    let mut joiner = new_joiner(rt.alloc(), 64, 1000);
    for call in 0..1000u32 {
        let line = format!(in rt.alloc(); "{call} 1 2 1 0 A")?;
        let frame = frame_of(rt.alloc(), line.as_str())?;
        assert!(rt;
            take(&mut joiner, frame.as_slice()) == Ok(Taken::New),
            "{call}"
        );
        for _ in 1..100 {
            assert!(rt;
                take(&mut joiner, frame.as_slice()) == Ok(Taken::Again),
                "{call}"
            );
        }
        assert_eq!(rt; missing(&joiner), Some((0, 0)));
    }
    Ok(())
}
