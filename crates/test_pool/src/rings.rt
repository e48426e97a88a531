//! Frames through a ring, on one thread and between two.
ghost use Rattle.std.specs.Prelude.{◌≡◌, ◌<◌, ◌≤◌, IfOk, length};
ghost use Rattle.tx_ring.specs.Shown.{driver_ring, device_ring, IsResting};
ghost use Rattle.tx_ring.specs.Words.{IsFrame};

use flake_base::{Seg, Segs};
use std::alloc::Global;
use std::process::Abort;
use std::thread::{Threads, join};
use tx_descriptor::{Framed, Legacy};
use tx_ring::laws::both_ends;
use tx_ring::{DeviceEnd, Driver, Job, Next, RingError, ring};

#[derive(Drop)]
struct Frame {
    number: u32,
    segs: Segs,
}

impl Framed for Frame {
    ghost segs = { λ f. f.segs.items };

    fn count(&self) -> usize {
        self.segs.len()
    }

    fn seg(&self, i: usize) -> Seg {
        *self.segs.get(i)
    }
}

// The segment's address and length tell the frame's number and the segment's place.
fn segment(number: u32, i: u32) -> Seg
    requires { i < 7 }
    ensures { (0 < result.len) × (result.len ≤ 4096) }
{
    Seg {
        address: number as u64 * 65536 + i as u64,
        len: i + 1,
    }
}

fn frame_of(alloc: Global, number: u32, count: u32) -> Result<Frame, RingError>
    requires { (0 < count) × (count ≤ 7) }
    ensures { IfOk result (λ f. IsFrame f.segs.items × (length f.segs.items ≡ count)) }
{
    let Ok(mut segs) = Segs::with_room(alloc, count as usize) else {
        return Err(RingError::Memory);
    };
    for i in 0..count {
        let Ok(()) = segs.push(segment(number, i)) else {
            return Err(RingError::Memory);
        };
    }
    Ok(Frame { number, segs })
}

fn frame_with(alloc: Global, parts: &[Seg]) -> Result<Frame, RingError>
    requires { IsFrame parts.now }
    ensures { IfOk result (λ f. f.segs.items ≡ parts.now) }
{
    let Ok(mut segs) = Segs::with_room(alloc, parts.len()) else {
        return Err(RingError::Memory);
    };
    for part in parts {
        if segs.push(*part).is_err() {
            return Err(RingError::Memory);
        }
    }
    Ok(Frame { number: 0, segs })
}

// The job has the descriptors of the frame with this number, of which the last one alone ends it.
fn shows(job: &Job<Frame>, number: u32) -> bool {
    let count = job.count();
    for i in 0..count {
        let Seg { address, len } = segment(number, (i % 7) as u32);
        let last = i + 1 == count;
        let fields = Legacy {
            address,
            len: len as u16,
            eop: last,
            rs: last,
            dd: false,
        };
        if job.descriptor(i) != fields.to_bytes() || job.segment(i) != (Seg { address, len }) {
            return false;
        }
    }
    count > 0
}

#[derive(Clone, Copy, PartialEq)]
enum Found {
    Right,
    Wrong,
    Empty,
    Closed,
}

// Completes the next frame, which should have this number.
fn gather_one(end: &mut DeviceEnd<Frame>, number: u32) -> Found
    requires { IsResting end.old }
    ensures rest { IsResting end.new }
    ensures ring { device_ring end.new ≡ device_ring end.old }
{
    match end.next() {
        Next::Frame(mut job) => {
            let right = shows(&job, number) && job.frame().number == number;
            end.complete(job);
            if right { Found::Right } else { Found::Wrong }
        }
        Next::Empty { .. } => Found::Empty,
        Next::Closed => Found::Closed,
    }
}

// Whether there was memory and room for a frame of one segment. It has no clauses, as the next one.
fn is_posted(alloc: Global, driver: &mut Driver<Frame>, number: u32) -> bool {
    match frame_of(alloc, number, 1) {
        Ok(frame) => driver.post(frame).is_ok(),
        Err(_) => false,
    }
}

// The number of the frame that came back.
fn reaped(driver: &mut Driver<Frame>) -> Option<u32> {
    match driver.reap() {
        Some(frame) => Some(frame.number),
        None => None,
    }
}

// Posts frames of one segment and reaps them, and answers how many came back in order.
fn drive(alloc: Global, mut driver: Driver<Frame>, frames: u32) -> u32 {
    let mut sent = 0;
    let mut back = 0;
    for _ in 0..1u64 << 40 {
        if back == frames {
            break;
        }
        if sent < frames && driver.room() > 0 {
            if !is_posted(alloc, &mut driver, sent) {
                return 0;
            }
            sent += 1;
        }
        if let Some(number) = reaped(&mut driver) {
            if number != back {
                return 0;
            }
            back += 1;
        }
    }
    if driver.close().is_ok() { back } else { 0 }
}

// Completes frames until the driver closed, and answers how many came in order.
fn gather(mut end: DeviceEnd<Frame>) -> u32
    requires { IsResting end }
{
    let mut taken = 0;
    for _ in 0..1u64 << 40 {
        match gather_one(&mut end, taken) {
            Found::Right => taken = taken.saturating_add(1),
            Found::Wrong => return 0,
            Found::Empty => {}
            Found::Closed => return taken,
        }
    }
    0
}

// A ring of so many descriptors with an end in each of two threads: how many frames came back, and how many came.
fn driven<R: Threads>(rt: &R, alloc: Global, n: u32, frames: u32) -> Result<(u32, u32), RingError> {
    let (driver, end) = ring::<Frame>(alloc, n)?;
    Ok(join(
        rt,
        move || drive(alloc, driver, frames),
        move || gather(end),
    ))
}

#[test]
fn five_hundred_frames_fit_their_ring(rt: HostRuntime) -> Result<(), RingError> {
    assert!(rt; driven(&rt, rt.alloc(), 512, 500)? == (500, 500));
    Ok(())
}

#[test]
fn a_thousand_frames_go_round_a_ring_of_eight(rt: HostRuntime) -> Result<(), RingError> {
    assert!(rt; driven(&rt, rt.alloc(), 8, 1000)? == (1000, 1000));
    Ok(())
}

/// Both ends of one ring, on one thread.
#[derive(Drop)]
struct Ends {
    driver: Driver<Frame>,
    end: DeviceEnd<Frame>,
    ghost one: { device_ring end ≡ driver_ring driver },
    ghost rest: { IsResting end },
}

fn open(alloc: Global, n: u32) -> Result<Ends, RingError> {
    let (driver, end) = ring::<Frame>(alloc, n)?;
    Ok(Ends { driver, end })
}

#[derive(Clone, Copy)]
enum Act {
    /// A frame's number, and how many segments it has.
    Post(u32, u32),
    Gather(u32),
    Reap,
    Room,
    Pending,
}

#[derive(Clone, Copy, PartialEq)]
enum Answer {
    Posted,
    Busy { need: u32, room: u32, number: u32 },
    Gathered(Found),
    Reaped(Option<u32>),
    Count(usize),
}

use Act::{Gather, Post};
use Answer::{Gathered, Reaped};

// Posts a frame of one to seven segments. It has no clauses, so that no assertion carries those of the calls.
fn post(alloc: Global, ends: &mut Ends, number: u32, count: u32) -> Result<Answer, RingError> {
    if count == 0 || count > 7 {
        return Err(RingError::Memory);
    }
    match ends.driver.post(frame_of(alloc, number, count)?) {
        Ok(()) => Ok(Answer::Posted),
        Err(busy) => Ok(Answer::Busy {
            need: busy.need,
            room: busy.room,
            number: busy.frame.number,
        }),
    }
}

fn reap(ends: &mut Ends) -> Option<u32> {
    match ends.driver.reap() {
        Some(frame) => Some(frame.number),
        None => None,
    }
}

fn gather_next(ends: &mut Ends, number: u32) -> Found {
    gather_one(&mut ends.end, number)
}

fn answered(alloc: Global, ends: &mut Ends, act: Act) -> Result<Answer, RingError> {
    match act {
        Post(number, count) => post(alloc, ends, number, count),
        Gather(number) => Ok(Gathered(gather_next(ends, number))),
        Act::Reap => Ok(Reaped(reap(ends))),
        Act::Room => Ok(Answer::Count(ends.driver.room() as usize)),
        Act::Pending => Ok(Answer::Count(ends.driver.pending())),
    }
}

fn check_all(
    rt: &impl Abort,
    alloc: Global,
    ends: &mut Ends,
    turns: &[(Act, Answer)],
) -> Result<(), RingError> {
    for (turn, (act, wanted)) in turns.iter().enumerate() {
        let told = answered(alloc, ends, *act)?;
        assert!(rt; told == *wanted, "turn {turn}");
    }
    Ok(())
}

const SEVEN: [(Act, Answer); 15] = [
    (Post(0, 1), Answer::Posted),
    (Post(1, 1), Answer::Posted),
    (Post(2, 1), Answer::Posted),
    (Post(3, 1), Answer::Posted),
    (Post(4, 1), Answer::Posted),
    (Post(5, 1), Answer::Posted),
    (Post(6, 1), Answer::Posted),
    (
        Post(7, 1),
        Answer::Busy {
            need: 1,
            room: 0,
            number: 7,
        },
    ),
    (Act::Reap, Reaped(None)),
    (Act::Pending, Answer::Count(7)),
    (Gather(0), Gathered(Found::Right)),
    (Act::Reap, Reaped(Some(0))),
    (Act::Pending, Answer::Count(6)),
    (Post(7, 1), Answer::Posted),
    (Act::Room, Answer::Count(0)),
];

#[test]
fn a_ring_of_eight_holds_seven(rt: HostRuntime) -> Result<(), RingError> {
    let mut ends = open(rt.alloc(), 8)?;
    check_all(&rt, rt.alloc(), &mut ends, &SEVEN)
}

// Why there is no ring of so many descriptors; nothing where there is one.
fn refusal(alloc: Global, n: u32) -> Option<RingError> {
    match ring::<Frame>(alloc, n) {
        Ok(_) => None,
        Err(error) => Some(error),
    }
}

#[test]
fn rings_have_a_multiple_of_eight_descriptors(rt: HostRuntime) {
    for n in [0, 4, 12, 4097, 4104] {
        assert!(rt;
            refusal(rt.alloc(), n) == Some(RingError::BadSize { n }),
            "{n}"
        );
    }
    for n in [8, 512, 4096] {
        assert!(rt; refusal(rt.alloc(), n).is_none(), "{n}");
    }
}

// 84 descriptors in all, where a lap has 16.
#[test]
fn longer_frames_go_round_in_order(rt: HostRuntime) -> Result<(), RingError> {
    let alloc = rt.alloc();
    let mut ends = open(alloc, 16)?;
    for number in 0..21 {
        let turns = [
            (Post(number, number % 7 + 1), Answer::Posted),
            (Gather(number), Gathered(Found::Right)),
            (Act::Reap, Reaped(Some(number))),
        ];
        check_all(&rt, alloc, &mut ends, &turns)?;
    }
    check_all(&rt, alloc, &mut ends, &[(Act::Room, Answer::Count(15))])
}

// Three segments, and the descriptors that a frame of them has, written out by hand.
const PARTS: [(Seg, [u8; 16]); 3] = [
    (
        Seg {
            address: 1_049_088,
            len: 6,
        },
        [0, 2, 0x10, 0, 0, 0, 0, 0, 6, 0, 0, 0, 0, 0, 0, 0],
    ),
    (
        Seg {
            address: 3_145_728,
            len: 600,
        },
        [0, 0, 0x30, 0, 0, 0, 0, 0, 0x58, 2, 0, 0, 0, 0, 0, 0],
    ),
    (
        Seg {
            address: 1_049_094,
            len: 2,
        },
        [6, 2, 0x10, 0, 0, 0, 0, 0, 2, 0, 0, 9, 0, 0, 0, 0],
    ),
];

// Whether there was room for a frame of these segments.
fn is_posted_of(alloc: Global, ends: &mut Ends, parts: &[Seg]) -> Result<bool, RingError>
    requires { IsFrame parts.now × (length parts.now ≤ 7) }
{
    let frame = frame_with(alloc, parts)?;
    Ok(ends.driver.post(frame).is_ok())
}

// Whether the job has these descriptors and no more.
fn has(job: &Job<Frame>, wanted: &[[u8; 16]; 3]) -> bool {
    let count = job.count();
    if count != 3 {
        return false;
    }
    for i in 0..count {
        if job.descriptor(i) != wanted[i] {
            return false;
        }
    }
    true
}

// Whether the next frame has these descriptors. It is completed.
fn is_laid(ends: &mut Ends, wanted: &[[u8; 16]; 3]) -> bool {
    match ends.end.next() {
        Next::Frame(job) => {
            let same = has(&job, wanted);
            ends.end.complete(job);
            same
        }
        Next::Empty { .. } => false,
        Next::Closed => false,
    }
}

#[test]
fn descriptors_have_the_bytes_of_their_segments(rt: HostRuntime) -> Result<(), RingError> {
    let mut ends = open(rt.alloc(), 8)?;
    let [(first, one), (second, two), (third, three)] = PARTS;
    let parts = [first, second, third];
    assert!(rt; is_posted_of(rt.alloc(), &mut ends, &parts)?);
    assert!(rt; is_laid(&mut ends, &[one, two, three]));
    Ok(())
}

// Each end is told how far the other is, and nothing else changes.
fn compare(ends: &mut Ends) {
    both_ends(&mut ends.driver, &mut ends.end);
}

// The ends of a ring that can't be closed yet.
fn not_closed(ends: Ends) -> Option<Ends> {
    let Ends { driver, end } = ends;
    match driver.close() {
        Ok(_) => None,
        Err(driver) => Some(Ends { driver, end }),
    }
}

// Closes the ring, and gathers twice, with all settled between.
fn gather_closed(ends: Ends) -> Option<(Found, Found)> {
    let Ends { driver, mut end } = ends;
    let Ok(mut closed) = driver.close() else {
        return None;
    };
    let first = gather_one(&mut end, 1);
    closed.settle(&mut end);
    Some((first, gather_one(&mut end, 1)))
}

#[test]
fn a_closed_ring_has_ended(rt: HostRuntime) -> Result<(), RingError> {
    let alloc = rt.alloc();
    let mut ends = open(alloc, 8)?;
    check_all(&rt, alloc, &mut ends, &[(Post(0, 2), Answer::Posted)])?;
    compare(&mut ends);
    let Some(mut ends) = not_closed(ends) else {
        return Err(RingError::BadSize { n: 8 });
    };
    let turns = [
        (Gather(0), Gathered(Found::Right)),
        (Gather(1), Gathered(Found::Empty)),
        (Act::Reap, Reaped(Some(0))),
        (Act::Reap, Reaped(None)),
    ];
    check_all(&rt, alloc, &mut ends, &turns)?;
    assert!(rt; gather_closed(ends) == Some((Found::Closed, Found::Closed)));
    Ok(())
}
