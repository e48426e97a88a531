//! Requests that are generated from a number.
use crate::checks::{equal, holds};
use flake_base::{Bytes, Memory};
use request_gen::{DrawnRequest, Draws, Key, next_request, session_input};
use std::alloc::Global;
use std::test::Fail;

// The only call of `session_input`. It has no clauses, so that no assertion carries those of `session_input`.
fn input(alloc: Global, number: u32, session: u16, count: u32) -> Result<Bytes, Memory> {
    session_input(alloc, number, session.min(15), count)
}

// And that of `next_request`.
fn asked(draws: &mut Draws, r: u32) -> DrawnRequest {
    next_request(draws, r)
}

// FNV-1a of 64 bits.
fn hash(bytes: &[u8]) -> u64 {
    let mut hash = 0xcbf2_9ce4_8422_2325u64;
    for byte in bytes {
        hash = (hash ^ u64::from(*byte)).wrapping_mul(0x100_0000_01b3);
    }
    hash
}

#[test]
fn first_draws(rt: HostRuntime) {
    let mut draws = Draws::new(0, 0);
    for want in [15_470, 18_256, 53_708, 43_769, 25_170] {
        equal(&rt, "a draw", draws.draw(), want);
    }
}

#[test]
fn requests_by_number(rt: HostRuntime) {
    let mut draws = Draws::new(u32::MAX, 1);
    let table = [
        (0, DrawnRequest::Set(Key::Shared(0), 100)),
        (15, DrawnRequest::Set(Key::Shared(15), 8995)),
        (16, DrawnRequest::Set(Key::Own(0), 50)),
        (31, DrawnRequest::Set(Key::Own(15), 9050)),
        (32, DrawnRequest::Get(Key::Shared(0))),
        (33, DrawnRequest::Set(Key::Own(9), 7168)),
    ];
    for (r, want) in table {
        equal(&rt, "a request", asked(&mut draws, r), want);
    }
}

#[test]
fn first_text(rt: HostRuntime) -> Result<(), Fail> {
    let text = input(rt.alloc(), 0, 2, 1)?;
    let head = b"*3\r\n$3\r\nSET\r\n$2\r\ns0\r\n$100\r\n";
    let (front, value) = text.as_slice().split_at_checked(head.len()).ok_or("short")?;
    equal(&rt, "the head", front, head.as_slice());
    equal(&rt, "the value's length", value.len(), 102);
    holds(
        &rt,
        "the value",
        value.iter().take(100).all(|byte| *byte == b'C'),
    );
    holds(&rt, "the end", value.ends_with(b"\r\n"));
    Ok(())
}

// Lengths and hashes of texts that another program wrote by the same rules.
#[test]
fn whole_texts(rt: HostRuntime) -> Result<(), Fail> {
    let table = [
        (0, 0, 34, 153_780, 15_763_006_716_887_284_964),
        (7, 3, 200, 324_600, 18_349_311_405_497_103_398),
        (4_294_967_295, 1, 100, 231_398, 10_273_812_438_071_433_180),
        (4_294_967_290, 15, 64, 176_008, 13_230_180_955_229_158_597),
        (5, 2, 0, 0, 14_695_981_039_346_656_037),
    ];
    for (number, session, count, length, want) in table {
        let text = input(rt.alloc(), number, session, count)?;
        equal(&rt, "bytes", text.len(), length);
        equal(&rt, "the hash", hash(text.as_slice()), want);
    }
    Ok(())
}
