//! Frames line by line: what each is answered, and what is then missing.
use crate::frames::{bytes_of, frame_of, header_of, missing, new_joiner, put, take};
use flake_base::Fails;
use std::alloc::Global;
use std::process::Abort;
use std::test::Fail;

#[test]
fn headers_have_their_bytes(rt: HostRuntime) {
    for (fields, bytes) in [
        (
            (0, 0, 1, 5),
            [0, 0, 0, 0, 0, 0, 0, 0, 1, 0, 0, 0, 5, 0, 0, 0],
        ),
        (
            (1, 12, 13, 32),
            [1, 0, 0, 0, 12, 0, 0, 0, 13, 0, 0, 0, 32, 0, 0, 0],
        ),
        (
            (0x0403_0201, 0x0807_0605, 0x0c0b_0a09, 0x0e0d),
            [1, 2, 3, 4, 5, 6, 7, 8, 9, 10, 11, 12, 13, 14, 0, 0],
        ),
    ] {
        let (call, index, count, len) = fields;
        assert_eq!(rt; header_of(call, index, count, len), bytes);
    }
}

/// The most bytes of a frame, how many calls there are, lines, and what is put at the end. A line has a frame, what it
/// is answered, and the call and frame that are then missing.
static CASES: [(u16, u32, &str, &str); 9] = [
    // No call; no frame of many calls, and of one with many frames.
    (
        64,
        0,
        "0 0 1 5 0 +OK,~ > Err(BadCall { call: 0 }) > None",
        "",
    ),
    (
        64,
        u32::MAX,
        "\
4294967295 0 1 5 0 +OK,~ > Err(BadCall { call: 4294967295 }) > Some((0, 0))
0 4294967294 4294967295 1 0 A > Ok(New) > Some((0, 0))
0 0 4294967295 48 0 A*48 > Ok(New) > Some((0, 1))
4294967294 1 2 1 0 A > Ok(New) > Some((0, 1))",
        "",
    ),
    // As many bytes as fit, and one more.
    (64, 1, "0 0 1 48 0 A*48 > Ok(New) > None", "A*48"),
    (
        64,
        1,
        "\
0 1 2 1 0 B > Ok(New) > Some((0, 0))
0 0 2 48 0 A*48 > Ok(New) > None",
        "A*48,B",
    ),
    (9216, 1, "0 0 1 9200 0 A*9200 > Ok(New) > None", "A*9200"),
    (
        9216,
        1,
        "\
0 0 2 9200 0 A*9200 > Ok(New) > Some((0, 1))
0 1 2 1 0 B > Ok(New) > None",
        "A*9200,B",
    ),
    // Each refusal, and of two that fit the first.
    (
        64,
        2,
        "\
1 0 13 48 0 A*48 > Ok(New) > Some((0, 0))
1 12 13 32 0 A*31 > Err(BadLength { len: 47 }) > Some((0, 0))
1 12 13 32 0 A*33 > Err(BadLength { len: 49 }) > Some((0, 0))
1 12 13 65535 0 > Err(BadLength { len: 16 }) > Some((0, 0))
1 12 13 65535 257 > Err(BadLength { len: 16 }) > Some((0, 0))
1 12 13 32 1 A*32 > Err(BadField { byte: 14 }) > Some((0, 0))
1 12 13 32 257 A*32 > Err(BadField { byte: 14 }) > Some((0, 0))
1 13 13 32 32768 A*32 > Err(BadField { byte: 15 }) > Some((0, 0))
1 13 13 32 0 A*32 > Err(BadIndex { index: 13, count: 13 }) > Some((0, 0))
1 14 13 49 0 A*49 > Err(BadIndex { index: 14, count: 13 }) > Some((0, 0))
0 0 0 5 0 A*5 > Err(BadIndex { index: 0, count: 0 }) > Some((0, 0))
1 3 13 47 0 A*47 > Err(BadSize { len: 47 }) > Some((0, 0))
1 12 13 49 0 A*49 > Err(BadSize { len: 49 }) > Some((0, 0))
1 12 13 0 0 > Err(BadSize { len: 0 }) > Some((0, 0))
2 0 13 47 0 A*47 > Err(BadSize { len: 47 }) > Some((0, 0))
2 0 13 48 0 A*48 > Err(BadCall { call: 2 }) > Some((0, 0))
1 3 14 48 0 A*48 > Err(Conflict { call: 1, index: 3 }) > Some((0, 0))
1 3 12 48 0 A*48 > Err(Conflict { call: 1, index: 3 }) > Some((0, 0))
1 0 13 48 0 B*48 > Err(Conflict { call: 1, index: 0 }) > Some((0, 0))
1 0 13 48 0 A*48 > Ok(Again) > Some((0, 0))
0 0 1 5 0 +OK,~ > Ok(New) > Some((1, 1))",
        "",
    ),
    // A frame that is refused conflicts with none.
    (
        64,
        1,
        "\
0 1 3 47 0 A*47 > Err(BadSize { len: 47 }) > Some((0, 0))
0 0 2 48 0 A*48 > Ok(New) > Some((0, 1))
0 1 3 48 0 A*48 > Err(Conflict { call: 0, index: 1 }) > Some((0, 1))
0 1 2 2 0 B*2 > Ok(New) > None
0 1 2 2 0 B*2 > Ok(Again) > None
0 0 2 48 0 A*48 > Ok(Again) > None",
        "A*48,B*2",
    ),
    // The last frames first.
    (
        64,
        3,
        "\
2 1 2 1 0 F > Ok(New) > Some((0, 0))
1 1 2 1 0 D > Ok(New) > Some((0, 0))
0 1 2 1 0 B > Ok(New) > Some((0, 0))
1 0 2 48 0 C*48 > Ok(New) > Some((0, 0))
0 0 2 48 0 A*48 > Ok(New) > Some((2, 0))
2 0 2 48 0 E*48 > Ok(New) > None",
        "A*48,B,C*48,D,E*48,F",
    ),
];

// Takes the frames of lines, and checks what is put.
fn check_case(
    rt: &impl Abort,
    alloc: Global,
    mtu: u16,
    calls: u32,
    lines: &str,
    replies: &str,
) -> Result<(), Fail> {
    let mut joiner = new_joiner(alloc, mtu, calls);
    for line in lines.split('\n') {
        let mut columns = line.split(" > ");
        let frame = frame_of(alloc, columns.next().unwrap_or(""))?;
        let answer = format!(in alloc; "{:?}", take(&mut joiner, frame.as_slice()))?;
        assert!(rt; answer.as_str() == columns.next().unwrap_or(""), "{line}");
        let least = format!(in alloc; "{:?}", missing(&joiner))?;
        assert!(rt; least.as_str() == columns.next().unwrap_or(""), "{line}");
    }
    let wanted = bytes_of(alloc, replies)?;
    match put(alloc, &joiner, Fails::new(alloc))? {
        None => assert!(rt; wanted.is_empty(), "{lines}"),
        Some((done, sent)) => {
            assert!(rt; done, "{lines}");
            assert!(rt; sent.as_slice() == wanted.as_slice(), "{lines}");
        }
    }
    Ok(())
}

#[test]
fn frames_are_taken_or_refused(rt: HostRuntime) -> Result<(), Fail> {
    for (mtu, calls, lines, replies) in &CASES {
        check_case(&rt, rt.alloc(), *mtu, *calls, lines, replies)?;
    }
    Ok(())
}
