//! Puts and flushes on a wire that counts them.
use any_wire::{Calls, flush_unless_failed, put_unless_failed};

// How many bytes were put, and how often the wire was flushed.
#[derive(Clone, Copy, Drop)]
struct Count {
    bytes: usize,
    flushes: u32,
}

#[test]
fn nothing_is_done_after_a_failure(rt: HostRuntime) {
    let wire = Count {
        bytes: 0,
        flushes: 0,
    };
    let put = |w: Count, piece: &[u8]| -> (Count, bool) {
        (
            Count {
                bytes: w.bytes.saturating_add(piece.len()),
                flushes: w.flushes,
            },
            piece.len() > 3,
        )
    };
    let flush = |w: Count| -> (Count, bool) {
        (
            Count {
                bytes: w.bytes,
                flushes: w.flushes.saturating_add(1),
            },
            false,
        )
    };
    let calls = Calls { put, flush };
    let (wire, failed) = put_unless_failed(wire, false, &calls, b"abc".as_slice());
    assert!(rt; !failed && wire.bytes == 3);
    let (wire, failed) = flush_unless_failed(wire, failed, &calls);
    assert!(rt; !failed && wire.flushes == 1);
    let (wire, failed) = put_unless_failed(wire, failed, &calls, b"abcd".as_slice());
    assert!(rt; failed && wire.bytes == 7);
    let (wire, failed) = put_unless_failed(wire, failed, &calls, b"ab".as_slice());
    assert!(rt; failed && wire.bytes == 7);
    let (wire, failed) = flush_unless_failed(wire, failed, &calls);
    assert!(rt; failed && wire.flushes == 1);
}
