//! What commands need: descriptors of the ring, and staging buffers.
use reply_layout::Need;

fn shown(need: Need) -> (u32, u32) {
    (need.descriptors, need.stage)
}

fn values(count: usize, head: usize) -> (u32, u32) {
    if count == 0 || count > 64 || head > 23 {
        return (0, 0);
    }
    shown(Need::values(count, head))
}

fn copied(bytes: usize) -> (u32, u32) {
    if bytes > 65_536 {
        return (0, 0);
    }
    shown(Need::copied(bytes))
}

#[test]
fn needs_of_values(rt: HostRuntime) {
    // values, the bytes of the head before them, and what they need
    for (count, head, need) in [
        (1, 0, (19, 2)),
        (1, 4, (19, 2)),
        (2, 4, (37, 3)),
        (63, 5, (1136, 65)),
        (64, 5, (1154, 66)),
    ] {
        assert_eq!(rt; values(count, head), need);
    }
}

#[test]
fn needs_of_bytes(rt: HostRuntime) {
    for (bytes, stage) in [
        (0, 0),
        (1, 1),
        (512, 1),
        (513, 2),
        (16_394, 33),
        (65_536, 128),
    ] {
        assert_eq!(rt; copied(bytes), (stage, stage));
    }
    assert_eq!(rt; shown(Need::line()), (1, 1));
    assert_eq!(rt; shown(Need::range()), (20, 3));
}
