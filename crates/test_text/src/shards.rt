use crate::checks::{equal, holds};
use shard_part::{PartOp, Setting, When, shard_of};
use std::process::Abort;

/// A key of bytes from the whole range.
const SPREAD: [u8; 16] = [
    0, 17, 34, 51, 68, 85, 102, 119, 136, 153, 170, 187, 204, 221, 238, 255,
];

// The key belongs to these shards of 1, 3, 8, 16 and 65,535.
fn check(rt: &impl Abort, key: &[u8], shards: [u16; 5]) {
    equal(rt, "of 1", shard_of(key, 1), shards[0]);
    equal(rt, "of 3", shard_of(key, 3), shards[1]);
    equal(rt, "of 8", shard_of(key, 8), shards[2]);
    equal(rt, "of 16", shard_of(key, 16), shards[3]);
    equal(rt, "of 65,535", shard_of(key, 65_535), shards[4]);
}

#[test]
fn shards_of_keys(rt: HostRuntime) {
    let long = [b'v'; 512];
    let table: [(&[u8], [u16; 5]); 9] = [
        (b"", [0, 2, 5, 5, 4127]),
        (b"a", [0, 1, 4, 12, 65086]),
        (b"b", [0, 1, 5, 5, 1624]),
        (b"k", [0, 2, 2, 10, 6461]),
        (b"foobar", [0, 0, 0, 8, 9768]),
        (b"user:1000", [0, 0, 1, 9, 11901]),
        (b"\0", [0, 0, 7, 15, 43665]),
        (&SPREAD, [0, 1, 5, 5, 41278]),
        (&long, [0, 2, 5, 5, 25607]),
    ];
    for (key, shards) in table {
        check(&rt, key, shards);
    }
}

static SETS: [(PartOp, Setting); 6] = [
    (
        PartOp::Set,
        Setting {
            when: When::Always,
            asks: false,
        },
    ),
    (
        PartOp::SetNx,
        Setting {
            when: When::IfMissing,
            asks: false,
        },
    ),
    (
        PartOp::SetXx,
        Setting {
            when: When::IfPresent,
            asks: false,
        },
    ),
    (
        PartOp::SetGet,
        Setting {
            when: When::Always,
            asks: true,
        },
    ),
    (
        PartOp::SetNxGet,
        Setting {
            when: When::IfMissing,
            asks: true,
        },
    ),
    (
        PartOp::SetXxGet,
        Setting {
            when: When::IfPresent,
            asks: true,
        },
    ),
];

#[test]
fn settings_of_parts(rt: HostRuntime) {
    for (part, setting) in &SETS {
        equal(&rt, "the setting", part.setting(), Some(*setting));
        equal(&rt, "the operation", setting.part_op(), *part);
        holds(&rt, "it takes a value", part.takes_value());
    }
    let others = [
        PartOp::Get,
        PartOp::Append,
        PartOp::Del,
        PartOp::Exists,
        PartOp::StrLen,
        PartOp::GetRange { start: 0, end: -1 },
    ];
    for part in others {
        equal(&rt, "the setting", part.setting(), None);
        equal(
            &rt,
            "it takes a value",
            part.takes_value(),
            part == PartOp::Append,
        );
    }
}

#[test]
fn keys_that_are_stored_to(rt: HostRuntime) {
    holds(
        &rt,
        "always",
        When::Always.stores(true) && When::Always.stores(false),
    );
    holds(
        &rt,
        "if it is missing",
        !When::IfMissing.stores(true) && When::IfMissing.stores(false),
    );
    holds(
        &rt,
        "if it is there",
        When::IfPresent.stores(true) && !When::IfPresent.stores(false),
    );
}
