//! Parts on an empty shard.
ghost use Rattle.std.specs.Prelude.{◌≡◌, ◌<◌};

mod world;

use crate::checks::{equal, holds};
use flake_base::Memory;
use frag_value::{PlaceError, VALUE_LIMIT};
use pinned_pool::{Class, Held, NoBuffer, PoolBlank, PoolName};
use shard_core::PartAnswer;
use shard_part::PartOp;
use std::alloc::Global;
use std::marker::Brand;
use std::process::Abort;
use std::test::Fail;
use world::{Run, Seen, Stored, World};

/// A part's operation, key and value.
type Asked = (PartOp, &'static [u8], &'static [u8]);

/// A part, its answer, the bytes that the taker gets and where they lie, and the segments that are stored.
type Row = (
    Asked,
    Result<PartAnswer, PlaceError>,
    (&'static [u8], &'static [Run]),
    &'static [Stored],
);

const DONE: Result<PartAnswer, PlaceError> = Ok(PartAnswer::Done);

const NULL: Result<PartAnswer, PlaceError> = Ok(PartAnswer::Null);

const BULK: Result<PartAnswer, PlaceError> = Ok(PartAnswer::Bulk);

// Both large buffers were looked at, and none was free.
const NONE_OF_TWO: Result<PartAnswer, PlaceError> = Err(PlaceError::NoBuffer(NoBuffer {
    class: Class::Large,
    looked: 2,
}));

const NOTHING: (&[u8], &[Run]) = (b"", &[]);

/// Where the first small and the first large buffer begin. The small ones have 512 bytes, and the large ones 4,096.
const SMALL: u64 = 1_048_576;

const LARGE: u64 = 1_052_672;

/// Parts in a pool of 8 small buffers and so many large ones, and how many the shard holds at the end.
struct Case {
    test: &'static str,
    large: u32,
    rows: &'static [Row],
    held: (u32, u32),
}

static CASES: [Case; 8] = [
    Case {
        test: "sets_by_their_options",
        large: 1,
        rows: &[
            ((PartOp::SetNx, b"a", b"1"), DONE, NOTHING, &[(SMALL, 1)]),
            ((PartOp::SetNx, b"a", b"2"), NULL, NOTHING, &[]),
            (
                (PartOp::SetXxGet, b"a", b"3"),
                BULK,
                (b"1", &[(SMALL, 0, 1, true)]),
                &[(SMALL + 512, 1)],
            ),
            ((PartOp::SetXx, b"b", b"4"), NULL, NOTHING, &[]),
            ((PartOp::SetGet, b"b", b"5"), NULL, NOTHING, &[(SMALL, 1)]),
            (
                (PartOp::SetNxGet, b"a", b"6"),
                BULK,
                (b"3", &[(SMALL + 512, 0, 1, false)]),
                &[],
            ),
        ],
        held: (2, 0),
    },
    Case {
        test: "ranges_of_a_value",
        large: 1,
        rows: &[
            ((PartOp::Set, b"k", b"abcdef"), DONE, NOTHING, &[(SMALL, 6)]),
            (
                (PartOp::GetRange { start: 1, end: 3 }, b"k", b""),
                BULK,
                (b"bcd", &[(SMALL, 1, 3, false)]),
                &[],
            ),
            (
                (PartOp::GetRange { start: -3, end: -1 }, b"k", b""),
                BULK,
                (b"def", &[(SMALL, 3, 3, false)]),
                &[],
            ),
            (
                (PartOp::GetRange { start: 4, end: 99 }, b"k", b""),
                BULK,
                (b"ef", &[(SMALL, 4, 2, false)]),
                &[],
            ),
            (
                (PartOp::GetRange { start: 3, end: 1 }, b"k", b""),
                BULK,
                NOTHING,
                &[],
            ),
            (
                (PartOp::GetRange { start: 0, end: -1 }, b"x", b""),
                BULK,
                NOTHING,
                &[],
            ),
            (
                (PartOp::StrLen, b"k", b""),
                Ok(PartAnswer::Length(6)),
                NOTHING,
                &[],
            ),
            (
                (PartOp::StrLen, b"x", b""),
                Ok(PartAnswer::Length(0)),
                NOTHING,
                &[],
            ),
        ],
        held: (1, 0),
    },
    Case {
        test: "a_range_over_two_fragments",
        large: 2,
        rows: &[
            (
                (PartOp::Set, b"k", &[b'v'; 5_000]),
                DONE,
                NOTHING,
                &[(LARGE, 4_096), (LARGE + 4_096, 904)],
            ),
            (
                (
                    PartOp::GetRange {
                        start: 4_000,
                        end: -1,
                    },
                    b"k",
                    b"",
                ),
                BULK,
                (
                    &[b'v'; 1_000],
                    &[(LARGE, 4_000, 96, false), (LARGE + 4_096, 0, 904, false)],
                ),
                &[],
            ),
        ],
        held: (0, 2),
    },
    Case {
        test: "keys_go_and_others_stay",
        large: 1,
        rows: &[
            ((PartOp::Set, b"a", b"1"), DONE, NOTHING, &[(SMALL, 1)]),
            (
                (PartOp::Set, b"b", b"2"),
                DONE,
                NOTHING,
                &[(SMALL + 512, 1)],
            ),
            (
                (PartOp::Set, b"c", b"3"),
                DONE,
                NOTHING,
                &[(SMALL + 1_024, 1)],
            ),
            (
                (PartOp::Del, b"a", b""),
                Ok(PartAnswer::Did(true)),
                NOTHING,
                &[],
            ),
            (
                (PartOp::Del, b"a", b""),
                Ok(PartAnswer::Did(false)),
                NOTHING,
                &[],
            ),
            (
                (PartOp::Exists, b"c", b""),
                Ok(PartAnswer::Did(true)),
                NOTHING,
                &[],
            ),
            (
                (PartOp::Exists, b"a", b""),
                Ok(PartAnswer::Did(false)),
                NOTHING,
                &[],
            ),
            (
                (PartOp::Get, b"c", b""),
                BULK,
                (b"3", &[(SMALL + 1_024, 0, 1, false)]),
                &[],
            ),
            ((PartOp::Get, b"a", b""), NULL, NOTHING, &[]),
            ((PartOp::Set, b"a", b"4"), DONE, NOTHING, &[(SMALL, 1)]),
        ],
        held: (3, 0),
    },
    Case {
        test: "appends_keep_the_full_fragments",
        large: 4,
        rows: &[
            (
                (PartOp::Append, b"k", &[b'A'; 16_384]),
                Ok(PartAnswer::Length(16_384)),
                NOTHING,
                &[
                    (LARGE, 4_096),
                    (LARGE + 4_096, 4_096),
                    (LARGE + 8_192, 4_096),
                    (LARGE + 12_288, 4_096),
                ],
            ),
            (
                (PartOp::Append, b"k", b"B"),
                Ok(PartAnswer::Length(16_385)),
                NOTHING,
                &[
                    (LARGE, 4_096),
                    (LARGE + 4_096, 4_096),
                    (LARGE + 8_192, 4_096),
                    (LARGE + 12_288, 4_096),
                    (SMALL, 1),
                ],
            ),
            (
                (PartOp::Append, b"k", b""),
                Ok(PartAnswer::Length(16_385)),
                NOTHING,
                &[
                    (LARGE, 4_096),
                    (LARGE + 4_096, 4_096),
                    (LARGE + 8_192, 4_096),
                    (LARGE + 12_288, 4_096),
                    (SMALL, 1),
                ],
            ),
        ],
        held: (1, 4),
    },
    Case {
        test: "the_longest_value",
        large: 17,
        rows: &[
            (
                (PartOp::Set, b"k", &[b'A'; 65_536]),
                DONE,
                NOTHING,
                &[
                    (LARGE, 4_096),
                    (LARGE + 4_096, 4_096),
                    (LARGE + 8_192, 4_096),
                    (LARGE + 12_288, 4_096),
                    (LARGE + 16_384, 4_096),
                    (LARGE + 20_480, 4_096),
                    (LARGE + 24_576, 4_096),
                    (LARGE + 28_672, 4_096),
                    (LARGE + 32_768, 4_096),
                    (LARGE + 36_864, 4_096),
                    (LARGE + 40_960, 4_096),
                    (LARGE + 45_056, 4_096),
                    (LARGE + 49_152, 4_096),
                    (LARGE + 53_248, 4_096),
                    (LARGE + 57_344, 4_096),
                    (LARGE + 61_440, 4_096),
                ],
            ),
            (
                (PartOp::Append, b"k", b"B"),
                Ok(PartAnswer::TooLong),
                NOTHING,
                &[],
            ),
        ],
        held: (0, 16),
    },
    // The fourth part finds no buffer, since the old value is still there when the new one is placed.
    Case {
        test: "no_buffer_leaves_all_as_it_was",
        large: 2,
        rows: &[
            (
                (PartOp::Set, b"a", &[b'A'; 4_096]),
                DONE,
                NOTHING,
                &[(LARGE, 4_096)],
            ),
            (
                (PartOp::Set, b"b", &[b'B'; 4_096]),
                DONE,
                NOTHING,
                &[(LARGE + 4_096, 4_096)],
            ),
            (
                (PartOp::Set, b"c", &[b'A'; 4_096]),
                NONE_OF_TWO,
                NOTHING,
                &[],
            ),
            (
                (PartOp::Set, b"a", &[b'B'; 4_096]),
                NONE_OF_TWO,
                NOTHING,
                &[],
            ),
            (
                (PartOp::Get, b"a", b""),
                BULK,
                (&[b'A'; 4_096], &[(LARGE, 0, 4_096, false)]),
                &[],
            ),
            (
                (PartOp::Append, b"a", b"x"),
                Ok(PartAnswer::Length(4_097)),
                NOTHING,
                &[(LARGE, 4_096), (SMALL, 1)],
            ),
        ],
        held: (1, 2),
    },
    // The taker gives back the hold that came with the old value, so its buffer is there for the fourth part.
    Case {
        test: "an_old_value_is_handed_over",
        large: 2,
        rows: &[
            (
                (PartOp::Set, b"k", &[b'A'; 600]),
                DONE,
                NOTHING,
                &[(LARGE, 600)],
            ),
            (
                (PartOp::SetGet, b"k", &[b'B'; 600]),
                BULK,
                (&[b'A'; 600], &[(LARGE, 0, 600, true)]),
                &[(LARGE + 4_096, 600)],
            ),
            (
                (PartOp::Get, b"k", b""),
                BULK,
                (&[b'B'; 600], &[(LARGE + 4_096, 0, 600, false)]),
                &[],
            ),
            (
                (PartOp::SetXxGet, b"k", &[b'C'; 600]),
                BULK,
                (&[b'B'; 600], &[(LARGE + 4_096, 0, 600, true)]),
                &[(LARGE, 600)],
            ),
            (
                (PartOp::SetNxGet, b"k", &[b'A'; 600]),
                BULK,
                (&[b'C'; 600], &[(LARGE, 0, 600, false)]),
                &[],
            ),
        ],
        held: (0, 1),
    },
];

// Does the parts in turn on an empty shard.
fn run_all<P: PoolName>(
    alloc: Global,
    blank: PoolBlank,
    rows: &[Row],
) -> Result<(Vec<Seen>, Held), Memory>
    requires name { (blank.table ≡ P.table) × (blank.sizes ≡ P.sizes) }
    requires credits { 2 < P.sizes.credits }
{
    let mut world = World::<P>::open(alloc, blank);
    let mut all = Vec::new(alloc);
    for ((op, key, value), _, _, _) in rows {
        if value.len() > VALUE_LIMIT {
            return Err(Memory);
        }
        all.push(world.run(alloc, *op, *key, *value)?)?;
    }
    Ok((all, world.close()))
}

fn run_named(alloc: Global, blank: PoolBlank, rows: &[Row]) -> Result<(Vec<Seen>, Held), Memory>
    requires { 2 < blank.sizes.credits }
{
    run_all::<Brand>(alloc, blank, rows)
}

// Does the parts in a pool of 8 small buffers and so many large ones, at most 64.
fn run_in(alloc: Global, large: u32, rows: &[Row]) -> Result<(Vec<Seen>, Held), Memory> {
    if large > 64 {
        return Err(Memory);
    }
    let Ok(blank) = PoolBlank::open(alloc, 8, large, 3) else {
        return Err(Memory);
    };
    run_named(alloc, blank, rows)
}

fn check_row(rt: &impl Abort, test: &str, seen: &Seen, row: &Row) {
    let (_, answer, (bytes, runs), stored) = row;
    equal(rt, test, seen.answer, *answer);
    holds(rt, test, seen.bytes.as_slice() == *bytes);
    equal(rt, test, seen.runs.as_slice(), *runs);
    equal(rt, test, seen.stored.as_slice(), *stored);
}

fn check_case(rt: &impl Abort, alloc: Global, case: &Case) -> Result<(), Fail> {
    let test = case.test;
    let (all, held) = run_in(alloc, case.large, case.rows)?;
    equal(rt, test, all.len(), case.rows.len());
    for (seen, row) in all.iter().zip(case.rows) {
        check_row(rt, test, seen, row);
    }
    equal(rt, test, (held.small, held.large), case.held);
    Ok(())
}

#[test]
fn parts_on_a_shard(rt: HostRuntime) -> Result<(), Fail> {
    for case in &CASES {
        check_case(&rt, rt.alloc(), case)?;
    }
    Ok(())
}
