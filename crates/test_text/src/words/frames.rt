//! What words ask to serve in frames.
use crate::checks::holds;
use crate::words::tasks::USUAL;
use crate::words::typing::{are_words, typed};
use command_line::{FramesTask, SizeOptions, frames_task};
use flake_base::Memory;
use std::alloc::Global;
use std::process::Abort;
use std::test::Fail;

/// Words, and what they ask for: the most bytes of a frame, the files, the sizes, and how many workers.
static ACCEPTED: [(&str, u16, &str, SizeOptions, u16); 16] = [
    ("frames|64|a", 64, "a", USUAL, 1),
    ("frames|9216|a|b", 9216, "a|b", USUAL, 2),
    ("frames|--|64|--journal", 64, "--journal", USUAL, 1),
    ("frames|64|--|--dump|2", 64, "--dump|2", USUAL, 2),
    ("frames|1500|64|9217", 1500, "64|9217", USUAL, 2),
    ("frames|65|-", 65, "-", USUAL, 1),
    ("frames|65|", 65, "", USUAL, 1),
    ("frames|100|frames", 100, "frames", USUAL, 1),
    ("frames|64|--workers|2|a|b", 64, "a|b", USUAL, 2),
    ("frames|--workers=16|64|a", 64, "a", USUAL, 16),
    ("frames|64|a|b|--workers|1", 64, "a|b", USUAL, 1),
    (
        "frames|--shards|1|64|a",
        64,
        "a",
        SizeOptions { shards: 1, ..USUAL },
        1,
    ),
    (
        "frames|--ring|4096|100|--small|256|a|--large|2|b|--threshold|3",
        100,
        "a|b",
        SizeOptions {
            shards: 8,
            small: 256,
            large: 2,
            ring: 4096,
            threshold: 3,
        },
        2,
    ),
    (
        "frames|64|a|--small|128",
        64,
        "a",
        SizeOptions {
            small: 128,
            ..USUAL
        },
        1,
    ),
    (
        "frames|9215|a|b|c|d|e|f|g|h|i|j|k|l|m|n|o|p",
        9215,
        "a|b|c|d|e|f|g|h|i|j|k|l|m|n|o|p",
        USUAL,
        16,
    ),
    (
        "frames|--small|2048|64|a|b|c|d|e|f|g|h|i|j|k|l|m|n|o|p",
        64,
        "a|b|c|d|e|f|g|h|i|j|k|l|m|n|o|p",
        SizeOptions {
            small: 2048,
            ..USUAL
        },
        16,
    ),
];

/// Numbers out of range or that aren't plain, no file, too many, other commands, options that `frames` hasn't, and
/// sizes that don't fit.
const REFUSED: &str = "\
frames
frames|64
frames|--|64
frames|a
frames|a|64
Frames|64|a
frame|64|a
serve|64|a
join|64|a
64|a
frames|63|a
frames|9217|a
frames|0|a
frames|064|a
frames|+64|a
frames|-64|a
frames|--|-64|a
frames||a
frames|64a|a
frames|0x40|a
frames|65600|a
frames|4294967360|a
frames|18446744073709551680|a
frames|--journal|64|a
frames|64|a|--journal
frames|--dump|0|64|a
frames|64|--dump|0|a
frames|64|a|--dump=0
frames|--help|64|a
frames|64|a|-h
frames|--version|64|a
frames|--mtu|64|a
frames|--shards|64|a
frames|64|a|--shards
frames|--shards|0|64|a
frames|--ring|1161|64|a
frames|--large|0|64|a
frames|--threshold|513|64|a
frames|--workers|0|64|a
frames|--workers|17|64|a
frames|--workers|2|--workers|2|64|a
frames|--small|127|64|a
frames|--small|255|64|a|b
frames|64|a|b|--small=128
frames|--small|2047|64|a|b|c|d|e|f|g|h|i|j|k|l|m|n|o|p
frames|64|a|b|c|d|e|f|g|h|i|j|k|l|m|n|o|p|q
frames|--small|65536|64|a|b|c|d|e|f|g|h|i|j|k|l|m|n|o|p|q";

// The only call of `frames_task`. It has no clauses, so that no assertion carries those of `frames_task`.
fn asked<'a>(alloc: Global, words: &'a [String]) -> Result<Option<FramesTask<'a>>, Memory> {
    frames_task(alloc, words)
}

fn check_accepted(
    rt: &impl Abort,
    alloc: Global,
    line: &str,
    numbers: (u16, u16),
    files: &str,
    sizes: SizeOptions,
) -> Result<(), Fail> {
    let words = typed(alloc, line)?;
    let task = asked(alloc, words.as_slice())?.ok_or("refused")?;
    holds(rt, line, (task.mtu, task.workers) == numbers);
    holds(rt, line, are_words(task.files.as_slice(), files));
    holds(rt, line, task.sizes == sizes);
    Ok(())
}

#[test]
fn words_that_ask_for_frames(rt: HostRuntime) -> Result<(), Fail> {
    for (line, mtu, files, sizes, workers) in &ACCEPTED {
        check_accepted(&rt, rt.alloc(), line, (*mtu, *workers), files, *sizes)?;
    }
    Ok(())
}

#[test]
fn bad_words_of_frames(rt: HostRuntime) -> Result<(), Fail> {
    holds(&rt, "no words", asked(rt.alloc(), &[])?.is_none());
    for line in REFUSED.split('\n') {
        let words = typed(rt.alloc(), line)?;
        let task = asked(rt.alloc(), words.as_slice())?;
        holds(&rt, line, task.is_none());
    }
    Ok(())
}
