//! What words ask `gen` for.
use crate::checks::holds;
use crate::words::typing::typed;
use command_line::{GenTask, gen_task};
use flake_base::Memory;
use std::alloc::Global;
use std::test::Fail;

/// What 7 alone asks for.
const SEVEN: GenTask = GenTask {
    number: 7,
    sessions: 4,
    requests: 1000,
    workers: 4,
};

/// Words, and the task that they ask for.
static ACCEPTED: [(&str, GenTask); 8] = [
    ("gen|7", SEVEN),
    ("gen|--|7", SEVEN),
    (
        "gen|--workers|1|7",
        GenTask {
            workers: 1,
            ..SEVEN
        },
    ),
    (
        "gen|0|--sessions|1|--requests|34",
        GenTask {
            number: 0,
            sessions: 1,
            requests: 34,
            workers: 1,
        },
    ),
    (
        "gen|--sessions=16|4294967295|--requests=4000",
        GenTask {
            number: u32::MAX,
            sessions: 16,
            requests: 4000,
            workers: 16,
        },
    ),
    (
        "gen|--requests|1|7",
        GenTask {
            requests: 1,
            ..SEVEN
        },
    ),
    (
        "gen|--sessions|5|7",
        GenTask {
            sessions: 5,
            workers: 5,
            ..SEVEN
        },
    ),
    (
        "gen|7|--workers=16",
        GenTask {
            workers: 16,
            ..SEVEN
        },
    ),
];

/// Words that ask for nothing, a line each.
const REFUSED: &str = "\
gen
7
7|gen
GEN|7
serve|7
gen|--
gen|7|8
gen|07
gen|+7
gen|-7
gen|--|-7
gen|7a
gen|
gen|4294967296
gen|18446744073709551616
gen|7|--sessions|0
gen|7|--sessions|17
gen|7|--sessions|04
gen|7|--requests|0
gen|7|--requests|4001
gen|7|--workers|0
gen|7|--workers|17
gen|7|--sessions
gen|7|--sessions|4|--sessions|4
gen|7|--shards|8
gen|7|--dump|2
gen|7|--help
gen|--session|4|7";

// The only call of `gen_task`. It has no clauses, so that no assertion carries those of `gen_task`.
fn asked(alloc: Global, words: &[String]) -> Result<Option<GenTask>, Memory> {
    gen_task(alloc, words)
}

#[test]
fn words_that_ask_for_a_task(rt: HostRuntime) -> Result<(), Fail> {
    for (line, wanted) in &ACCEPTED {
        let words = typed(rt.alloc(), line)?;
        let task = asked(rt.alloc(), words.as_slice())?;
        holds(&rt, line, task == Some(*wanted));
    }
    Ok(())
}

#[test]
fn bad_words(rt: HostRuntime) -> Result<(), Fail> {
    holds(&rt, "no words", asked(rt.alloc(), &[])?.is_none());
    for line in REFUSED.split('\n') {
        let words = typed(rt.alloc(), line)?;
        let task = asked(rt.alloc(), words.as_slice())?;
        holds(&rt, line, task.is_none());
    }
    Ok(())
}
