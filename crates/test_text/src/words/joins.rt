//! What words ask to join.
use crate::checks::holds;
use crate::words::typing::typed;
use command_line::{JoinTask, join_task};
use flake_base::Memory;
use std::alloc::Global;
use std::process::Abort;
use std::test::Fail;

/// Words, and what they ask for: the most bytes of a frame, the number of calls, and the file.
static ACCEPTED: [(&str, u16, u32, &str); 6] = [
    ("join|64|2|f", 64, 2, "f"),
    ("join|9216|0|join", 9216, 0, "join"),
    ("join|65|4294967295|-", 65, 4_294_967_295, "-"),
    ("join|--|64|2|--journal", 64, 2, "--journal"),
    ("join|64|--|2|f", 64, 2, "f"),
    ("join|64|2|64", 64, 2, "64"),
];

/// Numbers out of range or that aren't plain, another number of words, options, and another command.
const REFUSED: &str = "\
join
join|64
join|64|2
join|64|2|f|g
join|63|2|f
join|9217|2|f
join|064|2|f
join|+64|2|f
join|-64|2|f
join|0x40|2|f
join||2|f
join|64||f
join|64|02|f
join|64|-1|f
join|64|4294967296|f
join|64|18446744073709551618|f
join|f|64|2
join|64|f|2
join|--ring|1160|64|2|f
join|--dump|2|64|2|f
join|64|2|f|--journal
join|--help|64|2|f
Join|64|2|f
joins|64|2|f
check|64|2|f";

// The only call of `join_task`. It has no clauses, so that no assertion carries those of `join_task`.
fn asked<'a>(alloc: Global, words: &'a [String]) -> Result<Option<JoinTask<'a>>, Memory> {
    join_task(alloc, words)
}

fn check_accepted(
    rt: &impl Abort,
    alloc: Global,
    line: &str,
    numbers: (u16, u32),
    file: &str,
) -> Result<(), Fail> {
    let words = typed(alloc, line)?;
    let task = asked(alloc, words.as_slice())?.ok_or("refused")?;
    holds(rt, line, (task.mtu, task.calls) == numbers);
    holds(rt, line, task.file == file);
    Ok(())
}

#[test]
fn words_that_ask_to_join(rt: HostRuntime) -> Result<(), Fail> {
    for (line, mtu, calls, file) in &ACCEPTED {
        check_accepted(&rt, rt.alloc(), line, (*mtu, *calls), file)?;
    }
    Ok(())
}

#[test]
fn bad_words_of_a_join(rt: HostRuntime) -> Result<(), Fail> {
    for line in REFUSED.split('\n') {
        let words = typed(rt.alloc(), line)?;
        let task = asked(rt.alloc(), words.as_slice())?;
        holds(&rt, line, task.is_none());
    }
    Ok(())
}
