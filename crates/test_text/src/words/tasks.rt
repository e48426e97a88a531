//! What words ask to serve, and to check.
use crate::checks::holds;
use crate::words::typing::{are_words, typed};
use command_line::{
    CheckTask, CommandName, DriveTask, ServeTask, SizeOptions, check_task, command_name,
    drive_task, serve_task,
};
use flake_base::Memory;
use std::alloc::Global;
use std::process::Abort;
use std::test::Fail;

/// The sizes of a command without options.
pub const USUAL: SizeOptions = SizeOptions {
    shards: 8,
    small: 4096,
    large: 1024,
    ring: 1160,
    threshold: 512,
};

/// Sizes, whether the journal is asked for, and lines: words, the files that they ask for, how many workers, and the
/// call before which a dump is taken, if one is.
static ACCEPTED: [(SizeOptions, bool, &str); 11] = [
    (
        USUAL,
        false,
        "serve|in.resp>in.resp>1\nserve|b|a|b>b|a|b>3\nserve|serve|-|>serve|-|>3\n\
         serve|--|--ring|--|none>--ring|--|none>3\nserve|--workers|1|a|b>a|b>1\nserve|a|--workers=16|b>a|b>16\n\
         serve|--|--journal>--journal>1",
    ),
    (
        USUAL,
        true,
        "serve|--journal|a>a>1\nserve|a|--journal|--workers|2>a>2",
    ),
    (
        USUAL,
        false,
        "serve|--dump|2|a>a>1>2\nserve|a|--dump=3|--workers|1|b>a|b>1>3\nserve|a|--dump|0>a>1>0\n\
         serve|--dump|4294967295|a>a>1>4294967295\nserve|--|--dump|2>--dump|2>2",
    ),
    (
        SizeOptions {
            shards: 1,
            small: 256,
            large: 1,
            ring: 4096,
            threshold: 1,
        },
        false,
        "serve|--ring|4096|a|--shards|1|b|--small|256|--large|1|--threshold|1>a|b>2",
    ),
    (
        SizeOptions {
            shards: 16,
            small: 65_536,
            large: 16_384,
            ring: 1160,
            threshold: 512,
        },
        false,
        "serve|a|--threshold=512|--ring=1160|--large=16384|--small=65536|--shards=16>a>1",
    ),
    (
        SizeOptions {
            ring: 1168,
            ..USUAL
        },
        false,
        "serve|--ring=1168|a>a>1",
    ),
    (
        SizeOptions {
            threshold: 10,
            ..USUAL
        },
        false,
        "serve|--threshold|10|a>a>1",
    ),
    (
        SizeOptions { large: 2, ..USUAL },
        false,
        "serve|--large|2|a>a>1",
    ),
    (
        SizeOptions {
            small: 128,
            ..USUAL
        },
        false,
        "serve|--small|128|a>a>1",
    ),
    (
        SizeOptions {
            shards: 16,
            ..USUAL
        },
        false,
        "serve|--shards|16|a>a>1",
    ),
    (
        SizeOptions {
            small: 2048,
            ..USUAL
        },
        false,
        "serve|a|b|c|d|e|f|g|h|i|j|k|l|m|n|o|p|--small|2048>a|b|c|d|e|f|g|h|i|j|k|l|m|n|o|p>16",
    ),
];

/// Words that ask for nothing, a line each.
const REFUSED: &str = "\n\
serve
in.resp
SERVE|a
serve |a
a|serve
drive|a
serve|--
serve|--help
serve|a|-h
serve|a|--version
serve|a|-V
serve|a|-r
serve|--rings|1160|a
serve|--rin|1160|a
serve|-ring|1160|a
serve|--Ring|1160|a
serve|--sessions|1|a
serve|--ring|1152|a
serve|--ring|1161|a
serve|--ring|4104|a
serve|--ring|a
serve|a|--ring
serve|a|--ring=
serve|--ring|--shards|1|a
serve|--ring|1160|--ring|1160|a
serve|--threshold|0|a
serve|--threshold|513|a
serve|--small|127|a
serve|--small|+128|a
serve|--small|0128|a
serve|--small|-128|a
serve|--small=-128|a
serve|--small|65537|a
serve|--small|255|a|b
serve|--small|128|a|b
serve|--shards|0|a
serve|--shards|17|a
serve|--large|0|a
serve|--large|16385|a
serve|--large|18446744073709551617|a
serve|--workers|0|a
serve|--workers|17|a
serve|--workers|01|a
serve|--workers=|a
serve|--worker|1|a
serve|--journal
serve|--journal=true|a
serve|--journal|--journal|a
serve|--dump|2
serve|a|--dump
serve|--dump||a
serve|--dump=|a
serve|--dump|b|a
serve|--dump|4294967296|a
serve|--dump|18446744073709551618|a
serve|--dump|+5|a
serve|--dump|007|a
serve|--dump|00|a
serve|--dump|-0|a
serve|--dump=-0|a
serve|--dump|0x2|a
serve|--dump|2|--dump|2|a
serve|--dumps|2|a
check|a|b|c
serve|--workers|1|--workers|1|a
serve|a|b|c|d|e|f|g|h|i|j|k|l|m|n|o|p|q";

// The only call of `serve_task`. It has no clauses, so that no assertion carries those of `serve_task`.
fn asked<'a>(alloc: Global, words: &'a [String]) -> Result<Option<ServeTask<'a>>, Memory> {
    serve_task(alloc, words)
}

fn check_accepted(
    rt: &impl Abort,
    alloc: Global,
    sizes: SizeOptions,
    journal: bool,
    line: &str,
) -> Result<(), Fail> {
    let mut columns = line.split('>');
    let words = typed(alloc, columns.next().unwrap_or(""))?;
    let task = asked(alloc, words.as_slice())?.ok_or("refused")?;
    holds(rt, line, task.sizes == sizes);
    holds(rt, line, task.journal == journal);
    holds(
        rt,
        line,
        are_words(task.files.as_slice(), columns.next().unwrap_or("")),
    );
    let workers = columns.next().unwrap_or("").parse::<u16>()?;
    holds(rt, line, task.workers == workers);
    let dump = match columns.next() {
        Some(call) => Some(call.parse::<u32>()?),
        None => None,
    };
    holds(rt, line, task.dump == dump);
    Ok(())
}

#[test]
fn words_that_ask_for_a_task(rt: HostRuntime) -> Result<(), Fail> {
    for (sizes, journal, lines) in &ACCEPTED {
        for line in lines.split('\n') {
            check_accepted(&rt, rt.alloc(), *sizes, *journal, line)?;
        }
    }
    Ok(())
}

#[test]
fn bad_words(rt: HostRuntime) -> Result<(), Fail> {
    holds(&rt, "no words", asked(rt.alloc(), &[])?.is_none());
    for line in REFUSED.split('\n') {
        let words = typed(rt.alloc(), line)?;
        let task = asked(rt.alloc(), words.as_slice())?;
        holds(&rt, line, task.is_none());
    }
    Ok(())
}

/// Words of `check`, and the files that they ask for, with `~` for none.
const CHECKS: &str = "\
check|j|i|r>j|i|r
check|none|none|none>none|none|~
check|j|i|None|none|none>j|i|None|none|~
check|--|--journal|i|none>--journal|i|~
check|j|a|a|b|b|c|c|d|d|e|e|f|f|g|g|h|h|i|i|j|j|k|k|l|l|m|m|n|n|o|o|p|none\
>j|a|a|b|b|c|c|d|d|e|e|f|f|g|g|h|h|i|i|j|j|k|k|l|l|m|m|n|n|o|o|p|~";

/// No pair, half a pair, options, and 17 pairs.
const NO_CHECKS: &str = "\
check
check|j
check|j|i
check|j|i|r|i
check|--journal|j|i|r
check|--dump|2|j|i|r
check|j|a|a|b|b|c|c|d|d|e|e|f|f|g|g|h|h|i|i|j|j|k|k|l|l|m|m|n|n|o|o|p|p|q|q";

// The only call of `check_task`, which has no clauses.
fn asked_check<'a>(alloc: Global, words: &'a [String]) -> Result<Option<CheckTask<'a>>, Memory> {
    check_task(alloc, words)
}

fn check_files(rt: &impl Abort, alloc: Global, line: &str) -> Result<(), Fail> {
    let (words, files) = line.split_once('>').ok_or("no files")?;
    let words = typed(alloc, words)?;
    let task = asked_check(alloc, words.as_slice())?.ok_or("refused")?;
    let mut found = Vec::new(alloc);
    for file in task.files.iter() {
        found.push(file.unwrap_or("~"))?;
    }
    holds(rt, line, are_words(found.as_slice(), files));
    Ok(())
}

#[test]
fn words_that_ask_for_a_check(rt: HostRuntime) -> Result<(), Fail> {
    for line in CHECKS.split('\n') {
        check_files(&rt, rt.alloc(), line)?;
    }
    Ok(())
}

#[test]
fn bad_words_of_a_check(rt: HostRuntime) -> Result<(), Fail> {
    for line in NO_CHECKS.split('\n') {
        let words = typed(rt.alloc(), line)?;
        let task = asked_check(rt.alloc(), words.as_slice())?;
        holds(&rt, line, task.is_none());
    }
    Ok(())
}

/// No file, and options that `serve` alone has.
const NO_DRIVES: &str = "\
drive
drive|s
drive|--dump|2|s|a
drive|--journal|s|a
drive|--workers|1|s|a";

// The only call of `drive_task`, which has no clauses.
fn asked_drive<'a>(alloc: Global, words: &'a [String]) -> Result<Option<DriveTask<'a>>, Memory> {
    drive_task(alloc, words)
}

#[test]
fn bad_words_of_a_drive(rt: HostRuntime) -> Result<(), Fail> {
    for line in NO_DRIVES.split('\n') {
        let words = typed(rt.alloc(), line)?;
        let task = asked_drive(rt.alloc(), words.as_slice())?;
        holds(&rt, line, task.is_none());
    }
    Ok(())
}

/// First words, and the commands that they name.
static NAMES: [(&str, CommandName); 11] = [
    ("check|j", CommandName::Check),
    ("serve|check", CommandName::Serve),
    ("gen|7", CommandName::Gen),
    ("join|64", CommandName::Join),
    ("drive|s", CommandName::Drive),
    ("frames|64", CommandName::Frames),
    ("Frames", CommandName::Serve),
    ("frame", CommandName::Serve),
    ("Gen", CommandName::Serve),
    ("Check", CommandName::Serve),
    ("checks", CommandName::Serve),
];

#[test]
fn names_of_commands(rt: HostRuntime) -> Result<(), Fail> {
    holds(&rt, "no words", command_name(&[]) == CommandName::Serve);
    for (line, name) in &NAMES {
        let words = typed(rt.alloc(), line)?;
        holds(&rt, line, command_name(words.as_slice()) == *name);
    }
    Ok(())
}
