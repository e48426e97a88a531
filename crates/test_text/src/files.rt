use crate::checks::equal;
use check_files::{CheckError, File, check_files, check_named, read_whole};
use flake_base::{Bytes, Fails, Files, MemoryHost, MemorySource};
use replay_check::Verdict;
use std::alloc::Global;
use std::process::Abort;
use std::test::Fail;

#[test]
fn at_the_limit(rt: HostRuntime) -> Result<(), Fail> {
    let alloc = rt.alloc();
    for (limit, whole) in [(0, false), (8, false), (9, true), (10, true)] {
        let bytes = Bytes::from_slice(alloc, b"shards 8\n")?;
        let mut source = MemorySource::new(bytes, 4, Fails::new(alloc));
        let read = read_whole(alloc, &mut source, limit);
        equal(&rt, "it is read", read.is_ok(), whole);
    }
    Ok(())
}

/// A SET and a GET of one key.
const PAIR: &[u8] = b"*3\r\n$3\r\nSET\r\n$1\r\na\r\n$1\r\n1\r\n*2\r\n$3\r\nGET\r\n$1\r\na\r\n";

/// Files, one of which is perhaps not there or has a read that fails, and what they come to.
#[derive(Clone, Copy)]
struct Row {
    journal: &'static [u8],
    input: &'static [u8],
    replies: Option<&'static [u8]>,
    /// The number of a file, and of the read of it that fails.
    fault: Option<(usize, u64)>,
    answer: Result<Verdict, CheckError>,
}

const SAME: Row = Row {
    journal: b"shards 8\n4 0 0 0\n4 0 1 0\n",
    input: PAIR,
    replies: Some(b"+OK\r\n$1\r\n1\r\n"),
    fault: None,
    answer: Ok(Verdict::Same),
};

static ROWS: [Row; 12] = [
    SAME,
    Row {
        journal: b"shards 1\n0 0 0 0\n0 0 1 0",
        ..SAME
    },
    Row {
        replies: Some(b"+OK\r\n$1\r\n2\r\n"),
        answer: Ok(Verdict::Differs {
            session: 0,
            place: 9,
            expected: Some(49),
            found: Some(50),
        }),
        ..SAME
    },
    Row {
        replies: Some(b"+OK\r\n$1\r\n1\r"),
        answer: Ok(Verdict::Differs {
            session: 0,
            place: 11,
            expected: Some(10),
            found: None,
        }),
        ..SAME
    },
    Row {
        replies: None,
        answer: Ok(Verdict::Differs {
            session: 0,
            place: 0,
            expected: Some(43),
            found: None,
        }),
        ..SAME
    },
    Row {
        journal: b"shards 8\n",
        input: b"",
        replies: None,
        ..SAME
    },
    Row {
        journal: b"shards 8\n4 0 1 0\n4 0 0 0\n",
        replies: None,
        answer: Ok(Verdict::BadJournal { shard: 4, place: 1 }),
        ..SAME
    },
    Row {
        journal: b"shards 08\n",
        answer: Err(CheckError::BadLine { line: 1 }),
        ..SAME
    },
    Row {
        journal: b"",
        answer: Err(CheckError::BadLine { line: 1 }),
        ..SAME
    },
    Row {
        fault: Some((0, 1)),
        answer: Err(CheckError::ReadFault { file: 0 }),
        ..SAME
    },
    Row {
        journal: b"",
        fault: Some((1, 0)),
        answer: Err(CheckError::ReadFault { file: 1 }),
        ..SAME
    },
    // the read of the end
    Row {
        fault: Some((2, 2)),
        answer: Err(CheckError::ReadFault { file: 2 }),
        ..SAME
    },
];

fn file_of(
    alloc: Global,
    bytes: Option<&[u8]>,
    number: usize,
    fault: Option<(usize, u64)>,
) -> Result<File<MemorySource>, Fail> {
    let Some(bytes) = bytes else {
        return Ok(File::Absent);
    };
    let mut fails = Fails::with_room(alloc, 1)?;
    if let Some((file, read)) = fault {
        if file == number {
            fails.push(read)?;
        }
    }
    let bytes = Bytes::from_slice(alloc, bytes)?;
    Ok(File::Opened(MemorySource::new(bytes, 7, fails)))
}

// The only call of `check_files`. It has no clauses, so that no assertion carries those of `check_files`.
fn checked(alloc: Global, row: &Row) -> Result<Result<Verdict, CheckError>, Fail> {
    let mut files = vec![in alloc;
        file_of(alloc, Some(row.journal), 0, row.fault)?,
        file_of(alloc, Some(row.input), 1, row.fault)?,
        file_of(alloc, row.replies, 2, row.fault)?,
    ]?;
    Ok(check_files(alloc, files.as_mut_slice()))
}

fn check_row(rt: &impl Abort, alloc: Global, row: &Row) -> Result<(), Fail> {
    equal(rt, "the verdict", checked(alloc, row)?, row.answer);
    Ok(())
}

#[test]
fn verdicts(rt: HostRuntime) -> Result<(), Fail> {
    for row in &ROWS {
        check_row(&rt, rt.alloc(), row)?;
    }
    Ok(())
}

/// Names of files, what they come to, and how many are opened and how often.
#[derive(Clone, Copy)]
struct Names {
    names: &'static [Option<&'static str>],
    answer: Result<Verdict, CheckError>,
    files: usize,
    opens: u64,
}

static NAMES: [Names; 5] = [
    Names {
        names: &[Some("j"), Some("i"), Some("r")],
        answer: Ok(Verdict::Same),
        files: 3,
        opens: 3,
    },
    Names {
        names: &[Some("j"), Some("i"), None],
        answer: Ok(Verdict::Differs {
            session: 0,
            place: 0,
            expected: Some(43),
            found: None,
        }),
        files: 3,
        opens: 2,
    },
    Names {
        names: &[Some("missing"), Some("i"), Some("r")],
        answer: Err(CheckError::OpenFault { file: 0 }),
        files: 0,
        opens: 1,
    },
    Names {
        names: &[Some("j"), Some("i"), None, Some("missing"), Some("r")],
        answer: Err(CheckError::OpenFault { file: 3 }),
        files: 3,
        opens: 3,
    },
    // a file that was opened before
    Names {
        names: &[Some("j"), Some("i"), Some("j")],
        answer: Err(CheckError::OpenFault { file: 2 }),
        files: 2,
        opens: 3,
    },
];

fn host_of(alloc: Global, row: &Row) -> Result<MemoryHost, Fail> {
    let mut files = Files::with_room(alloc, 3)?;
    for (name, bytes) in [
        ("j", row.journal),
        ("i", row.input),
        ("r", row.replies.unwrap_or(b"")),
    ] {
        files.push((
            String::from_str(alloc, name)?,
            Bytes::from_slice(alloc, bytes)?,
        ))?;
    }
    Ok(MemoryHost::new(alloc, files, 0, Fails::new(alloc))?)
}

// The only call of `check_named`, which has no clauses.
fn named(
    alloc: Global,
    host: &mut MemoryHost,
    names: &Names,
) -> Result<(Result<Verdict, CheckError>, usize), Fail> {
    let count = names.names.len();
    if count > 33 || count % 2 != 1 {
        return Err("the names are no journal and pairs".into());
    }
    let room = Vec::with_capacity(alloc, count)?;
    let (answer, files) = check_named(alloc, host, names.names, room);
    Ok((answer, files.len()))
}

fn check_names(rt: &impl Abort, alloc: Global, names: &Names) -> Result<(), Fail> {
    let mut host = host_of(alloc, &SAME)?;
    let (answer, files) = named(alloc, &mut host, names)?;
    equal(rt, "the verdict", answer, names.answer);
    equal(rt, "files", files, names.files);
    equal(rt, "opens", host.opens(), names.opens);
    Ok(())
}

#[test]
fn files_by_name(rt: HostRuntime) -> Result<(), Fail> {
    for names in &NAMES {
        check_names(&rt, rt.alloc(), names)?;
    }
    Ok(())
}
