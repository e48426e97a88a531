use crate::checks::{equal, holds};
use flake_base::{Entry, Journal, Sequence};
use journal_text::{JournalError, journal_text, read_journal};
use std::alloc::Global;
use std::test::Fail;

fn entry(session: u16, call: u32, part: u16) -> Entry {
    Entry {
        session,
        call,
        part,
    }
}

fn shard(journal: &Journal, shard: usize) -> Option<&Sequence<Entry>> {
    if shard < journal.len() {
        Some(journal.get(shard))
    } else {
        None
    }
}

#[test]
fn a_journal_is_read(rt: HostRuntime) -> Result<(), Fail> {
    let journal = read_journal(rt.alloc(), b"shards 8\n4 0 0 0\n4 0 1 0\n")?;
    equal(&rt, "shards", journal.len(), 8);
    let expected = [entry(0, 0, 0), entry(0, 1, 0)];
    equal(
        &rt,
        "shard 4",
        shard(&journal, 4).ok_or("fewer shards")?.as_slice(),
        expected.as_slice(),
    );
    for other in [0, 1, 2, 3, 5, 6, 7] {
        holds(
            &rt,
            "another shard",
            shard(&journal, other).ok_or("fewer shards")?.is_empty(),
        );
    }
    Ok(())
}

#[test]
fn the_largest_numbers_are_read(rt: HostRuntime) -> Result<(), Fail> {
    let journal = read_journal(rt.alloc(), b"shards 16\n15 15 4294967295 63")?;
    equal(&rt, "shards", journal.len(), 16);
    let expected = [entry(15, 4_294_967_295, 63)];
    equal(
        &rt,
        "shard 15",
        shard(&journal, 15).ok_or("fewer shards")?.as_slice(),
        expected.as_slice(),
    );
    Ok(())
}

static TEXTS: [&[u8]; 7] = [
    b"shards 8\n",
    b"shards 1\n",
    b"shards 8\n4 0 0 0\n4 0 1 0\n",
    b"shards 8\n4 0 0 0\n4 0 1 0\n4 0 1 1\n5 0 2 0\n5 0 3 0\n5 0 3 1\n",
    b"shards 8\n4 0 0 0\n4 0 1 0\n4 0 2 0\n4 0 5 0\n5 0 3 0\n5 0 4 0\n",
    b"shards 8\n4 1 0 0\n4 0 0 0\n",
    b"shards 16\n0 0 10 0\n0 10 9 63\n7 1 4294967295 0\n15 15 100 10\n15 0 0 0\n",
];

#[test]
fn what_was_read_is_written_again(rt: HostRuntime) -> Result<(), Fail> {
    for text in TEXTS {
        let journal = read_journal(rt.alloc(), text)?;
        let written = journal_text(rt.alloc(), &journal)?;
        equal(&rt, "the text", written.as_slice(), text);
        let cut = text.len().saturating_sub(1);
        let same = read_journal(rt.alloc(), &text[..cut])?;
        let again = journal_text(rt.alloc(), &same)?;
        equal(&rt, "without the last LF", again.as_slice(), text);
    }
    Ok(())
}

/// Texts whose first line is bad, and those whose second is; `/` is between two.
static BAD_LINES: [(u64, &str); 4] = [
    (
        1,
        "/\n/\nshards 8\n/shards/shards \n/shards 0\n/shards 17\n/shards 08\n/shards 8 \n/shards  8\n/ shards 8\n/\
         shards\t8\n/shards 8\r\n/Shards 8\n/shards +8\n/shards 18446744073709551617\n/4 0 0 0\n",
    ),
    (
        2,
        "shards 8\n\n/shards 8\nshards 8\n/shards 8\n8 0 0 0\n/shards 8\n16 0 0 0\n/shards 8\n4 16 0 0\n/\
         shards 8\n4 0 4294967296 0\n/shards 8\n4 0 18446744073709551616 0\n/shards 8\n4 0 0 64\n/\
         shards 8\n4 0 0\n/shards 8\n4 0 0 \n/shards 8\n4 0 0 0 0\n/shards 8\n04 0 0 0\n/shards 8\n4 00 0 0\n/\
         shards 8\n4 0 01 0\n/shards 8\n4 0 0 00\n/shards 8\n4 0 0 -1\n/shards 8\n4\t0 0 0\n/\
         shards 8\n4  0 0 0\n/shards 8\n 4 0 0 0\n/shards 8\n4 0 0 0 \n/shards 8\n4 0 0 0\r\n/\
         shards 8\n4 0 0 a\n",
    ),
    (3, "shards 8\n5 0 0 0\n4 0 0 0\n"),
    (4, "shards 8\n4 0 0 0\n4 0 1 0\n\n3 0 2 0\n"),
];

// Which line is bad. It has no clauses, so that no assertion carries those of `read_journal`.
fn bad_line(alloc: Global, text: &[u8]) -> Option<u64> {
    match read_journal(alloc, text) {
        Err(JournalError::BadLine { line }) => Some(line),
        _ => None,
    }
}

#[test]
fn bad_lines_are_named(rt: HostRuntime) {
    for (line, texts) in &BAD_LINES {
        for text in texts.split('/') {
            equal(
                &rt,
                text,
                bad_line(rt.alloc(), text.as_bytes()),
                Some(*line),
            );
        }
    }
}
