// Each report, in a room that is taken ahead.
use flake_base::{End, Entry, Failed, Fails, Files, Journal, MemoryHost, Sequence, SessionEnd};
use pin_core::Held;
use report_text::{DumpLine, REPORT_ROOM, put_summary, put_total, say_journal};
use std::alloc::Global;
use std::process::Abort;
use std::test::Fail;

const HELD: Held = Held { small: 3, large: 4 };

#[test]
fn summary(rt: HostRuntime) -> Result<(), Fail> {
    let mut text = Vec::with_capacity(rt.alloc(), REPORT_ROOM)?;
    let clean = SessionEnd {
        end: End::Clean,
        taken: 47,
        replies: 2,
        failed: false,
    };
    let refused = SessionEnd {
        end: End::Protocol { kind: 2, place: 14 },
        taken: 15,
        replies: 1,
        failed: true,
    };
    put_summary(&mut text, &[clean, refused], DumpLine::Unasked, HELD);
    let said: &[u8] = b"session 0 clean taken 47 replies 2 wire whole\n\
        session 1 protocol 2 at 14 taken 15 replies 1 wire failed\nheld 3 4\n";
    assert_eq!(&rt; text.as_slice(), said);
    Ok(())
}

// The summary of one session, and of such a dump.
fn expect_dump(rt: &impl Abort, alloc: Global, dump: DumpLine, line: &[u8]) -> Result<(), Fail> {
    let mut text = Vec::with_capacity(alloc, REPORT_ROOM)?;
    let clean = SessionEnd {
        end: End::Clean,
        taken: 81,
        replies: 3,
        failed: false,
    };
    put_summary(&mut text, &[clean], dump, HELD);
    let mut said = Vec::new(alloc);
    said.extend_from_slice(b"session 0 clean taken 81 replies 3 wire whole\n")?;
    said.extend_from_slice(line)?;
    said.extend_from_slice(b"held 3 4\n")?;
    assert_eq!(rt; text.as_slice(), said.as_slice());
    Ok(())
}

#[test]
fn dumps(rt: HostRuntime) -> Result<(), Fail> {
    let alloc = rt.alloc();
    let whole = DumpLine::Written {
        bytes: 54,
        failed: false,
    };
    let longest = DumpLine::Written {
        bytes: u64::MAX,
        failed: true,
    };
    expect_dump(&rt, alloc, DumpLine::Unasked, b"")?;
    expect_dump(&rt, alloc, DumpLine::Untaken, b"dump none\n")?;
    expect_dump(&rt, alloc, whole, b"dump bytes 54 wire whole\n")?;
    expect_dump(
        &rt,
        alloc,
        longest,
        b"dump bytes 18446744073709551615 wire failed\n",
    )
}

#[test]
fn total(rt: HostRuntime) -> Result<(), Fail> {
    let mut text = Vec::with_capacity(rt.alloc(), REPORT_ROOM)?;
    put_total(&mut text, 12, 345, HELD);
    let said: &[u8] = b"requests 12 bytes 345 held 3 4\n";
    assert_eq!(&rt; text.as_slice(), said);
    Ok(())
}

// So many entries of one shard.
fn journal_of(alloc: Global, entries: u64) -> Result<Journal, Fail> {
    let mut history = Sequence::new(alloc);
    for _ in 0..entries {
        history.push(Entry {
            session: 1,
            call: 2,
            part: 3,
        })?;
    }
    let mut journal = Journal::new(alloc);
    journal.push(history)?;
    Ok(journal)
}

// What is said of a journal of 600 entries, of whose says these fail.
fn expect_said(
    rt: &impl Abort,
    alloc: Global,
    fails: Fails,
    failed: bool,
    said: usize,
) -> Result<(), Fail> {
    let mut host = MemoryHost::new(alloc, Files::new(alloc), 8192, fails)?;
    let mut room = Vec::with_capacity(alloc, REPORT_ROOM)?;
    let journal = journal_of(alloc, 600)?;
    let is_failed = say_journal(&mut host, &mut room, &journal) == Err(Failed);
    assert_eq!(rt; is_failed, failed);
    let mut text = Vec::new(alloc);
    text.extend_from_slice(b"shards 1\n")?;
    for _ in 0..600 {
        text.extend_from_slice(b"0 1 2 3\n")?;
    }
    text.truncate(said);
    assert_eq!(rt; host.said(), text.as_slice());
    Ok(())
}

/// A line has 8 bytes, and the head 9. The first piece is said when a line of 84 bytes might not fit any more: it has
/// 501 lines. The second one has 99; where its say fails, half of it is kept.
#[test]
fn journals(rt: HostRuntime) -> Result<(), Fail> {
    let alloc = rt.alloc();
    expect_said(&rt, alloc, Fails::new(alloc), false, 4809)?;
    let mut fails = Fails::new(alloc);
    fails.push(0)?;
    expect_said(&rt, alloc, fails, true, 2008)?;
    let mut fails = Fails::new(alloc);
    fails.push(1)?;
    expect_said(&rt, alloc, fails, true, 4017 + 396)
}
