use crate::checks::equal;
use flake_base::{Bytes, Entry, Inputs, Journal, Memory, Sequence, Texts};
use journal_text::read_journal;
use replay_check::{AnswerError, Verdict, answers, check};
use shard_part::shard_of;
use std::alloc::Global;
use std::process::Abort;
use std::test::Fail;

/// The words of a request.
type Request = &'static [&'static [u8]];

/// The requests of each session, a journal's text, and the texts that it gives.
struct Row {
    sessions: &'static [&'static [Request]],
    journal: &'static [u8],
    texts: &'static [&'static [u8]],
}

const SET_GET: &[Request] = &[&[b"SET", b"a", b"1"], &[b"GET", b"a"]];

/// The journal of these two.
const PAIR: &[u8] = b"shards 8\n4 0 0 0\n4 0 1 0\n";

const PAIR_REPLIES: &[u8] = b"+OK\r\n$1\r\n1\r\n";

static ROWS: [Row; 9] = [
    Row {
        sessions: &[SET_GET],
        journal: PAIR,
        texts: &[PAIR_REPLIES],
    },
    Row {
        sessions: &[&[
            &[b"SET", b"a", b"1"],
            &[b"DEL", b"a", b"a"],
            &[b"SET", b"b", b"1"],
            &[b"EXISTS", b"b", b"b"],
        ]],
        journal: b"shards 8\n4 0 0 0\n4 0 1 0\n4 0 1 1\n5 0 2 0\n5 0 3 0\n5 0 3 1\n",
        texts: &[b"+OK\r\n:1\r\n+OK\r\n:2\r\n"],
    },
    Row {
        sessions: &[&[
            &[b"SET", b"a", b"1", b"NX"],
            &[b"SET", b"a", b"2", b"NX"],
            &[b"SET", b"a", b"3", b"XX", b"GET"],
            &[b"SET", b"b", b"4", b"XX"],
            &[b"SET", b"b", b"5", b"GET"],
            &[b"SET", b"a", b"6", b"nx", b"get"],
            &[b"SET", b"a", b"7", b"NX", b"XX"],
        ]],
        journal: b"shards 8\n4 0 0 0\n4 0 1 0\n4 0 2 0\n4 0 5 0\n5 0 3 0\n5 0 4 0\n",
        texts: &[b"+OK\r\n$-1\r\n$1\r\n1\r\n$-1\r\n$-1\r\n$1\r\n3\r\n-ERR syntax error\r\n"],
    },
    // One order of two sessions, and the other.
    Row {
        sessions: &[&[&[b"SET", b"a", b"x"]], &[&[b"GET", b"a"]]],
        journal: b"shards 8\n4 1 0 0\n4 0 0 0\n",
        texts: &[b"+OK\r\n", b"$-1\r\n"],
    },
    Row {
        sessions: &[&[&[b"SET", b"a", b"x"]], &[&[b"GET", b"a"]]],
        journal: b"shards 8\n4 0 0 0\n4 1 0 0\n",
        texts: &[b"+OK\r\n", b"$1\r\nx\r\n"],
    },
    // A write that found no buffer, and commands without parts.
    Row {
        sessions: &[&[
            &[b"SET", b"a", b"1"],
            &[b"GET", b"a"],
            &[b"PING"],
            &[b"PING", b"hi"],
            &[b"FLY"],
        ]],
        journal: b"shards 8\n4 0 1 0\n",
        texts: &[b"-OOM no free buffer\r\n$-1\r\n+PONG\r\n$2\r\nhi\r\n-ERR unknown command\r\n"],
    },
    Row {
        sessions: &[&[
            &[b"APPEND", b"b", b"abcdef"],
            &[b"STRLEN", b"b"],
            &[b"GETRANGE", b"b", b"1", b"-2"],
            &[b"MGET", b"b", b"a", b"b"],
        ]],
        journal: b"shards 1\n0 0 0 0\n0 0 1 0\n0 0 2 0\n0 0 3 0\n0 0 3 1\n0 0 3 2\n",
        texts: &[b":6\r\n:6\r\n$4\r\nbcde\r\n*3\r\n$6\r\nabcdef\r\n$-1\r\n$6\r\nabcdef\r\n"],
    },
    Row {
        sessions: &[&[&[b"PING"]], &[]],
        journal: b"shards 8\n",
        texts: &[b"+PONG\r\n", b""],
    },
    Row {
        sessions: &[],
        journal: b"shards 16\n",
        texts: &[],
    },
];

// Puts a request behind those before it.
fn put_request(alloc: Global, input: &mut Bytes, words: &[&[u8]]) -> Result<(), Fail> {
    input.append(format!(in alloc; "*{}\r\n", words.len())?.as_bytes())?;
    for word in words {
        input.append(format!(in alloc; "${}\r\n", word.len())?.as_bytes())?;
        input.append(*word)?;
        input.append(b"\r\n")?;
    }
    Ok(())
}

fn inputs_of(alloc: Global, sessions: &[&[Request]]) -> Result<Inputs, Fail> {
    let mut inputs = Inputs::new(alloc);
    for requests in sessions {
        let mut input = Bytes::new(alloc);
        for words in *requests {
            put_request(alloc, &mut input, *words)?;
        }
        inputs.push(input)?;
    }
    Ok(inputs)
}

fn one(alloc: Global, text: &[u8]) -> Result<Texts, Fail> {
    let mut texts = Texts::new(alloc);
    texts.push(Bytes::from_slice(alloc, text)?)?;
    Ok(texts)
}

// The only call of `answers`. It has no clauses, so that no assertion carries those.
fn answered(
    rt: &impl Abort,
    alloc: Global,
    inputs: &Inputs,
    journal: &Journal,
) -> Result<Texts, AnswerError> {
    assert!(rt; 1 <= journal.len());
    assert!(rt; journal.len() <= 16);
    assert!(rt; inputs.len() <= 16);
    answers(alloc, inputs, journal)
}

// The only call of `check`, likewise.
fn judged(
    rt: &impl Abort,
    alloc: Global,
    inputs: &Inputs,
    journal: &Journal,
    replies: &Texts,
) -> Result<Verdict, Memory> {
    assert!(rt; 1 <= journal.len());
    assert!(rt; journal.len() <= 16);
    assert!(rt; inputs.len() <= 16);
    assert_eq!(rt; replies.len(), inputs.len());
    check(alloc, inputs, journal, replies)
}

fn check_row(rt: &impl Abort, alloc: Global, row: &Row) -> Result<(), Fail> {
    let inputs = inputs_of(alloc, row.sessions)?;
    let journal = read_journal(alloc, row.journal)?;
    let texts = answered(rt, alloc, &inputs, &journal)?;
    equal(rt, "texts", texts.len(), row.texts.len());
    for (text, wanted) in texts.iter().zip(row.texts) {
        equal(rt, "the text", text.as_slice(), *wanted);
    }
    equal(
        rt,
        "the verdict",
        judged(rt, alloc, &inputs, &journal, &texts)?,
        Verdict::Same,
    );
    Ok(())
}

#[test]
fn replies_of_journals(rt: HostRuntime) -> Result<(), Fail> {
    for row in &ROWS {
        check_row(&rt, rt.alloc(), row)?;
    }
    Ok(())
}

/// The verdict on the replies to a SET and a GET, by a journal's text.
fn of_pair(
    rt: &impl Abort,
    alloc: Global,
    journal: &[u8],
    replies: &[u8],
) -> Result<Verdict, Fail> {
    let inputs = inputs_of(alloc, &[SET_GET])?;
    let journal = read_journal(alloc, journal)?;
    let replies = one(alloc, replies)?;
    Ok(judged(rt, alloc, &inputs, &journal, &replies)?)
}

/// The journal with each of its numbers changed in turn, and the place that isn't in order then. With 9 shards the key
/// belongs to shard 7.
static FAULTS: [(&[u8], u16, u64); 14] = [
    (b"shards 9\n4 0 0 0\n4 0 1 0\n", 4, 0),
    (b"shards 8\n3 0 0 0\n4 0 1 0\n", 3, 0),
    (b"shards 8\n4 1 0 0\n4 0 1 0\n", 4, 0),
    (b"shards 8\n4 0 2 0\n4 0 1 0\n", 4, 0),
    (b"shards 8\n4 0 1 0\n4 0 1 0\n", 4, 1),
    (b"shards 8\n4 0 0 1\n4 0 1 0\n", 4, 0),
    (b"shards 8\n4 0 0 0\n5 0 1 0\n", 4, 1),
    (b"shards 8\n4 0 0 0\n4 1 1 0\n", 4, 1),
    (b"shards 8\n4 0 0 0\n4 0 0 0\n", 4, 1),
    (b"shards 8\n4 0 0 0\n4 0 2 0\n", 4, 1),
    (b"shards 8\n4 0 0 0\n4 0 1 1\n", 4, 1),
    // The entries exchanged; the last one left out, and both.
    (b"shards 8\n4 0 1 0\n4 0 0 0\n", 4, 1),
    (b"shards 8\n4 0 0 0\n", 4, 1),
    (b"shards 8\n", 4, 0),
];

#[test]
fn bad_journals_come_first(rt: HostRuntime) -> Result<(), Fail> {
    for (journal, shard, place) in &FAULTS {
        let bad = Verdict::BadJournal {
            shard: *shard,
            place: *place,
        };
        equal(
            &rt,
            "with its replies",
            of_pair(&rt, rt.alloc(), *journal, PAIR_REPLIES)?,
            bad,
        );
        equal(
            &rt,
            "without replies",
            of_pair(&rt, rt.alloc(), *journal, b"")?,
            bad,
        );
    }
    Ok(())
}

fn differs(place: u64, expected: Option<u8>, found: Option<u8>) -> Verdict {
    Verdict::Differs {
        session: 0,
        place,
        expected,
        found,
    }
}

#[test]
fn each_byte_is_compared(rt: HostRuntime) -> Result<(), Fail> {
    let alloc = rt.alloc();
    for (place, byte) in PAIR_REPLIES.iter().enumerate() {
        let mut replies = PAIR_REPLIES.to_vec(alloc)?;
        let other = *byte ^ 3;
        if place < replies.len() {
            replies[place] = other;
        }
        let verdict = of_pair(&rt, alloc, PAIR, replies.as_slice())?;
        equal(
            &rt,
            "the verdict",
            verdict,
            differs(place as u64, Some(*byte), Some(other)),
        );
        let verdict = of_pair(&rt, alloc, PAIR, &PAIR_REPLIES[..place])?;
        equal(
            &rt,
            "the verdict",
            verdict,
            differs(place as u64, Some(*byte), None),
        );
    }
    let longer = of_pair(&rt, alloc, PAIR, b"+OK\r\n$1\r\n1\r\n+")?;
    equal(&rt, "a byte more", longer, differs(12, None, Some(b'+')));
    // Of two differences the first is named.
    let two = of_pair(&rt, alloc, PAIR, b"+OK\r\n$2\r\n2\r\n")?;
    equal(
        &rt,
        "two differences",
        two,
        differs(6, Some(b'1'), Some(b'2')),
    );
    Ok(())
}

#[test]
fn other_ends_of_inputs(rt: HostRuntime) -> Result<(), Fail> {
    let rows: [(&[u8], &[u8]); 3] = [
        (
            b"*1\r\n$4\r\nPING\r\n*1\r\n$01\r\n",
            b"+PONG\r\n-ERR Protocol error: invalid bulk length\r\n",
        ),
        (b"*1\r\n$4\r\nPING\r\n*2\r\n$3\r\nGE", b"+PONG\r\n"),
        (b"", b""),
    ];
    for (input, text) in rows {
        let inputs = one(rt.alloc(), input)?;
        let journal = read_journal(rt.alloc(), b"shards 8\n")?;
        let texts = answered(&rt, rt.alloc(), &inputs, &journal)?;
        let wanted = one(rt.alloc(), text)?;
        equal(&rt, "texts", texts.len(), 1);
        equal(
            &rt,
            "the verdict",
            judged(&rt, rt.alloc(), &inputs, &journal, &wanted)?,
            Verdict::Same,
        );
    }
    Ok(())
}

/// An input, the replies to it, and the history of each shard, as a session of its own makes them.
#[derive(Drop)]
struct Script {
    input: Bytes,
    texts: Bytes,
    lists: Vec<Sequence<Entry>>,
}

fn empty_script(alloc: Global) -> Result<Script, Fail> {
    let mut lists = Vec::new(alloc);
    for _shard in 0..8 {
        lists.push(Sequence::new(alloc))?;
    }
    Ok(Script {
        input: Bytes::new(alloc),
        texts: Bytes::new(alloc),
        lists,
    })
}

// Enters a part of the session in the history of its key's shard.
fn enter(lists: &mut [Sequence<Entry>], key: &[u8], call: u32, part: u16) -> Result<(), Fail> {
    let entry = Entry {
        session: 0,
        call,
        part,
    };
    let shard = shard_of(key, 8) as usize;
    if shard < lists.len() {
        lists[shard].push(entry)?;
    }
    Ok(())
}

// Appends so many bytes of a letter.
fn put_bytes(text: &mut Bytes, letter: u8, count: usize) -> Result<(), Fail> {
    for _ in 0..count {
        text.append(&[letter])?;
    }
    Ok(())
}

fn length_of(n: u32) -> usize {
    100 + 44 * n as usize
}

// The call of number n sets key n.
fn put_set(alloc: Global, script: &mut Script, n: u32) -> Result<(), Fail> {
    let key = format!(in alloc; "k{n}")?;
    let mut value = Bytes::new(alloc);
    put_bytes(&mut value, b'v', length_of(n))?;
    let words: [&[u8]; 3] = [b"SET", key.as_bytes(), value.as_slice()];
    put_request(alloc, &mut script.input, &words)?;
    script.texts.append(b"+OK\r\n")?;
    enter(script.lists.as_mut_slice(), key.as_bytes(), n, 0)
}

// A part of an MGET finds the value of key n.
fn put_item(alloc: Global, script: &mut Script, n: u32, call: u32, part: u16) -> Result<(), Fail> {
    let key = format!(in alloc; "k{n}")?;
    let word = format!(in alloc; "${}\r\n{key}\r\n", key.len())?;
    script.input.append(word.as_bytes())?;
    let head = format!(in alloc; "${}\r\n", length_of(n))?;
    script.texts.append(head.as_bytes())?;
    put_bytes(&mut script.texts, b'v', length_of(n))?;
    script.texts.append(b"\r\n")?;
    enter(script.lists.as_mut_slice(), key.as_bytes(), call, part)
}

// A call asks for twenty keys.
fn put_mget(alloc: Global, script: &mut Script, call: u32, first: u32) -> Result<(), Fail> {
    script.input.append(b"*21\r\n$4\r\nMGET\r\n")?;
    script.texts.append(b"*20\r\n")?;
    for part in 0..20u16 {
        put_item(
            alloc,
            script,
            first.saturating_add(u32::from(part)),
            call,
            part,
        )?;
    }
    Ok(())
}

#[test]
fn two_hundred_keys(rt: HostRuntime) -> Result<(), Fail> {
    let alloc = rt.alloc();
    let mut script = empty_script(alloc)?;
    for n in 0..200 {
        put_set(alloc, &mut script, n)?;
    }
    for tens in 0..10 {
        put_mget(alloc, &mut script, 200 + tens, 20 * tens)?;
    }
    let Script {
        input,
        texts,
        lists,
    } = script;
    equal(&rt, "texts", texts.len(), 898_429);
    let journal = Sequence::from_vec(lists);
    let inputs = one(alloc, input.as_slice())?;
    let replies = one(alloc, texts.as_slice())?;
    equal(
        &rt,
        "the verdict",
        judged(&rt, alloc, &inputs, &journal, &replies)?,
        Verdict::Same,
    );
    Ok(())
}

#[test]
fn the_longest_value(rt: HostRuntime) -> Result<(), Fail> {
    let alloc = rt.alloc();
    let mut input = Bytes::new(alloc);
    let mut value = Bytes::new(alloc);
    put_bytes(&mut value, b'A', 65_536)?;
    let words: [&[u8]; 3] = [b"SET", b"k", value.as_slice()];
    put_request(alloc, &mut input, &words)?;
    put_request(alloc, &mut input, &[b"APPEND", b"k", b"B"])?;
    let inputs = one(alloc, input.as_slice())?;
    let journal = read_journal(alloc, b"shards 8\n2 0 0 0\n2 0 1 0\n")?;
    let replies = one(alloc, b"+OK\r\n-ERR value too long\r\n")?;
    equal(
        &rt,
        "the verdict",
        judged(&rt, alloc, &inputs, &journal, &replies)?,
        Verdict::Same,
    );
    Ok(())
}
