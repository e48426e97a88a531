//! What calls, gathers and reaps tell.
use super::acting::{Act, tell};
use super::putting::Counted;
use command_parts::Command;
use flake_base::Memory;
use order_book::BookBlank;
use pinned_pool::PoolBlank;
use std::alloc::Global;
use std::fmt::Write;
use std::process::Abort;
use std::sync::Wait;
use std::test::Fail;
use test_support::asking::{command, commands_of};

// Acts on these commands tell this. The answer is the wire.
fn check<R: Wait + Abort>(
    rt: &R,
    alloc: Global,
    threshold: u32,
    commands: &[Command],
    acts: &[(Act, usize)],
    fails: Option<u64>,
    wanted: &str,
) -> Result<Counted, Fail> {
    assert!(rt; 0 < threshold && threshold <= 512);
    let pool = PoolBlank::open(alloc, 4096, 1024, 8201)?;
    let book = BookBlank::open(alloc, 8, 1)?;
    let wire = Counted::new(alloc, 400_000, fails, false)?;
    let (told, wire) = tell(rt, alloc, pool, book, threshold, commands, acts, wire)?;
    assert!(rt; told.as_str() == wanted, "{told}");
    Ok(wire)
}

#[test]
fn calls_alone(rt: HostRuntime) -> Result<(), Fail> {
    let alloc = rt.alloc();
    let cases: [(u32, &[&str], &str); 6] = [
        (
            512,
            &[
                "SET a A*511",
                "SET b B*512",
                "SET c C*513",
                "GET a",
                "GET b",
                "GET c",
            ],
            "\
call 0 send 1048576:5 store 1114112:511
call 1 send 1049088:5 store 1114624:512
call 2 send 1049600:5 store 3145728:513
call 3 send 1050112:512 1050624:7
call 4 send 1051136:6 1114624:512 1051142:2
call 5 send 1051648:6 3145728:513 1051654:2
held 2 1
",
        ),
        (
            512,
            &["SET k A*600", "GET k"],
            "\
call 0 send 1048576:5 store 3145728:600
call 1 send 1049088:6 3145728:600 1049094:2
held 0 1
",
        ),
        (
            512,
            &["SET k A*600", "MGET k k x"],
            "\
call 0 send 1048576:5 store 3145728:600
call 1 send 1049088:10 3145728:600 1049098:8 3145728:600 1049106:7
held 0 1
",
        ),
        (
            512,
            &["SET k A*16385", "GET k"],
            "\
call 0 send 1048576:5 store 3145728:4096 3149824:4096 3153920:4096 3158016:4096 1114112:1
call 1 send 1049088:8 3145728:4096 3149824:4096 3153920:4096 3158016:4096 1049096:3
held 1 4
",
        ),
        (
            1,
            &["SET a x", "GET a"],
            "\
call 0 send 1048576:5 store 1114112:1
call 1 send 1049088:4 1114112:1 1049092:2
held 1 0
",
        ),
        (
            512,
            &["SET k A*5000", "GETRANGE k 100 4999"],
            "\
call 0 send 1048576:5 store 3145728:4096 3149824:904
call 1 send 1049088:7 3145828:3996 3149824:904 1049095:2
held 0 2
",
        ),
    ];
    for (threshold, lines, told) in cases {
        let commands = commands_of(alloc, lines)?;
        let calls = [(Act::Call, commands.len())];
        check(&rt, alloc, threshold, &commands, &calls, None, told)?;
    }
    Ok(())
}

// Commands, acts, and what they tell; which put fails; and what is on the wire, as bytes and how often they come.
#[derive(Clone, Copy)]
struct Case<'a> {
    lines: &'a [&'a str],
    acts: &'a [(Act, usize)],
    told: &'a str,
    fails: Option<u64>,
    wire: &'a [(&'a [u8], usize)],
}

const CASES: [Case<'static>; 6] = [
    Case {
        lines: &[
            "SET k A*600",
            "GET k",
            "SET k B*600",
            "SET j C*600",
            "SET m D*600",
        ],
        acts: &[
            (Act::Call, 4),
            (Act::Gather, 4),
            (Act::Reap, 4),
            (Act::Call, 1),
        ],
        told: "\
call 0 send 1048576:5 store 3145728:600
call 1 send 1049088:6 3145728:600 1049094:2
call 2 send 1049600:5 store 3149824:600
call 3 send 1050112:5 store 3153920:600
gather 0 5
gather 1 608
gather 2 5
gather 3 5
reap 0 0
reap 1 1
reap 2 0
reap 3 0
call 4 send 1048576:5 store 3145728:600
held 0 3
",
        fails: None,
        wire: &[
            (b"+OK\r\n$600\r\n", 1),
            (b"A", 600),
            (b"\r\n+OK\r\n+OK\r\n+OK\r\n", 1),
        ],
    },
    Case {
        lines: &["SET k A*4090", "GET k", "APPEND k B*10", "GET k"],
        acts: &[(Act::Call, 4), (Act::Gather, 4), (Act::Reap, 2)],
        told: "\
call 0 send 1048576:5 store 3145728:4090
call 1 send 1049088:7 3145728:4090 1049095:2
call 2 send 1049600:7 store 3149824:4096 1114112:4
call 3 send 1050112:7 3149824:4096 1050119:6
gather 0 5
gather 1 4099
gather 2 7
gather 3 4109
reap 0 0
reap 1 1
held 1 1
",
        fails: None,
        wire: &[
            (b"+OK\r\n$4090\r\n", 1),
            (b"A", 4090),
            (b"\r\n:4100\r\n$4100\r\n", 1),
            (b"A", 4090),
            (b"B", 10),
            (b"\r\n", 1),
        ],
    },
    Case {
        lines: &["SET k A*600", "SET k B*600 GET"],
        acts: &[(Act::Call, 2), (Act::Gather, 3), (Act::Reap, 3)],
        told: "\
call 0 send 1048576:5 store 3145728:600
call 1 send 1049088:6 3145728:600 1049094:2 store 3149824:600
gather 0 5
gather 1 608
gather empty
reap 0 0
reap 1 1
reap none
held 0 1
",
        fails: None,
        wire: &[(b"+OK\r\n$600\r\n", 1), (b"A", 600), (b"\r\n", 1)],
    },
    Case {
        lines: &["SET k A*600", "GET k", "PING"],
        acts: &[(Act::Call, 3), (Act::Gather, 3), (Act::Reap, 3)],
        told: "\
call 0 send 1048576:5 store 3145728:600
call 1 send 1049088:6 3145728:600 1049094:2
call 2 send 1049600:7
gather 0 5
gather 1 dropped 608
gather 2 dropped 7
reap 0 0
reap 1 0
reap 2 0
held 0 1
",
        fails: Some(2),
        wire: &[(b"+OK\r\n$600\r\n", 1), (b"A", 256)],
    },
    // Both items of one reply lie in one buffer.
    Case {
        lines: &["SET k A*600", "MGET k k x"],
        acts: &[(Act::Call, 2), (Act::Gather, 2), (Act::Reap, 2)],
        told: "\
call 0 send 1048576:5 store 3145728:600
call 1 send 1049088:10 3145728:600 1049098:8 3145728:600 1049106:7
gather 0 5
gather 1 1225
reap 0 0
reap 1 0
held 0 1
",
        fails: None,
        wire: &[
            (b"+OK\r\n*3\r\n$600\r\n", 1),
            (b"A", 600),
            (b"\r\n$600\r\n", 1),
            (b"A", 600),
            (b"\r\n$-1\r\n", 1),
        ],
    },
    // The least staging buffers that are free are taken first.
    Case {
        lines: &["PING p*600", "PING", "PING p*1100"],
        acts: &[
            (Act::Call, 2),
            (Act::Gather, 1),
            (Act::Reap, 1),
            (Act::Call, 1),
        ],
        told: "\
call 0 send 1048576:512 1049088:96
call 1 send 1049600:7
gather 0 608
reap 0 0
call 2 send 1048576:512 1049088:512 1050112:85
held 0 0
",
        fails: None,
        wire: &[
            (b"$600\r\n", 1),
            (b"p", 600),
            (b"\r\n+PONG\r\n$1100\r\n", 1),
            (b"p", 1100),
            (b"\r\n", 1),
        ],
    },
];

fn repeated(alloc: Global, pieces: &[(&[u8], usize)]) -> Result<Vec<u8>, Memory> {
    let mut bytes = Vec::new(alloc);
    for (piece, times) in pieces {
        for _ in 0..*times {
            bytes.extend_from_slice(piece)?;
        }
    }
    Ok(bytes)
}

#[test]
fn calls_gathers_and_reaps(rt: HostRuntime) -> Result<(), Fail> {
    let alloc = rt.alloc();
    for case in &CASES {
        let commands = commands_of(alloc, case.lines)?;
        let wire = check(&rt, alloc, 512, &commands, case.acts, case.fails, case.told)?;
        let bytes = repeated(alloc, case.wire)?;
        assert!(rt; wire.wire.sent() == bytes.as_slice());
    }
    Ok(())
}

#[test]
fn a_full_stage(rt: HostRuntime) -> Result<(), Fail> {
    let alloc = rt.alloc();
    let mut commands = Vec::new(alloc);
    let mut told = String::new(alloc);
    for call in 0..129u32 {
        commands.push(command(alloc, "PING")?)?;
        if call < 128 {
            writeln!(told, "call {call} send {}:7", 1_048_576 + 512 * call)?;
        }
    }
    // A look where nothing was gathered; and then a reap for the one buffer that the last call needs.
    told.push_str("stage 1 0\nreap none\ngather 0 7\ngather 1 7\n")?;
    told.push_str("call 128 reaped 1 send 1048576:7\nreap 1 0\nheld 0 0\n")?;
    let acts = [
        (Act::Call, 129),
        (Act::Reap, 1),
        (Act::Gather, 2),
        (Act::Call, 1),
        (Act::Reap, 1),
    ];
    check(&rt, alloc, 512, &commands, &acts, None, told.as_str())?;
    Ok(())
}

#[test]
fn a_full_ring(rt: HostRuntime) -> Result<(), Fail> {
    let alloc = rt.alloc();
    let frags = "3145728:4096 3149824:4096 3153920:4096 3158016:4096";
    let mut commands = Vec::new(alloc);
    let mut line = String::from_str(alloc, "MGET")?;
    let mut told = String::new(alloc);
    commands.push(command(alloc, "SET k A*16384")?)?;
    writeln!(told, "call 0 send 1048576:5 store {frags}")?;
    for call in 1..22u32 {
        commands.push(command(alloc, "GET k")?)?;
        let place = 1_048_576 + 512 * call;
        writeln!(told, "call {call} send {place}:8 {frags} {}:2", place + 8)?;
    }
    for _ in 0..64 {
        line.push_str(" k")?;
    }
    commands.push(command(alloc, line.as_str())?)?;
    told.push_str("ring 1154 1032\nheld 0 4\n")?;
    check(
        &rt,
        alloc,
        512,
        &commands,
        &[(Act::Call, 23)],
        None,
        told.as_str(),
    )?;
    Ok(())
}
