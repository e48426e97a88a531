//! Many calls, with gathers between them in several rhythms.
use super::acting::{Act, tell};
use super::putting::Counted;
use command_parts::Command;
use flake_base::Memory;
use order_book::BookBlank;
use pinned_pool::PoolBlank;
use std::alloc::Global;
use std::test::Fail;
use test_support::asking::command;

// 75 times four calls, and what they are answered.
fn three_hundred(alloc: Global) -> Result<(Vec<Command>, Vec<u8>), Fail> {
    let mut commands = Vec::new(alloc);
    let mut text = Vec::new(alloc);
    for letter in b'0'..=b'z' {
        let value = vec![in alloc; letter; 5000]?;
        let line = format!(in alloc; "SET k {}*5000", char::from(letter))?;
        commands.push(command(alloc, line.as_str())?)?;
        commands.push(command(alloc, "GET k")?)?;
        commands.push(command(alloc, "PING")?)?;
        commands.push(command(alloc, "STRLEN k")?)?;
        text.extend_from_slice(b"+OK\r\n$5000\r\n")?;
        text.extend_from_slice(&value)?;
        text.extend_from_slice(b"\r\n+PONG\r\n:5000\r\n")?;
    }
    Ok((commands, text))
}

// So many calls and so many gathers in turn, until 300 calls are made, also where a stage of 128 ends each turn.
fn turns(alloc: Global, rhythm: usize) -> Result<Vec<(Act, usize)>, Memory> {
    let mut acts = Vec::new(alloc);
    let mut made = 0usize;
    for _ in 0..300 {
        if made < 300 {
            acts.push((Act::Call, rhythm))?;
            acts.push((Act::Gather, rhythm))?;
            made = made.saturating_add(rhythm.min(100));
        }
    }
    Ok(acts)
}

// How many lines tell of calls.
fn calls_in(told: &str) -> usize {
    let mut calls: usize = 0;
    for line in told.lines() {
        if line.starts_with("call ") {
            calls = calls.saturating_add(1);
        }
    }
    calls
}

#[test]
fn three_hundred_calls_in_several_rhythms(rt: HostRuntime) -> Result<(), Fail> {
    let alloc = rt.alloc();
    let (commands, text) = three_hundred(alloc)?;
    for rhythm in [1, 2, 3, 5, 7, 16, 63, 64, 65, 126, 127, 128, 129, 300] {
        let acts = turns(alloc, rhythm)?;
        let pool = PoolBlank::open(alloc, 128, 400, 8201)?;
        let book = BookBlank::open(alloc, 8, 1)?;
        let wire = Counted::new(alloc, text.len(), None, false)?;
        let (told, wire) = tell(&rt, alloc, pool, book, 512, &commands, &acts, wire)?;
        assert_eq!(rt; calls_in(told.as_str()), 300);
        assert!(rt; told.ends_with("held 0 2\n"), "{rhythm}");
        assert!(rt; wire.wire.sent() == text.as_slice(), "{rhythm}");
    }
    Ok(())
}
