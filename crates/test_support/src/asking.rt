//! Commands from lines of words.
use command_parts::Command;
use resp_reader::{Reader, Request};
use std::alloc::Global;
use std::test::Fail;

// The bytes of a word: `A*600` is 600 bytes `A`, and `''` no byte.
fn bytes_of(alloc: Global, word: &str) -> Result<Vec<u8>, Fail> {
    let mut bytes = Vec::new(alloc);
    match word.split_once('*') {
        Some((letter, count)) => {
            for _ in 0..count.parse::<usize>()? {
                bytes.extend_from_slice(letter.as_bytes())?;
            }
        }
        None => {
            if word != "''" {
                bytes.extend_from_slice(word.as_bytes())?;
            }
        }
    }
    Ok(bytes)
}

// The request of a line's words, as a reader gives it.
fn request(alloc: Global, line: &str) -> Result<Request, Fail> {
    let mut reader = Reader::new(alloc);
    let count = line.split_whitespace().count();
    reader.feed(format!(in alloc; "*{count}\r\n")?.as_bytes())?;
    for word in line.split_whitespace() {
        let bytes = bytes_of(alloc, word)?;
        reader.feed(format!(in alloc; "${}\r\n", bytes.len())?.as_bytes())?;
        reader.feed(&bytes)?;
        reader.feed(b"\r\n")?;
    }
    Ok(reader.next().ok_or("no request")?)
}

pub fn command(alloc: Global, line: &str) -> Result<Command, Fail> {
    Ok(Command::of(request(alloc, line)?))
}

pub fn commands_of(alloc: Global, lines: &[&str]) -> Result<Vec<Command>, Fail> {
    let mut commands = Vec::new(alloc);
    for line in lines {
        commands.push(command(alloc, line)?)?;
    }
    Ok(commands)
}
