//! Makes SETs, feeds them to a reader in pieces of 4,096 bytes, and says what came out. Its words are how many SETs,
//! and the length of their value: 16,268 of 4,096 have 67,105,500 bytes, the most below the limit of an input.
#![tactic(auto)]

ghost use Rattle.std.specs.Prelude.{◌≡◌, ◌++◌, List, ℕ, IfOk};
ghost use Rattle.flake_model.specs.Resp.{Words, Parses};
ghost use Rattle.resp_reader.specs.Reader.{ReadsRequests, input_end};

use anyhow::{Context, Result, bail};
use resp_reader::{Ended, ReadError, Reader};
use std::alloc::{AllocError, Global};
use std::env;

const PIECE: usize = 4096;

/// What came out of an input.
#[derive(Drop)]
struct Tally {
    requests: u64,
    bytes: u64,
}

// SET of the key `k` to so many bytes.
fn set(alloc: Global, len: u16) -> std::result::Result<Vec<u8>, AllocError> {
    let head = format!(in alloc; "*3\r\n$3\r\nSET\r\n$1\r\nk\r\n${len}\r\n")?;
    let mut request = Vec::from_slice(alloc, head.as_bytes())?;
    for _ in 0..len {
        request.push(b'v')?;
    }
    request.extend_from_slice(b"\r\n")?;
    Ok(request)
}

fn sets(alloc: Global, count: u32, len: u16) -> std::result::Result<Vec<u8>, AllocError> {
    let request = set(alloc, len)?;
    let mut input = Vec::new(alloc);
    for _ in 0..count {
        input.extend_from_slice(&request)?;
    }
    Ok(input)
}

// Takes the requests that are whole, and counts them and their words' bytes.
fn take(reader: &mut Reader, tally: &mut Tally)
    ensures open { reader.new.closed ≡ reader.old.closed }
    ensures fed { (bytes : List ℕ) (given : List Words) → ReadsRequests bytes given reader.old
        → (more : List Words) × ReadsRequests bytes (given ++ more) reader.new }
{
    while let Some(request) = reader.next() {
        tally.requests = tally.requests.saturating_add(1);
        for i in 0..request.len() {
            tally.bytes = tally.bytes.saturating_add(request.word(i).len() as u64);
        }
        reader.give_back(request);
    }
}

// The end that is answered is that of the input.
fn read(alloc: Global, input: &[u8]) -> std::result::Result<(Tally, Ended), ReadError>
    ensures { IfOk result (λ found. (requests : List Words) × Parses input.now requests (input_end found.1)) }
{
    let mut reader = Reader::new(alloc);
    let mut tally = Tally {
        requests: 0,
        bytes: 0,
    };
    let mut rest = input;
    while !rest.is_empty() {
        let (piece, behind) = rest.split_at(PIECE.min(rest.len()));
        reader.feed(piece)?;
        take(&mut reader, &mut tally);
        rest = behind;
    }
    Ok((tally, reader.end()))
}

// The numbers among the words.
fn numbers(rt: &HostRuntime) -> Result<(u32, u16)> {
    let mut words = env::args(rt)?.skip(1);
    let (Some(count), Some(len)) = (words.next(), words.next()) else {
        bail!("how many requests, and how long?");
    };
    let count = count
        .as_str()
        .parse::<u32>()
        .context("the number of requests")?;
    let len = len.as_str().parse::<u16>().context("the length")?;
    Ok((count, len))
}

fn main(rt: HostRuntime) -> Result<()> {
    let (count, len) = numbers(&rt)?;
    let input = sets(rt.alloc(), count, len)?;
    match read(rt.alloc(), &input) {
        Ok((tally, Ended::Clean)) => {
            let Tally { requests, bytes } = tally;
            println!(rt;
                "{requests} requests with {bytes} bytes of words, in {} bytes",
                input.len()
            )?;
            Ok(())
        }
        Ok((_, end)) => bail!("{end:?}"),
        Err(error) => bail!("{error:?}"),
    }
}
