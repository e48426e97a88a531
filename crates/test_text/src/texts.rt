use crate::checks::equal;
use flake_base::{Bytes, ErrorKind};
use resp_text::{Items, Reply, error_text, line, put_text, text};
use std::alloc::Global;
use std::process::Abort;
use std::test::Fail;

// The reply's text is this.
fn check(rt: &impl Abort, alloc: Global, reply: &Reply, want: &[u8]) -> Result<(), Fail> {
    let found = text(alloc, reply)?;
    equal(rt, "the text", found.as_slice(), want);
    Ok(())
}

fn array(alloc: Global, values: &[Option<&[u8]>]) -> Result<Reply, Fail> {
    let mut items = Items::with_room(alloc, values.len())?;
    for value in values {
        let item = match value {
            Some(bytes) => Some(Bytes::from_slice(alloc, *bytes)?),
            None => None,
        };
        items.push(item)?;
    }
    Ok(Reply::Array(items))
}

#[test]
fn simple_strings(rt: HostRuntime) -> Result<(), Fail> {
    check(&rt, rt.alloc(), &Reply::Ok, b"+OK\r\n")?;
    check(&rt, rt.alloc(), &Reply::Pong, b"+PONG\r\n")?;
    check(&rt, rt.alloc(), &Reply::Null, b"$-1\r\n")
}

#[test]
fn texts_behind_each_other(rt: HostRuntime) -> Result<(), Fail> {
    let mut texts = Bytes::new(rt.alloc());
    put_text(&mut texts, &Reply::Ok)?;
    put_text(&mut texts, &Reply::Int(7))?;
    equal(
        &rt,
        "both texts",
        texts.as_slice(),
        b"+OK\r\n:7\r\n".as_slice(),
    );
    Ok(())
}

#[test]
fn integers(rt: HostRuntime) -> Result<(), Fail> {
    let table = [
        (0, b":0\r\n".as_slice()),
        (1, b":1\r\n"),
        (9, b":9\r\n"),
        (10, b":10\r\n"),
        (16_385, b":16385\r\n"),
        (u64::MAX, b":18446744073709551615\r\n"),
    ];
    for (n, want) in table {
        check(&rt, rt.alloc(), &Reply::Int(n), want)?;
    }
    Ok(())
}

#[test]
fn bulk_strings(rt: HostRuntime) -> Result<(), Fail> {
    let table = [
        (b"".as_slice(), b"$0\r\n\r\n".as_slice()),
        (b"1", b"$1\r\n1\r\n"),
        (b"hi", b"$2\r\nhi\r\n"),
        (b"hi\r\n", b"$4\r\nhi\r\n\r\n"),
        (b"0123456789", b"$10\r\n0123456789\r\n"),
    ];
    for (bytes, want) in table {
        let reply = Reply::Bulk(Bytes::from_slice(rt.alloc(), bytes)?);
        check(&rt, rt.alloc(), &reply, want)?;
    }
    Ok(())
}

#[test]
fn arrays(rt: HostRuntime) -> Result<(), Fail> {
    let none: &[Option<&[u8]>] = &[];
    let null: &[Option<&[u8]>] = &[None];
    let empty: &[Option<&[u8]>] = &[Some(b"")];
    let mixed: &[Option<&[u8]>] = &[Some(b"1"), None, Some(b"a\r\n"), None];
    let table = [
        (none, b"*0\r\n".as_slice()),
        (null, b"*1\r\n$-1\r\n"),
        (empty, b"*1\r\n$0\r\n\r\n"),
        (mixed, b"*4\r\n$1\r\n1\r\n$-1\r\n$3\r\na\r\n\r\n$-1\r\n"),
    ];
    for (values, want) in table {
        let reply = array(rt.alloc(), values)?;
        check(&rt, rt.alloc(), &reply, want)?;
    }
    Ok(())
}

#[test]
fn errors(rt: HostRuntime) -> Result<(), Fail> {
    let table = [
        (ErrorKind::UnknownCommand, "-ERR unknown command\r\n"),
        (ErrorKind::WrongCount, "-ERR wrong number of arguments\r\n"),
        (ErrorKind::Syntax, "-ERR syntax error\r\n"),
        (ErrorKind::TooManyKeys, "-ERR too many keys\r\n"),
        (ErrorKind::KeyTooLong, "-ERR key too long\r\n"),
        (ErrorKind::ValueTooLong, "-ERR value too long\r\n"),
        (ErrorKind::NoBuffer, "-OOM no free buffer\r\n"),
        (
            ErrorKind::ProtocolCount,
            "-ERR Protocol error: invalid multibulk length\r\n",
        ),
        (
            ErrorKind::ProtocolBulk,
            "-ERR Protocol error: expected '$'\r\n",
        ),
        (
            ErrorKind::ProtocolLength,
            "-ERR Protocol error: invalid bulk length\r\n",
        ),
        (
            ErrorKind::ProtocolInline,
            "-ERR Protocol error: inline commands are not supported\r\n",
        ),
        (
            ErrorKind::NotInteger,
            "-ERR value is not an integer or out of range\r\n",
        ),
    ];
    for (kind, want) in table {
        check(&rt, rt.alloc(), &Reply::Error(kind), want.as_bytes())?;
        let line = want.as_bytes();
        assert!(rt; line.len() > 3);
        equal(
            &rt,
            "the error's text",
            error_text(kind).as_bytes(),
            &line[1..line.len() - 2],
        );
    }
    Ok(())
}

#[test]
fn lines(rt: HostRuntime) {
    let table = [
        (b':', 0, b":0\r\n".as_slice()),
        (b'$', 16_384, b"$16384\r\n"),
        (b'*', 64, b"*64\r\n"),
        (b'*', u64::MAX, b"*18446744073709551615\r\n"),
    ];
    for (mark, n, want) in table {
        let mut room = [0; 24];
        let count = line(&mut room, mark, n);
        equal(&rt, "a line", room.get(..count), Some(want));
    }
}
