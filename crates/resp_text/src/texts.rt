ghost use Rattle.std.specs.Prelude.{◌≡◌, ◌<◌, ◌++◌, ◌∷◌, length, IfOk, OnOk};
ghost use Rattle.std.specs.Fmt.{decimal};
ghost use Rattle.flake_model.specs.Resp.{crlf, bulk_string};
ghost use Rattle.flake_model.specs.Reply as model;
ghost use Rattle.resp_text.specs.Meaning.{meaning, item_meaning, StandsInFront};

use crate::errors::error_text;
use crate::lines::line;
use crate::reply::{Items, Reply};
use crate::sizes::size;
use flake_base::{Bytes, ErrorKind, Memory};
use std::alloc::Global;

/// The RESP2 text of a reply, in room that is taken once.
pub fn text(alloc: Global, reply: &Reply) -> Result<Bytes, Memory>
    ensures text { IfOk result (λ text. text.items ≡ model.reply_text (meaning reply.now)) }
    ensures some { IfOk result (λ text. 0 < length text.items) }
{
    let mut text = Bytes::with_room(alloc, size(reply))?;
    put_text(&mut text, reply)?;
    Ok(text)
}

/// Puts the RESP2 text of a reply behind what stands there, which stays there also where memory is wanting.
pub fn put_text(text: &mut Bytes, reply: &Reply) -> Result<(), Memory>
    ensures text { OnOk result (text.new.items ≡ text.old.items ++ model.reply_text (meaning reply.now)) }
    ensures front { StandsInFront text.old.items text.new.items }
    ensures some { OnOk result (0 < length text.new.items) }
{
    match reply {
        Reply::Ok => text.append(b"+OK\r\n"),
        Reply::Pong => text.append(b"+PONG\r\n"),
        Reply::Error(kind) => put_error(text, *kind),
        Reply::Int(n) => put_line(text, b':', *n),
        Reply::Bulk(bytes) => put_bulk(text, bytes.as_slice()),
        Reply::Null => put_null(text),
        Reply::Array(items) => put_array(text, items),
    }
}

fn put_error(text: &mut Bytes, kind: ErrorKind) -> Result<(), Memory>
    ensures text { OnOk result (text.new.items ≡ text.old.items ++ 45 ∷ model.error_text kind ++ crlf) }
    ensures front { StandsInFront text.old.items text.new.items }
{
    text.append(b"-")?;
    text.append(error_text(kind).as_bytes())?;
    text.append(b"\r\n")
}

fn put_line(text: &mut Bytes, mark: u8, n: u64) -> Result<(), Memory>
    ensures text { OnOk result (text.new.items ≡ text.old.items ++ mark ∷ decimal n ++ crlf) }
    ensures front { StandsInFront text.old.items text.new.items }
{
    let mut room = [0; 24];
    let count = line(&mut room, mark, n);
    text.append(&room[..count])
}

fn put_bulk(text: &mut Bytes, bytes: &[u8]) -> Result<(), Memory>
    ensures text { OnOk result (text.new.items ≡ text.old.items ++ bulk_string bytes.now) }
    ensures front { StandsInFront text.old.items text.new.items }
{
    put_line(text, b'$', bytes.len() as u64)?;
    text.append(bytes)?;
    text.append(b"\r\n")
}

fn put_null(text: &mut Bytes) -> Result<(), Memory>
    ensures text { OnOk result (text.new.items ≡ text.old.items ++ model.null_text) }
    ensures front { StandsInFront text.old.items text.new.items }
{
    text.append(b"$-1\r\n")
}

fn put_item(text: &mut Bytes, item: &Option<Bytes>) -> Result<(), Memory>
    ensures text { OnOk result (text.new.items ≡ text.old.items ++ model.item_text (item_meaning item.now)) }
    ensures front { StandsInFront text.old.items text.new.items }
{
    match item {
        Some(bytes) => put_bulk(text, bytes.as_slice()),
        None => put_null(text),
    }
}

fn put_array(text: &mut Bytes, items: &Items) -> Result<(), Memory>
    ensures text { OnOk result (text.new.items ≡ text.old.items ++ model.reply_text (meaning (Reply.Array items.now))) }
    ensures front { StandsInFront text.old.items text.new.items }
{
    put_line(text, b'*', items.len() as u64)?;
    for item in items.as_slice() {
        put_item(text, item)?;
    }
    Ok(())
}
