// How long texts are, before room is taken for them. A sum that would pass the last value of a `usize` stays
// there, and no room is that large.
ghost use Rattle.std.specs.Prelude.{◌≡◌, ◌≤◌, ◌+◌, length};
ghost use Rattle.std.specs.Fmt.{decimal};
ghost use Rattle.flake_model.specs.Reply.{reply_text, item_text};
ghost use Rattle.resp_text.specs.Meaning.{meaning, item_meaning};
ghost use Rattle.resp_text.specs.Sizes.{fitted};

use crate::errors::error_text;
use crate::reply::{Items, Reply};
use flake_base::Bytes;

/// The length of a reply's text.
pub fn size(reply: &Reply) -> usize
    ensures { result ≡ fitted (length (reply_text (meaning reply.now))) }
{
    match reply {
        Reply::Ok | Reply::Null => 5,
        Reply::Pong => 7,
        Reply::Error(kind) => error_text(*kind).len() + 3,
        Reply::Int(n) => line_size(*n),
        Reply::Bulk(bytes) => bulk_size(bytes.len()),
        Reply::Array(items) => array_size(items),
    }
}

fn digits(n: u64) -> usize
    ensures count { result ≡ length (decimal n) }
    ensures few { result ≤ 20 }
{
    match n.checked_ilog10() {
        Some(power) => power as usize + 1,
        None => 1,
    }
}

/// The length of a line: a mark, the number, and the line end.
pub fn line_size(n: u64) -> usize
    ensures size { result ≡ length (decimal n) + 3 }
    ensures short { result ≤ 23 }
{
    digits(n) + 3
}

fn bulk_size(len: usize) -> usize
    ensures { result ≡ fitted (length (decimal len) + 5 + len) }
{
    len.saturating_add(line_size(len as u64) + 2)
}

fn item_size(item: &Option<Bytes>) -> usize
    ensures { result ≡ fitted (length (item_text (item_meaning item.now))) }
{
    match item {
        Some(bytes) => bulk_size(bytes.len()),
        None => 5,
    }
}

fn array_size(items: &Items) -> usize
    ensures { result ≡ fitted (length (reply_text (meaning (Reply.Array items.now)))) }
{
    let mut size = line_size(items.len() as u64);
    for item in items.as_slice() {
        size = size.saturating_add(item_size(item));
    }
    size
}
