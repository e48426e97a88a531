//! Bytes that are copied into a plan's text.
ghost use Rattle.std.specs.Prelude.{◌≡◌, ◌+◌, ◌*◌, ◌<◌, ◌≤◌, ◌++◌, length, take, vec_capacity};
ghost use Rattle.view_sums.specs.Total.{total};
ghost use Rattle.pin_core.specs.Holding.{at};
ghost use Rattle.pinned_pool.specs.Moves.{front_of};
ghost use Rattle.flake_model.specs.Resp.{crlf};
ghost use Rattle.reply_planner.specs.Places.{buffer_bytes};
ghost use Rattle.reply_planner.specs.Laid.{head_text};

use pinned_pool::{Pool, PoolName, PoolSeat};
use resp_text::line;

/// Puts bytes at the end, where there is room for them.
#[inline(always)]
pub(crate) fn append(text: &mut Vec<u8>, bytes: &[u8])
    requires { length text.old.items + length bytes.now ≤ vec_capacity text.old }
    ensures items { text.new.items ≡ text.old.items ++ bytes.now }
    ensures capacity { vec_capacity text.old ≤ vec_capacity text.new }
{
    // There is room, so it doesn't fail.
    let _ = text.extend_from_slice(bytes);
}

// The head of a bulk string of fewer than 10 bytes.
fn head_of_digit(len: u8) -> [u8; 4]
    requires { len < 10 }
    ensures { result ≡ head_text len }
{
    [b'$', b'0' + len, b'\r', b'\n']
}

// The head of a bulk string of 10 bytes or more, and fewer than 100.
fn head_of_two(len: u8) -> [u8; 5]
    requires { (10 ≤ len) × (len < 100) }
    ensures { result ≡ head_text len }
{
    [b'$', b'0' + len / 10, b'0' + len % 10, b'\r', b'\n']
}

// The head of a bulk string of 100 bytes or more, and fewer than 1,000.
fn head_of_three(len: u16) -> [u8; 6]
    requires { (100 ≤ len) × (len < 1000) }
    ensures { result ≡ head_text len }
{
    let tens = len / 10;
    let first = b'0' + (tens / 10) as u8;
    let second = b'0' + (tens % 10) as u8;
    [b'$', first, second, b'0' + (len % 10) as u8, b'\r', b'\n']
}

// Puts the head of any bulk string at the end.
fn append_long_head(text: &mut Vec<u8>, len: u64)
    requires few { len ≤ 65536 }
    requires room { length text.old.items + 8 ≤ vec_capacity text.old }
    ensures items { text.new.items ≡ text.old.items ++ head_text len }
    ensures capacity { vec_capacity text.old ≤ vec_capacity text.new }
{
    let mut room = [0u8; 24];
    let end = line(&mut room, b'$', len);
    append(text, &room[..end]);
}

/// Puts the head of a bulk string at the end. One of few digits is written at once.
#[inline(always)]
pub(crate) fn append_head(text: &mut Vec<u8>, len: u64)
    requires few { len ≤ 65536 }
    requires room { length text.old.items + 8 ≤ vec_capacity text.old }
    ensures items { text.new.items ≡ text.old.items ++ head_text len }
    ensures capacity { vec_capacity text.old ≤ vec_capacity text.new }
{
    if len < 10 {
        append(text, &head_of_digit(len as u8));
    } else if len < 100 {
        append(text, &head_of_two(len as u8));
    } else if len < 1000 {
        append(text, &head_of_three(len as u16));
    } else {
        append_long_head(text, len);
    }
}

/// Puts a line end at the end.
pub(crate) fn append_end(text: &mut Vec<u8>)
    requires { length text.old.items + 2 ≤ vec_capacity text.old }
    ensures items { text.new.items ≡ text.old.items ++ crlf }
    ensures capacity { vec_capacity text.old ≤ vec_capacity text.new }
{
    text.push_reserved(b'\r');
    text.push_reserved(b'\n');
}

// So many bytes are added to a text by fewer steps than any other number of them.
const FEW: usize = 64;

// Makes the text longer by so many bytes, whatever they are.
#[inline(always)]
fn lengthen(text: &mut Vec<u8>, count: usize)
    requires { length text.old.items + count ≤ vec_capacity text.old }
    ensures before { take (length text.old.items) text.new.items ≡ text.old.items }
    ensures count { length text.new.items ≡ length text.old.items + count }
    ensures capacity { vec_capacity text.old ≤ vec_capacity text.new }
{
    let place = text.len();
    // There is room, so neither fails.
    if count <= FEW && text.capacity() - place >= FEW {
        let _ = text.extend_from_slice(&[0u8; FEW]);
        text.truncate(place + count);
    } else {
        let _ = text.resize(place + count, 0);
    }
}

/// Puts bytes of a buffer that the owner holds at the end.
#[inline(always)]
pub(crate) fn append_run<N: PoolName>(
    text: &mut Vec<u8>,
    pool: &Pool<N>,
    owner: &mut PoolSeat<N>,
    buffer: u32,
    from: u32,
    len: u32,
)
    requires held { 0 < total (at buffer) owner.old.holds }
    requires inside { from + len ≤ 8 * length (front_of buffer owner.old.holds) }
    requires short { len < 512 }
    requires room { length text.old.items + len ≤ vec_capacity text.old }
    ensures owner { owner.new ≡ owner.old }
    ensures items { text.new.items ≡ text.old.items ++ buffer_bytes owner.old.holds buffer from len }
    ensures capacity { vec_capacity text.old ≤ vec_capacity text.new }
{
    let place = text.len();
    lengthen(text, len as usize);
    pool.load_bytes(owner, buffer, from, &mut text[place..]);
}
