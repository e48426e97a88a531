// The tests that a request passes or fails, in their order.
ghost use Rattle.std.specs.Prelude.{◌≡◌, ◌<◌, ◌≤◌, length, nat_le, take, drop, true};
ghost use Rattle.std.specs.List.{list_all};
ghost use Rattle.flake_model.specs.Command.{command_of};
ghost use Rattle.flake_model.specs.Range.{signed_of};
ghost use Rattle.command_parts.specs.Table.{asked_by, least, optioned, key_count, argument_fits, placed, range_op};
ghost use Rattle.command_parts.specs.Table.{HasWords};
ghost use Rattle.command_parts.specs.Meaning.{command_by, FitsWords};

use crate::Op;
use crate::options::set_options;
use crate::table::{Row, named_row};
use flake_base::ErrorKind;
use range_pick::read_signed;
use resp_reader::Request;
use shard_part::{PartOp, VALUE_LIMIT};

/// The most keys of a command.
const MOST_KEYS: usize = 64;

/// The most bytes of a key.
const KEY_LIMIT: usize = 512;

/// The most bytes of PING's argument.
const MESSAGE_LIMIT: usize = 16_384;

/// What a request asks for, or the error of the first test that it fails.
pub(crate) fn asked(request: &Request) -> Op
    ensures command { command_by result request.now ≡ command_of request.now }
    ensures words { FitsWords result request.now }
{
    match named_row(request) {
        Some(row) => asked_by_row(row, request),
        None => Op::Fault(ErrorKind::UnknownCommand),
    }
}

// The tests behind that of the name.
fn asked_by_row(row: Row, request: &Request) -> Op
    requires some { 0 < length request.now }
    requires words { HasWords row request.now }
    ensures command { command_by result request.now ≡ asked_by row request.now }
    ensures words { FitsWords result request.now }
{
    if !row.fits {
        return Op::Fault(ErrorKind::WrongCount);
    }
    let Some(op) = with_options(row.op, request) else {
        return Op::Fault(ErrorKind::Syntax);
    };
    let keys = key_count(row.op, request.len());
    if keys > MOST_KEYS {
        return Op::Fault(ErrorKind::TooManyKeys);
    }
    if !keys_fit(request, keys) {
        return Op::Fault(ErrorKind::KeyTooLong);
    }
    if !argument_fits(row.op, request) {
        return Op::Fault(ErrorKind::ValueTooLong);
    }
    with_places(op, request)
}

// What is asked for, with SET's options, if the words that may only be options are ones.
fn with_options(op: Op, request: &Request) -> Option<Op>
    ensures { result ≡ optioned op request.now }
{
    match op {
        Op::One(PartOp::Set) => {
            let setting = set_options(request)?;
            Some(Op::One(setting.part_op()))
        }
        _ => Some(op),
    }
}

// The number of keys, which are the words behind the name.
fn key_count(op: Op, count: usize) -> usize
    requires { 0 < count }
    ensures { result ≡ key_count op count }
{
    match op {
        Op::One(_) => 1,
        Op::MGet | Op::Del | Op::Exists => count - 1,
        Op::Ping | Op::PingWith | Op::Fault(_) => 0,
    }
}

// Whether the word that may be long is as short as it has to be.
fn argument_fits(op: Op, request: &Request) -> bool
    requires { least op ≤ length request.now }
    ensures { result ≡ argument_fits op request.now }
{
    match op {
        Op::One(op) => !op.takes_value() || request.word(2).len() <= VALUE_LIMIT,
        Op::Ping | Op::PingWith => request.len() < 2 || request.word(1).len() <= MESSAGE_LIMIT,
        _ => true,
    }
}

// What is asked for, with GETRANGE's places: the last test is that they are numbers.
fn with_places(op: Op, request: &Request) -> Op
    requires { least op ≤ length request.now }
    ensures { result ≡ placed op request.now }
{
    match op {
        Op::One(PartOp::GetRange { .. }) => range_op(request.word(2), request.word(3)),
        _ => op,
    }
}

fn range_op(first: &[u8], last: &[u8]) -> Op
    ensures { result ≡ range_op (signed_of first.now) (signed_of last.now) }
{
    match (read_signed(first), read_signed(last)) {
        (Ok(start), Ok(end)) => Op::One(PartOp::GetRange { start, end }),
        _ => Op::Fault(ErrorKind::NotInteger),
    }
}

// Whether each key has at most its bytes.
fn keys_fit(request: &Request, keys: usize) -> bool
    requires { keys < length request.now }
    ensures { result ≡ list_all (λ key. nat_le (length key) 512) (take keys (drop 1 request.now)) }
{
    for j in 0..keys {
        if request.word(j + 1).len() > KEY_LIMIT {
            return false;
        }
    }
    true
}
